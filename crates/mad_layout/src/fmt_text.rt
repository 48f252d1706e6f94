//! Texts, laid out.

ghost use Rattle.std.specs.Prelude.{◌≡◌, ◌-◌, None, IfOk, Some};
ghost use Rattle.mad_md.specs.Lines.{contents};
ghost use Rattle.mad_md.specs.ReadRaw.{IsReadRaw};
ghost use Rattle.mad_md.specs.declared.text.Text.{Text};
ghost use Rattle.mad_format.specs.FmtLines.{widest_line};
ghost use Rattle.mad_layout.specs.InArea.{IsAreaFront};
ghost use Rattle.mad_layout.specs.LaidOutTexts.{IsMarkdownLaidOut, IsTextLaidOut};
ghost use Rattle.mad_layout.specs.RowSkins.{row_skin};

use crate::skin::MadSkin;
use mad_blocks::{lay_front, lay_source, lay_text};
use mad_format::FmtLine;
use mad_md::Text;
use mad_measure::Area;
use mad_rows::PlacedLines;
use std::alloc::{AllocError, Global};
use std::fmt::{self, Display};

/// A text that is laid out: its lines, none wider than the width where that can be had.
#[derive(Debug, Drop)]
pub struct FmtText<'k, 's> {
    /// The styles that it was laid out in, and that it is drawn in.
    pub skin: &'k MadSkin,
    /// Its lines.
    pub lines: Vec<FmtLine<'s>>,
    /// The columns that it was laid out for, or that it is displayed in, if there is a width.
    pub width: Option<usize>,
}

impl<'k, 's> FmtText<'k, 's> {
    /// A text without a look at its marks, laid out at a width, in columns.
    ///
    /// At a width under three, or without one, nothing is wrapped. Only out of memory is an error.
    pub fn raw_str(
        alloc: Global,
        skin: &'k MadSkin,
        src: &'s str,
        width: Option<usize>,
    ) -> Result<Self, AllocError>
        ensures { IfOk result (λ laid_out. (text : Text) × IsReadRaw src.now text × IsTextLaidOut skin.now width (contents text) laid_out) }
    {
        let text = Text::raw_str(alloc, src)?;
        Self::from_text(alloc, skin, text, width)
    }

    /// A Markdown text, laid out at a width, in columns.
    ///
    /// At a width under three, or without one, nothing is wrapped. Only out of memory is an error.
    pub fn from(
        alloc: Global,
        skin: &'k MadSkin,
        src: &'s str,
        width: Option<usize>,
    ) -> Result<Self, AllocError>
        ensures { IfOk result (IsMarkdownLaidOut skin.now width src.now) }
    {
        let lines = lay_source(alloc, skin, src, width)?;
        Ok(FmtText { skin, lines, width })
    }

    /// A text that was read, laid out at a width, in columns.
    ///
    /// At a width under three, or without one, nothing is wrapped. Only out of memory is an error.
    pub fn from_text(
        alloc: Global,
        skin: &'k MadSkin,
        text: Text<'s>,
        width: Option<usize>,
    ) -> Result<Self, AllocError>
        ensures { IfOk result (IsTextLaidOut skin.now width (contents text.entry)) }
    {
        let lines = lay_text(alloc, skin, text, width)?;
        Ok(FmtText { skin, lines, width })
    }

    /// Sets the width, in columns, in which the text is displayed. Its lines stay as they are.
    pub fn set_rendering_width(&mut self, width: usize)
        ensures { self.new ≡ record self.old { width = Some width } }
    {
        self.width = Some(width);
    }

    /// The columns of the widest line, by the lines' cached lengths: without margins and without what fills a place.
    pub fn content_width(&self) -> usize
        ensures { result ≡ widest_line self.now.lines.items }
    {
        let mut widest = 0;
        for line in &self.lines {
            widest = line.visible_length().max(widest);
        }
        widest
    }
}

impl fmt::Display for FmtText<'_, '_> {
    ghost use Rattle.mad_rows.specs.Rows.{text_bytes};

    ghost output = { λ t. Some (text_bytes (row_skin t.skin.now) t.width t.lines.items) };

    fn fmt<W: fmt::Write>(&self, f: &mut fmt::Formatter<W>) -> fmt::Result {
        let lines = PlacedLines {
            skin: &self.skin.row_skin(),
            lines: self.lines.as_slice(),
            outer: self.width,
        };
        lines.fmt(f)
    }
}

impl MadSkin {
    /// A Markdown text, laid out for an area: at a width one column less than the area's. Only out of memory is an error.
    pub fn area_text<'k, 's>(
        &'k self,
        alloc: Global,
        markdown: &'s str,
        area: &Area,
    ) -> Result<FmtText<'k, 's>, AllocError>
        ensures { IfOk result (IsMarkdownLaidOut self.now (Some (area.now.width - 1)) markdown.now) }
    {
        let width = (area.width as usize).saturating_sub(1);
        FmtText::from(alloc, self, markdown, Some(width))
    }

    /// The first lines of a Markdown text, laid out for an area: enough to take at least its rows, or all of them. Only out of memory is
    /// an error.
    pub(crate) fn area_front<'k, 's>(
        &'k self,
        alloc: Global,
        markdown: &'s str,
        area: &Area,
    ) -> Result<FmtText<'k, 's>, AllocError>
        ensures skin { IfOk result (λ text. text.skin.now ≡ self.now) }
        ensures lines { IfOk result (λ text. IsAreaFront (row_skin self.now) markdown.now area.now text.lines.items) }
    {
        let width = Some(usize::from(area.width).saturating_sub(1));
        let rows = usize::from(area.height);
        let lines = lay_front(alloc, self, markdown, width, rows)?;
        Ok(FmtText {
            skin: self,
            lines,
            width,
        })
    }

    /// A Markdown text, laid out at a width, in columns, if there is one. Without one nothing is wrapped, and a rule across the page is an
    /// empty row. Only out of memory is an error.
    pub fn text<'k, 's>(
        &'k self,
        alloc: Global,
        markdown: &'s str,
        width: Option<usize>,
    ) -> Result<FmtText<'k, 's>, AllocError>
        ensures { IfOk result (IsMarkdownLaidOut self.now width markdown.now) }
    {
        FmtText::from(alloc, self, markdown, width)
    }

    /// A Markdown text, laid out for a terminal of this width, in columns. Only out of memory is an error.
    pub fn term_text<'k, 's>(
        &'k self,
        alloc: Global,
        markdown: &'s str,
        width: usize,
    ) -> Result<FmtText<'k, 's>, AllocError>
        ensures { IfOk result (IsMarkdownLaidOut self.now (Some width) markdown.now) }
    {
        FmtText::from(alloc, self, markdown, Some(width))
    }
}

/// A Markdown text in a skin, without a width, as [`MadSkin::text`] makes it. Only out of memory is an error.
pub fn text<'k, 's>(
    alloc: Global,
    skin: &'k MadSkin,
    markdown: &'s str,
) -> Result<FmtText<'k, 's>, AllocError>
    ensures { IfOk result (IsMarkdownLaidOut skin.now None markdown.now) }
{
    skin.text(alloc, markdown, None)
}

/// A Markdown text in a skin, as [`MadSkin::term_text`] makes it. Only out of memory is an error.
pub fn term_text<'k, 's>(
    alloc: Global,
    skin: &'k MadSkin,
    markdown: &'s str,
    width: usize,
) -> Result<FmtText<'k, 's>, AllocError>
    ensures { IfOk result (IsMarkdownLaidOut skin.now (Some width) markdown.now) }
{
    skin.term_text(alloc, markdown, width)
}
