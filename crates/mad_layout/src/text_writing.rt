//! The writing calls of whole texts and of their lines.

ghost use Rattle.std.specs.Prelude.{◌≡◌, IfOk, IsErrOf, List, string_bytes};
ghost use Rattle.mad_draw.specs.Pieces.{pieces_bytes};
ghost use Rattle.mad_format.specs.declared.line.FmtLine.TheVariants.{Normal};
ghost use Rattle.mad_term.specs.Draws.{Draws, AndFlushes};
ghost use Rattle.mad_term.specs.declared.errors.Error.TheVariants.{Memory};
ghost use Rattle.mad_blocks.specs.Layouts.{IsMarkdownLayout};
ghost use Rattle.mad_format.specs.declared.line.FmtLine.{FmtLine};
ghost use Rattle.mad_rows.specs.RowStyles.{line_rules};
ghost use Rattle.mad_layout.specs.Texts.{WritesMarkdown};
ghost use Rattle.mad_rows.specs.Rows.{line_pieces, text_bytes};
ghost use Rattle.mad_layout.specs.RowSkins.{row_skin};

use crate::parts_writing::append_parts;
use crate::skin::MadSkin;
use mad_blocks::PartCursor;
use mad_format::{FmtComposite, FmtLine};
use mad_rows::{PlacedComposite, PlacedLine, RowSkin, composite_blanks, line_blanks};
use mad_term::{Error, Out, put_displayed, put_text};
use std::alloc::{AllocError, Global};

impl MadSkin {
    /// Writes a composite at a width, in columns, if there is one, with its margins; the columns right of it are filled up where that is
    /// asked for. Nothing is flushed.
    ///
    /// # Errors
    ///
    /// A fault of the device; what went out by then is a beginning of the whole. Or out of memory, before the first byte.
    pub fn write_fmt_composite<O: Out>(
        &self,
        alloc: Global,
        out: &mut O,
        composite: &FmtComposite,
        width: Option<usize>,
        with_right_completion: bool,
    ) -> Result<(), Error>
        ensures writes { Draws (O.seen out.old) (pieces_bytes (line_pieces (row_skin self.now) width with_right_completion (Normal composite.now))) result (O.seen out.new) }
        ensures early { IsErrOf result Memory → O.seen out.new ≡ O.seen out.old }
    {
        let skin = &self.row_skin();
        let placed = PlacedComposite::at(skin, composite, width, with_right_completion);
        let blanks = composite_blanks(skin, composite, placed.place);
        put_displayed(alloc, out, blanks, &placed)
    }

    /// Writes a line at a width, in columns, if there is one, with its margins; the columns right of it are filled up where that is asked
    /// for. Nothing is flushed.
    ///
    /// # Errors
    ///
    /// A fault of the device; what went out by then is a beginning of the whole. Or out of memory, before the first byte.
    pub fn write_fmt_line<O: Out>(
        &self,
        alloc: Global,
        out: &mut O,
        line: &FmtLine,
        width: Option<usize>,
        with_right_completion: bool,
    ) -> Result<(), Error>
        ensures writes { Draws (O.seen out.old) (pieces_bytes (line_pieces (row_skin self.now) width with_right_completion line.now)) result (O.seen out.new) }
        ensures early { IsErrOf result Memory → O.seen out.new ≡ O.seen out.old }
    {
        let skin = &self.row_skin();
        let blanks = line_blanks(skin, line, width, with_right_completion);
        let placed = PlacedLine {
            skin,
            line,
            outer: width,
            filled: with_right_completion,
        };
        put_displayed(alloc, out, blanks, &placed)
    }

    /// Writes a Markdown text, laid out at a width, in columns, if there is one: each line and a newline. Nothing is flushed.
    ///
    /// # Errors
    ///
    /// A fault of the device; what went out by then is a beginning of the whole. Or out of memory, before the first byte.
    pub fn write_text_on<O: Out>(
        &self,
        alloc: Global,
        out: &mut O,
        markdown: &str,
        width: Option<usize>,
    ) -> Result<(), Error>
        ensures writes { WritesMarkdown (row_skin self.now) width markdown.now (O.seen out.old) result (O.seen out.new) }
        ensures early { IsErrOf result Memory → O.seen out.new ≡ O.seen out.old }
    {
        let skin = self.row_skin();
        let rows = text_rows(alloc, markdown, width, &skin)?;
        put_text(out, &rows)
    }

    /// Writes a Markdown text, as [`MadSkin::write_text_on`] does.
    ///
    /// # Errors
    ///
    /// A fault of the device; what went out by then is a beginning of the whole. Or out of memory, before the first byte.
    pub fn print_text<O: Out>(
        &self,
        alloc: Global,
        out: &mut O,
        markdown: &str,
        width: Option<usize>,
    ) -> Result<(), Error>
        ensures writes { WritesMarkdown (row_skin self.now) width markdown.now (O.seen out.old) result (O.seen out.new) }
        ensures early { IsErrOf result Memory → O.seen out.new ≡ O.seen out.old }
    {
        self.write_text_on(alloc, out, markdown, width)
    }

    /// Writes a Markdown text, as [`MadSkin::write_text_on`] does, and flushes.
    ///
    /// # Errors
    ///
    /// A fault of the device, at its flush too; what went out by then is a beginning of the whole. Or out of memory, before
    /// the first byte.
    pub fn write_text<O: Out>(
        &self,
        alloc: Global,
        out: &mut O,
        markdown: &str,
        width: Option<usize>,
    ) -> Result<(), Error>
        ensures writes { AndFlushes (WritesMarkdown (row_skin self.now) width markdown.now) (O.seen out.old) result (O.seen out.new) }
        ensures early { IsErrOf result Memory → O.seen out.new ≡ O.seen out.old }
    {
        self.write_text_on(alloc, out, markdown, width)?;
        out.flush()?;
        Ok(())
    }
}

/// Writes a Markdown text in a skin, as [`MadSkin::print_text`] does.
///
/// # Errors
///
/// A fault of the device; what went out by then is a beginning of the whole. Or out of memory, before the first byte.
pub fn print_text<O: Out>(
    alloc: Global,
    skin: &MadSkin,
    out: &mut O,
    markdown: &str,
    width: Option<usize>,
) -> Result<(), Error>
    ensures writes { WritesMarkdown (row_skin skin.now) width markdown.now (O.seen out.old) result (O.seen out.new) }
    ensures early { IsErrOf result Memory → O.seen out.new ≡ O.seen out.old }
{
    skin.print_text(alloc, out, markdown, width)
}

// The rows of a Markdown text: those of its lines, each with a newline.
fn text_rows(
    alloc: Global,
    markdown: &str,
    width: Option<usize>,
    skin: &RowSkin,
) -> Result<String, AllocError>
    ensures { IfOk result (λ rows. (lines : List FmtLine) × IsMarkdownLayout (line_rules skin.now) width markdown.now lines × (string_bytes rows ≡ text_bytes skin.now width lines)) }
{
    let mut rows = String::new(alloc);
    append_parts(
        alloc,
        &mut rows,
        &mut PartCursor::new(markdown),
        width,
        skin,
    )?;
    Ok(rows)
}
