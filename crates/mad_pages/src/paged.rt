//! A page that is laid out for a pager: its lines, what stands in front of each, and where its sections and their parts begin.

ghost use Rattle.std.specs.Prelude.{◌≡◌, ◌++◌, [], ◌∷◌, IfOk, OnOk, List, ℕ, drop, length, map};
ghost use Rattle.std.specs.List.{flat_map};
ghost use Rattle.mad_blocks.specs.Layouts.{IsLayoutAt};
ghost use Rattle.mad_md.specs.Lines.{contents};
ghost use Rattle.mad_format.specs.declared.line.FmtLine.{FmtLine};
ghost use Rattle.mad_dressing.specs.Dressed.{sections_dressed};
ghost use Rattle.mad_sections.specs.Sections.{section_content};
ghost use Rattle.mad_blocks.specs.Tables.{table_rules};
ghost use Rattle.mad_sections.specs.Unfolded.{unfolded};
ghost use Rattle.mad_pages.specs.Fronts.{front_content};
ghost use Rattle.mad_pages.specs.PagedPages.{AreAdded, ArePartsAdded, IsPagedAt};

use crate::fronts::{Front, push_fronts};
use mad_blocks::{PartCursor, table_rules};
use mad_dressing::Dressed;
use mad_format::{FmtLine, LineSkin};
use mad_md::Text;
use mad_sections::{Section, Unfolded, room_behind, unfold};
use std::alloc::{AllocError, Global};

/// A page that is laid out.
#[derive(Drop)]
pub struct PagedPage<'s> {
    /// The lines of its rows.
    pub lines: Vec<FmtLine<'s>>,
    /// What stands in front of each.
    pub fronts: Vec<Front<'s>>,
    /// The rows in which its sections begin, each with the rule below it, and last the count of all rows. There are as many at each width.
    pub starts: Vec<usize>,
    /// The rows in which the parts of what is shown of them begin, and last the count of all rows. No line of a text goes over two parts.
    pub parts: Vec<usize>,
}

/// A page of these sections, each with what is put into the page with it, at a width in columns, if there is one. Boxes of tasks are of ASCII
/// characters, or not.
///
/// # Errors
///
/// Out of memory is the only error.
pub fn lay_beside<'s, S: LineSkin>(
    alloc: Global,
    skin: &S,
    page: Vec<Dressed<'s>>,
    width: Option<usize>,
    ascii: bool,
) -> Result<PagedPage<'s>, AllocError>
    ensures { IfOk result (λ paged. IsPagedAt (S.rules skin.now) ascii width (map sections_dressed page.entry.items) paged) }
{
    let mut paged = PagedPage::new(alloc)?;
    for dressed in page {
        paged.push_dressed(alloc, dressed, width, ascii, skin)?;
        let count = count_of(&paged.lines);
        paged.starts.push(count)?;
    }
    Ok(paged)
}

impl<'s> PagedPage<'s> {
    // A page without sections.
    fn new(alloc: Global) -> Result<Self, AllocError>
        ensures lines { IfOk result (λ paged. paged.lines.items ≡ []) }
        ensures fronts { IfOk result (λ paged. paged.fronts.items ≡ []) }
        ensures starts { IfOk result (λ paged. paged.starts.items ≡ 0 ∷ []) }
        ensures parts { IfOk result (λ paged. paged.parts.items ≡ 0 ∷ []) }
    {
        let starts = first_start(alloc)?;
        let parts = first_start(alloc)?;
        Ok(PagedPage {
            lines: Vec::new(alloc),
            fronts: Vec::new(alloc),
            starts,
            parts,
        })
    }

    // Puts what is shown of a section behind what is there, and below it the rule, if it has one.
    fn push_dressed<S: LineSkin>(
        &mut self,
        alloc: Global,
        dressed: Dressed<'s>,
        width: Option<usize>,
        ascii: bool,
        skin: &S,
    ) -> Result<(), AllocError>
        ensures added { OnOk result (AreAdded (S.rules skin.now) ascii width (flat_map (unfolded (table_rules (S.rules skin.now)) ascii width) (sections_dressed dressed.entry)) self.old self.new) }
        ensures starts { OnOk result (self.new.starts ≡ self.old.starts) }
    {
        self.push_section(alloc, dressed.section, width, ascii, skin)?;
        match dressed.rule {
            Some(rule) => {
                self.push_section(alloc, rule, width, ascii, skin)?;
                Ok(())
            }
            None => Ok(()),
        }
    }

    // Puts what is shown of a section behind what is there.
    fn push_section<S: LineSkin>(
        &mut self,
        alloc: Global,
        section: Section<'s>,
        width: Option<usize>,
        ascii: bool,
        skin: &S,
    ) -> Result<(), AllocError>
        ensures added { OnOk result (AreAdded (S.rules skin.now) ascii width (unfolded (table_rules (S.rules skin.now)) ascii width (section_content section.entry)) self.old self.new) }
        ensures starts { OnOk result (self.new.starts ≡ self.old.starts) }
    {
        match unfold(alloc, section, width, ascii, table_rules(skin))? {
            Unfolded::Itself(section) => self.push_shown(alloc, section, width, ascii, skin),
            Unfolded::Items(items) => self.push_items(alloc, items, width, ascii, skin),
        }
    }

    // Puts a list's items behind what is there.
    fn push_items<S: LineSkin>(
        &mut self,
        alloc: Global,
        items: Vec<Section<'s>>,
        width: Option<usize>,
        ascii: bool,
        skin: &S,
    ) -> Result<(), AllocError>
        ensures added { OnOk result (AreAdded (S.rules skin.now) ascii width (map section_content items.entry.items) self.old self.new) }
        ensures starts { OnOk result (self.new.starts ≡ self.old.starts) }
    {
        for item in items {
            self.push_shown(alloc, item, width, ascii, skin)?;
        }
        Ok(())
    }

    // Puts a section that isn't unfolded behind what is there.
    fn push_shown<S: LineSkin>(
        &mut self,
        alloc: Global,
        section: Section<'s>,
        width: Option<usize>,
        ascii: bool,
        skin: &S,
    ) -> Result<(), AllocError>
        ensures added { OnOk result (AreAdded (S.rules skin.now) ascii width (section_content section.entry ∷ []) self.old self.new) }
        ensures starts { OnOk result (self.new.starts ≡ self.old.starts) }
    {
        let room = room_behind(section.gutters, width, ascii);
        let above = count_of(&self.lines);
        push_parts(
            alloc,
            &mut self.lines,
            &mut self.parts,
            section.text,
            room.columns,
            skin,
        )?;
        push_fronts(
            &mut self.fronts,
            room.gutters,
            section.fresh,
            section.marks,
            lines_below(&self.lines, above),
        )?;
        Ok(())
    }
}

// Puts the lines of a text, laid out at a width, behind those that are there, and behind the starts of parts those of the parts that come next.
fn push_parts<'s, S: LineSkin>(
    alloc: Global,
    lines: &mut Vec<FmtLine<'s>>,
    starts: &mut Vec<usize>,
    text: Text<'s>,
    width: Option<usize>,
    skin: &S,
) -> Result<(), AllocError>
    ensures { OnOk result (ArePartsAdded (S.rules skin.now) width (contents text.entry) lines.old.items starts.old.items lines.new.items starts.new.items) }
{
    let mut parts = PartCursor::of_text(text);
    'parts: while parts.lay_next(alloc, lines, width, skin)? {
        starts.push(count_of(lines))?;
    }
    Ok(())
}

// The start of the first section alone, or of the first part.
fn first_start(alloc: Global) -> Result<Vec<usize>, AllocError>
    ensures { IfOk result (λ starts. starts.items ≡ 0 ∷ []) }
{
    let mut starts = Vec::new(alloc);
    starts.push(0)?;
    Ok(starts)
}

// The lines behind so many.
fn lines_below<'l, 's>(lines: &'l Vec<FmtLine<'s>>, count: usize) -> &'l [FmtLine<'s>]
    ensures { result.now ≡ drop count lines.now.items }
{
    if count < lines.len() {
        &lines.as_slice()[count..]
    } else {
        &[]
    }
}

// How many lines there are.
fn count_of(lines: &Vec<FmtLine>) -> usize
    ensures { result ≡ length lines.now.items }
{
    lines.len()
}
