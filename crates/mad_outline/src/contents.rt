//! The headers of a text.

ghost use Rattle.std.specs.Prelude.{◌≡◌, ◌++◌, ◌==◌, length, IfOk, OnOk, map};
ghost use Rattle.mad_md.specs.Flagged.{run_of};
ghost use Rattle.mad_md.specs.Lines.{content_of, contents, normal, styled_runs};
ghost use Rattle.mad_outline.specs.LinkLists.{items_by};
ghost use Rattle.mad_outline.specs.Sources.{bold_run, header_item, header_of, header_said, headers_listed, item_runs, item_style};
ghost use Rattle.mad_search.specs.PagedTexts.{paged_sections};
ghost use Rattle.mad_sections.specs.Sections.{page_content, section_content};

use crate::sources::raw_line;
use mad_md::{Composite, CompositeStyle, Compound, Line, Text};
use mad_search::PagedText;
use mad_sections::{Page, Section};
use std::alloc::{AllocError, Global};

/// The name of the page that has them.
pub const CONTENTS_NAME: &str = "contents";

/// What it says where there is none.
pub const NO_HEADERS: &str = "There are no headers.";

/// The headers of a text, as a text: an item for each. The one of this index is chosen.
///
/// # Errors
///
/// Out of memory is the only error.
pub fn contents_text<'s>(
    alloc: Global,
    text: PagedText<'s>,
    chosen: usize,
) -> Result<Text<'s>, AllocError>
    ensures { IfOk result (λ listed. contents listed ≡ headers_listed (paged_sections text.entry) chosen) }
{
    let page = text.page(alloc)?;
    let mut lines = header_items(alloc, page, chosen)?;
    if lines.is_empty() {
        lines.push(raw_line(alloc, CompositeStyle::Paragraph, NO_HEADERS)?)?;
        return Ok(Text { lines });
    }
    Ok(Text { lines })
}

// An item for each header of a page.
#[tactic(auto, using(crate::proofs::SourceLemmas::item_more, crate::proofs::SourceLemmas::items_all))]
fn header_items<'s>(
    alloc: Global,
    page: Page<'s>,
    chosen: usize,
) -> Result<Vec<Line<'s>>, AllocError>
    ensures { IfOk result (λ lines. map content_of lines.items ≡ items_by (header_said chosen) 0 (page_content page.entry)) }
{
    let mut lines = Vec::new(alloc);
    let left = page.sections.into_iter();
    for section in left {
        push_header(alloc, &mut lines, section, chosen)?;
    }
    Ok(lines)
}

// Puts the first line of a section after others as an item, if it is a header.
fn push_header<'s>(
    alloc: Global,
    lines: &mut Vec<Line<'s>>,
    section: Section<'s>,
    chosen: usize,
) -> Result<(), AllocError>
    ensures { OnOk result (map content_of lines.new.items ≡ map content_of lines.old.items ++ header_said chosen (length lines.old.items) (section_content section.entry)) }
{
    let mut left = section.text.lines.into_iter();
    match left.next() {
        Some(Line::Normal(composite)) => push_heading(alloc, lines, composite, chosen),
        _ => Ok(()),
    }
}

// Puts a composite after others as an item, if it is a header.
fn push_heading<'s>(
    alloc: Global,
    lines: &mut Vec<Line<'s>>,
    composite: Composite<'s>,
    chosen: usize,
) -> Result<(), AllocError>
    ensures { OnOk result (map content_of lines.new.items ≡ map content_of lines.old.items ++ header_item (length lines.old.items == chosen) (header_of (normal (styled_runs composite.entry)))) }
{
    match composite.style {
        CompositeStyle::Header(level) => {
            let style = item_style(lines.len() == chosen, level);
            let compounds = item_compounds(alloc, lines.len() == chosen, composite.compounds)?;
            lines.push(Line::Normal(Composite { style, compounds }))?;
            Ok(())
        }
        _ => Ok(()),
    }
}

// The parts of the text of a header as an item: bold, where it is chosen.
fn item_compounds<'s>(
    alloc: Global,
    is_chosen: bool,
    compounds: Vec<Compound<'s>>,
) -> Result<Vec<Compound<'s>>, AllocError>
    ensures { IfOk result (λ shown. map run_of shown.items ≡ item_runs is_chosen (map run_of compounds.entry.items)) }
{
    if is_chosen {
        return bold_each(alloc, compounds.as_slice());
    }
    Ok(compounds)
}

// These parts of a text, each bold.
fn bold_each<'s>(alloc: Global, compounds: &[Compound<'s>]) -> Result<Vec<Compound<'s>>, AllocError>
    ensures { IfOk result (λ bold. map run_of bold.items ≡ map bold_run (map run_of compounds.now)) }
{
    let mut bold = Vec::new(alloc);
    for compound in compounds {
        bold.push(bolder(*compound))?;
    }
    Ok(bold)
}

// A part of a text, bold.
fn bolder(compound: Compound) -> Compound
    ensures { run_of result ≡ bold_run (run_of compound.entry) }
{
    Compound {
        bold: true,
        ..compound
    }
}

// The style of the item of a header, chosen or not.
fn item_style(is_chosen: bool, level: u8) -> CompositeStyle
    ensures { result ≡ item_style is_chosen level }
{
    let level = level.saturating_sub(1).saturating_mul(2);
    if is_chosen {
        CompositeStyle::ListItem(level)
    } else {
        CompositeStyle::ListItemFollowUp(level)
    }
}
