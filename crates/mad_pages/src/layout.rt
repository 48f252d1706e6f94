//! The rows of a section, and of a page.

ghost use Rattle.std.specs.Prelude.{◌≡◌, ◌++◌, map, List, IfOk, OnOk};
ghost use Rattle.mad_format.specs.Lists.{EachBecomes};
ghost use Rattle.mad_sections.specs.Sections.{page_content, section_content};
ghost use Rattle.mad_pages.specs.PageLayouts.{BecomesAt, IsPageAt, IsSectionAt};
ghost use Rattle.mad_pages.specs.PageRows.{RowContent, row_content};
ghost use Rattle.mad_pages.specs.PageCursors.{sections_left};

use crate::page_cursor::PageCursor;
use crate::page_rows::{PageRow, push_behind};
use mad_blocks::{lay_text, table_rules};
use mad_format::LineSkin;
use mad_sections::{Page, Section, Unfolded, room_behind, unfold};
use std::alloc::{AllocError, Global};

/// The rows of a page at a width in columns, if there is one: those of its sections, in order. Boxes of tasks are of ASCII characters, or
/// not.
///
/// Only out of memory is an error.
pub fn lay_page<'s, S: LineSkin>(
    alloc: Global,
    skin: &S,
    page: Page<'s>,
    width: Option<usize>,
    ascii: bool,
) -> Result<Vec<PageRow<'s>>, AllocError>
    ensures { IfOk result (λ rows. IsPageAt (S.rules skin.now) ascii width (page_content page.entry) (map row_content rows.items)) }
{
    lay_sections(alloc, skin, &mut PageCursor::new(page), width, ascii)
}

// The rows of all sections that are left.
fn lay_sections<'s, S: LineSkin>(
    alloc: Global,
    skin: &S,
    sections: &mut PageCursor<'s>,
    width: Option<usize>,
    ascii: bool,
) -> Result<Vec<PageRow<'s>>, AllocError>
    ensures { IfOk result (λ rows. IsPageAt (S.rules skin.now) ascii width (sections_left sections.old) (map row_content rows.items)) }
{
    let mut rows = Vec::new(alloc);
    while sections.lay_next(alloc, &mut rows, width, ascii, skin)? {}
    Ok(rows)
}

/// The rows of a section at a width in columns, if there is one. Only out of memory is an error.
pub fn lay_section<'s, S: LineSkin>(
    alloc: Global,
    skin: &S,
    section: Section<'s>,
    width: Option<usize>,
    ascii: bool,
) -> Result<Vec<PageRow<'s>>, AllocError>
    ensures { IfOk result (λ rows. BecomesAt (S.rules skin.now) ascii width (section_content section.entry) (map row_content rows.items)) }
{
    let mut rows = Vec::new(alloc);
    push_section(alloc, &mut rows, section, width, ascii, skin)?;
    Ok(rows)
}

/// Puts the rows of a section after those that are there, at a width in columns, if there is one.
///
/// Its lines are laid out in the room behind its gutters, each behind those gutters that are shown. Only out of memory is an error.
pub fn push_section<'s, S: LineSkin>(
    alloc: Global,
    rows: &mut Vec<PageRow<'s>>,
    section: Section<'s>,
    width: Option<usize>,
    ascii: bool,
    skin: &S,
) -> Result<(), AllocError>
    ensures { OnOk result ((own : List RowContent) × (map row_content rows.new.items ≡ map row_content rows.old.items ++ own) × BecomesAt (S.rules skin.now) ascii width (section_content section.entry) own) }
{
    match unfold(alloc, section, width, ascii, table_rules(skin))? {
        Unfolded::Itself(section) => push_folded(alloc, rows, section, width, ascii, skin),
        Unfolded::Items(items) => push_items(alloc, rows, items, width, ascii, skin),
    }
}

// Puts the rows of a list's items after those that are there.
fn push_items<'s, S: LineSkin>(
    alloc: Global,
    rows: &mut Vec<PageRow<'s>>,
    items: Vec<Section<'s>>,
    width: Option<usize>,
    ascii: bool,
    skin: &S,
) -> Result<(), AllocError>
    ensures { OnOk result ((own : List RowContent) × (map row_content rows.new.items ≡ map row_content rows.old.items ++ own) × EachBecomes (IsSectionAt (S.rules skin.now) ascii width) (map section_content items.entry.items) own) }
{
    for item in items {
        push_folded(alloc, rows, item, width, ascii, skin)?;
    }
    Ok(())
}

// Puts the rows of a section that isn't unfolded after those that are there.
fn push_folded<'s, S: LineSkin>(
    alloc: Global,
    rows: &mut Vec<PageRow<'s>>,
    section: Section<'s>,
    width: Option<usize>,
    ascii: bool,
    skin: &S,
) -> Result<(), AllocError>
    ensures { OnOk result ((own : List RowContent) × (map row_content rows.new.items ≡ map row_content rows.old.items ++ own) × IsSectionAt (S.rules skin.now) ascii width (section_content section.entry) own) }
{
    let room = room_behind(section.gutters, width, ascii);
    let lines = lay_text(alloc, skin, section.text, room.columns)?;
    push_behind(rows, room.gutters, section.fresh, section.marks, lines)
}
