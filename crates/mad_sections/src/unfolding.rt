//! The sections that are shown in the place of one.

ghost use Rattle.std.specs.Prelude.{◌≡◌, ◌-◌, ◌^◌, ◌<◌, map, IfOk};
ghost use Rattle.std.specs.Vec.Iter.{into_iter_items};
ghost use Rattle.mad_md.specs.Lines.{styled_runs};
ghost use Rattle.mad_sections.specs.Sections.{section_content};
ghost use Rattle.mad_sections.specs.Items.{item_lines, items_of};
ghost use Rattle.mad_sections.specs.Shown.{rows_said, sections_shown};
ghost use Rattle.mad_sections.specs.Unfolded.{as_list, list_sections, unfolded};

use crate::gutters::Gutter;
use crate::items::{item_lines, rows_in, says_heads};
use crate::rooms::room_behind;
use crate::sections::Section;
use crate::table_rooms::{TableRules, lacks_room};
use mad_md::{Composite, TableRow, Text};
use std::alloc::{AllocError, Global};
use std::vec::IntoIter;

/// What is shown in the place of a section.
#[derive(Debug, PartialEq, Drop)]
pub enum Unfolded<'s> {
    /// The section.
    Itself(Section<'s>),
    /// The items of a list, each a section.
    Items(Vec<Section<'s>>),
}

/// What is shown in the place of a section at a width in columns, if there is one: a table that has no room is a list, all else stays.
///
/// Each row is an item, and each cell that isn't empty a paragraph behind its head. Where a head is longer than half of the room, or there
/// are no rows, the head row is the first item, and isn't said again. Only out of memory is an error.
pub fn unfold<'s>(
    alloc: Global,
    section: Section<'s>,
    width: Option<usize>,
    ascii: bool,
    rules: TableRules,
) -> Result<Unfolded<'s>, AllocError>
    ensures { IfOk result (λ shown. sections_shown shown ≡ unfolded rules ascii width (section_content section.entry)) }
{
    let room = room_behind(section.gutters, width, ascii).columns;
    match (room, section.list) {
        (Some(room), Some(gutters)) if lacks_room(&section.text.lines, room, rules) => {
            let items = list_of(alloc, section, gutters, room)?;
            Ok(Unfolded::Items(items))
        }
        _ => Ok(Unfolded::Itself(section)),
    }
}

// The list that stands for a table, behind these gutters.
fn list_of<'s>(
    alloc: Global,
    section: Section<'s>,
    gutters: &'s [Gutter],
    room: usize,
) -> Result<Vec<Section<'s>>, AllocError>
    ensures { IfOk result (λ items. map section_content items.items ≡ as_list room gutters.entry.now (section_content section.entry)) }
{
    let fresh = section.fresh.min(section.gutters.len());
    let rows = rows_in(alloc, section.text.lines)?;
    list_of_rows(alloc, gutters, fresh, rows, room)
}

// The list of a table's rows, behind these gutters, so many of which begin with it.
fn list_of_rows<'s>(
    alloc: Global,
    gutters: &'s [Gutter],
    fresh: usize,
    rows: Vec<TableRow<'s>>,
    room: usize,
) -> Result<Vec<Section<'s>>, AllocError>
    requires { fresh < 2 ^ 64 - 1 }
    ensures { IfOk result (λ items. map section_content items.items ≡ list_sections gutters.entry.now fresh (items_of room (rows_said rows.entry.items))) }
{
    if !says_heads(&rows, room) {
        return list_below(alloc, gutters, fresh, &[], rows.into_iter());
    }
    let mut rest = rows.into_iter();
    match rest.next() {
        Some(heads) => list_below(alloc, gutters, fresh, &heads.cells, rest),
        None => Ok(Vec::new(alloc)),
    }
}

// The items of rows below these heads.
fn list_below<'s>(
    alloc: Global,
    gutters: &'s [Gutter],
    fresh: usize,
    heads: &[Composite<'s>],
    rows: IntoIter<TableRow<'s>>,
) -> Result<Vec<Section<'s>>, AllocError>
    requires { fresh < 2 ^ 64 - 1 }
    ensures { IfOk result (λ items. map section_content items.items ≡ list_sections gutters.entry.now fresh (map (item_lines (map styled_runs heads.now)) (rows_said (into_iter_items rows.entry)))) }
{
    let mut items = Vec::new(alloc);
    let mut fresh = fresh;
    for row in rows {
        let lines = item_lines(alloc, heads, row)?;
        items.push(Section {
            gutters,
            fresh: fresh + 1,
            list: None,
            marks: &[],
            text: Text { lines },
        })?;
        fresh = 0;
    }
    Ok(items)
}
