//! Rows of pages with links as text at the end of a string.

ghost use Rattle.std.specs.Prelude.{◌≡◌, ◌++◌, false, List, OnOk, map, string_bytes};
ghost use Rattle.mad_rows.specs.RowStyles.{line_rules};
ghost use Rattle.mad_sections.specs.Sections.{section_content};
ghost use Rattle.mad_pages.specs.PageRows.{RowContent, row_content};
ghost use Rattle.mad_dressing.specs.Dressed.{dressed};
ghost use Rattle.mad_page_rows.specs.Faces.{has_ascii_boxes};
ghost use Rattle.markdown_linked_pages.specs.LinkedPageRows.{linked_row_pieces};
ghost use Rattle.markdown_linked_pages.specs.CellMarks.{left_by, own_row, with_cell_marks};
ghost use Rattle.markdown_linked_pages.specs.ColumnsKept.{column_values, values_left};
ghost use Rattle.markdown_linked_pages.specs.LinkedPages.{ended_pieces, linked_row_bytes, linked_rows_bytes, with_link_marks, IsLinkedAt, IsLinkedPageAt};

use crate::cell_marks::{take_cells, whole_columns};
use crate::column_marks::column_marks;
use crate::link_marks::with_link_marks;
use crate::linked_rows::{LinkedSkin, append_linked_row, lead};
use crate::row_ends::take_ends;
use mad_dressing::{PageMarks, dress, dressing_of};
use mad_format::FmtLine;
use mad_links::push_end;
use mad_mark_runs::MarkRun;
use mad_page_rows::has_ascii_boxes;
use mad_pages::{PageRow, push_section};
use mad_rows::StyleCommands;
use mad_sections::Section;
use markdown_layout::append_page_row;
use std::alloc::{AllocError, Global};

// A row whose marks are those of links, and a newline.
#[tactic(auto, using(crate::proofs::LinkedEnds::closed_ended))]
fn append_leading_row(
    rows: &mut String,
    row: &PageRow,
    width: Option<usize>,
    skin: LinkedSkin<'_>,
) -> Result<(), AllocError>
    ensures { OnOk result (string_bytes rows.new ≡ string_bytes rows.old ++ ended_pieces skin.entry.addresses.now (linked_row_pieces skin.entry.skin.now width false (row_content row.now))) }
{
    let start = rows.len();
    let link = append_linked_row(rows, row, width, false, skin)?;
    take_ends(rows, start);
    push_end(rows, skin.addresses, link)?;
    rows.push('\n')?;
    Ok(())
}

/// Puts a row of a page, with its links, and a newline after the rows that are there, at a width in columns, if there is one. It ends in no blank that no
/// style shows, and with no link open. A row without links is written as [`append_page_row`] does. One of a table has the marks of its own cells, as
/// [`append_linked_section`] gives it.
///
/// [`append_page_row`]: markdown_layout::append_page_row
///
/// # Errors
///
/// Out of memory. What the rows then end with is open.
pub fn append_linked_page_row(
    rows: &mut String,
    row: &PageRow,
    width: Option<usize>,
    skin: LinkedSkin<'_>,
    commands: &mut StyleCommands,
) -> Result<(), AllocError>
    ensures { OnOk result (string_bytes rows.new ≡ string_bytes rows.old ++ linked_row_bytes skin.entry.addresses.now skin.entry.skin.now width (row_content row.now)) }
{
    if lead(row.marks) {
        append_leading_row(rows, row, width, skin)
    } else {
        append_page_row(rows, row, width, skin.skin, commands)
    }
}

// A row of a section with links, and a newline. One of a table takes the marks of its cells of what is left of the columns.
#[tactic(auto, using(crate::proofs::OwnRowLemmas::own_table, crate::proofs::OwnRowLemmas::own_other, crate::proofs::OwnRowLemmas::left_table, crate::proofs::OwnRowLemmas::left_other))]
fn append_own_row(
    alloc: Global,
    rows: &mut String,
    row: PageRow<'_>,
    left: &mut [&[usize]],
    width: Option<usize>,
    skin: LinkedSkin<'_>,
    commands: &mut StyleCommands,
) -> Result<(), AllocError>
    ensures bytes { OnOk result (string_bytes rows.new ≡ string_bytes rows.old ++ linked_row_bytes skin.entry.addresses.now skin.entry.skin.now width (own_row (map values_left left.old) (row_content row.entry) row.entry.line)) }
    ensures left { OnOk result (map values_left left.new ≡ left_by (map values_left left.old) row.entry.line) }
{
    let mut marks = Vec::new(alloc);
    match &row.line {
        FmtLine::TableRow(table) => take_cells(&mut marks, left, &table.cells)?,
        _ => return append_linked_page_row(rows, &row, width, skin, commands),
    }
    let own = PageRow {
        gutters: row.gutters,
        fresh: row.fresh,
        marks: marks.as_slice(),
        number: 0,
        head: row.head,
        line: row.line,
    };
    append_linked_page_row(rows, &own, width, skin, commands)
}

// Rows of a section with links, each with a newline; those of its tables take their marks of these columns.
#[tactic(auto, using(crate::proofs::OwnRowLemmas::row_put))]
fn append_own_rows(
    alloc: Global,
    rows: &mut String,
    page_rows: Vec<PageRow<'_>>,
    columns: &[Vec<usize>],
    width: Option<usize>,
    skin: LinkedSkin<'_>,
    commands: &mut StyleCommands,
) -> Result<(), AllocError>
    ensures { OnOk result (string_bytes rows.new ≡ string_bytes rows.old ++ linked_rows_bytes skin.entry.addresses.now skin.entry.skin.now width (with_cell_marks (map column_values columns.now) (map row_content page_rows.entry.items))) }
{
    let mut left = whole_columns(alloc, columns)?;
    for row in page_rows {
        append_own_row(alloc, rows, row, &mut left, width, skin, commands)?;
    }
    Ok(())
}

/// Puts the rows of a section, each with its links and a newline, after the rows that are there, at a width in columns, if there is one. A row of a table has the
/// links of its cells; where the table is shown as a list, it has none.
///
/// # Errors
///
/// Out of memory. What the rows then end with is open.
#[tactic(auto, using(crate::proofs::WrittenLemmas::section_written))]
pub fn append_linked_section(
    alloc: Global,
    rows: &mut String,
    section: Section<'_>,
    width: Option<usize>,
    skin: LinkedSkin<'_>,
    commands: &mut StyleCommands,
) -> Result<(), AllocError>
    ensures { OnOk result ((own : List RowContent) × IsLinkedAt (line_rules skin.entry.skin.now) (has_ascii_boxes skin.entry.skin.now) width (section_content section.entry) own × (string_bytes rows.new ≡ string_bytes rows.old ++ linked_rows_bytes skin.entry.addresses.now skin.entry.skin.now width own)) }
{
    let columns = column_marks(alloc, &section)?;
    let mut page_rows = Vec::new(alloc);
    push_section(
        alloc,
        &mut page_rows,
        section,
        width,
        has_ascii_boxes(skin.skin),
        skin.skin,
    )?;
    append_own_rows(
        alloc,
        rows,
        page_rows,
        columns.as_slice(),
        width,
        skin,
        commands,
    )
}

/// How a text with links is written.
#[derive(Clone, Copy)]
pub(crate) struct LinkedText<'a> {
    /// What its rows are drawn in.
    pub skin: LinkedSkin<'a>,
    /// What stands in its page and isn't its own.
    pub marks: PageMarks,
    /// The columns of its rows, if there is a width.
    pub width: Option<usize>,
}

// Puts the rows of a section after those that are there: a heading with the rule below it or the signs in front of it.
fn append_linked_dressed(
    alloc: Global,
    rows: &mut String,
    section: Section<'_>,
    text: LinkedText<'_>,
    commands: &mut StyleCommands,
) -> Result<(), AllocError>
    ensures { OnOk result ((own : List RowContent) × IsLinkedPageAt (line_rules text.entry.skin.skin.now) (has_ascii_boxes text.entry.skin.skin.now) text.entry.width (dressed text.entry.marks (section_content section.entry)) own × (string_bytes rows.new ≡ string_bytes rows.old ++ linked_rows_bytes text.entry.skin.addresses.now text.entry.skin.skin.now text.entry.width own)) }
{
    let dressing = dressing_of(alloc, &section, text.marks)?;
    let dressed = dress(alloc, section, &dressing)?;
    append_linked_section(
        alloc,
        rows,
        dressed.section,
        text.width,
        text.skin,
        commands,
    )?;
    match dressed.rule {
        Some(rule) => append_linked_section(alloc, rows, rule, text.width, text.skin, commands),
        None => Ok(()),
    }
}

/// The same of a section with the marks of its links, if it has any.
pub(crate) fn append_marked_section(
    alloc: Global,
    rows: &mut String,
    section: Section<'_>,
    marks: &[MarkRun],
    text: LinkedText<'_>,
    commands: &mut StyleCommands,
) -> Result<(), AllocError>
    ensures { OnOk result ((own : List RowContent) × IsLinkedPageAt (line_rules text.entry.skin.skin.now) (has_ascii_boxes text.entry.skin.skin.now) text.entry.width (dressed text.entry.marks (with_link_marks marks.now (section_content section.entry))) own × (string_bytes rows.new ≡ string_bytes rows.old ++ linked_rows_bytes text.entry.skin.addresses.now text.entry.skin.skin.now text.entry.width own)) }
{
    let marked = with_link_marks(section, marks);
    append_linked_dressed(alloc, rows, marked, text, commands)
}
