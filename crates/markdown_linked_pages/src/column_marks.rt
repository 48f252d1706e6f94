//! The marks of the columns of tables.

ghost use Rattle.std.specs.Prelude.{◌≡◌, ◌+◌, ◌++◌, IfOk, OnOk, map};
ghost use Rattle.mad_marked_rows.specs.MarkedTexts.{SameFrom};
ghost use Rattle.mad_md.specs.Lines.{content_of, styled_runs};
ghost use Rattle.mad_sections.specs.Sections.{section_content};
ghost use Rattle.markdown_linked_pages.specs.CellMarks.{cells_values, column_marks, counted_said, line_past, line_values, number_past, on_top, values_at};
ghost use Rattle.markdown_linked_pages.specs.ColumnsKept.{column_values, with_cell};

use crate::linked_rows::lead;
use mad_mark_runs::{next_start, value_at};
use mad_marked_rows::MarkCursor;
use mad_marks::count_in_compound;
use mad_md::{Composite, Line};
use mad_sections::Section;
use mad_style::CompositeKind;
use std::alloc::{AllocError, Global};

/// The marks of the columns of a section's tables, each from top to bottom, where its marks are those of links.
///
/// # Errors
///
/// Out of memory is the only error.
pub(crate) fn column_marks(
    alloc: Global,
    section: &Section<'_>,
) -> Result<Vec<Vec<usize>>, AllocError>
    ensures { IfOk result (λ columns. map column_values columns.items ≡ column_marks (section_content section.now)) }
{
    let mut columns = Vec::new(alloc);
    if !lead(section.marks) {
        return Ok(columns);
    }
    let mut cursor = MarkCursor {
        runs: section.marks,
        number: 0,
    };
    for line in &section.text.lines {
        push_line(alloc, &mut columns, &mut cursor, line)?;
    }
    Ok(columns)
}

// Passes a line, and puts the marks of its cells below those of the columns.
#[tactic(auto, using(crate::proofs::ColumnLemmas::nothing_on))]
fn push_line(
    alloc: Global,
    columns: &mut Vec<Vec<usize>>,
    cursor: &mut MarkCursor<'_>,
    line: &Line,
) -> Result<(), AllocError>
    ensures columns { OnOk result (map column_values columns.new.items ≡ on_top (map column_values columns.old.items) (line_values cursor.old.runs.now cursor.old.number (content_of line.now))) }
    ensures number { OnOk result (cursor.new.number ≡ line_past cursor.old.number (content_of line.now)) }
    ensures same { OnOk result (SameFrom cursor.old.runs.now cursor.new.runs.now cursor.new.number) }
{
    match line {
        Line::TableRow(row) => push_cells(alloc, columns, cursor, &row.cells),
        Line::Normal(composite) => cursor.pass(counted_said(composite)?),
        Line::TableRule(_) | Line::HorizontalRule => Ok(()),
    }
}

// Puts the marks of the cells of a row below those of the columns.
fn push_cells(
    alloc: Global,
    columns: &mut Vec<Vec<usize>>,
    cursor: &mut MarkCursor<'_>,
    cells: &[Composite],
) -> Result<(), AllocError>
    ensures columns { OnOk result (map column_values columns.new.items ≡ on_top (map column_values columns.old.items) (cells_values cursor.old.runs.now cursor.old.number (map styled_runs cells.now))) }
    ensures number { OnOk result (cursor.new.number ≡ number_past cursor.old.number (map styled_runs cells.now)) }
    ensures same { OnOk result (SameFrom cursor.old.runs.now cursor.new.runs.now cursor.new.number) }
{
    let mut i = 0;
    while i < cells.len() {
        push_cell(alloc, columns, i, cursor, &cells[i])?;
        i += 1;
    }
    Ok(())
}

// Puts those of a cell below those of its column, which may be a new one.
fn push_cell(
    alloc: Global,
    columns: &mut Vec<Vec<usize>>,
    column: usize,
    cursor: &mut MarkCursor<'_>,
    cell: &Composite,
) -> Result<(), AllocError>
    ensures columns { OnOk result (map column_values columns.new.items ≡ with_cell column (values_at cursor.old.runs.now cursor.old.number (counted_said (styled_runs cell.now))) (map column_values columns.old.items)) }
    ensures number { OnOk result (cursor.new.number ≡ cursor.old.number + counted_said (styled_runs cell.now)) }
    ensures same { OnOk result (SameFrom cursor.old.runs.now cursor.new.runs.now cursor.new.number) }
{
    let count = counted_said(cell)?;
    if column < columns.len() {
        return push_values(&mut columns[column], cursor, count);
    }
    let mut values = Vec::new(alloc);
    push_values(&mut values, cursor, count)?;
    columns.push(values)?;
    Ok(())
}

// How many counted characters a composite says.
fn counted_said(said: &Composite) -> Result<usize, AllocError>
    ensures { IfOk result (λ count. count ≡ counted_said (styled_runs said.now)) }
{
    let kind = CompositeKind::from(said.style);
    let mut count: usize = 0;
    for compound in &said.compounds {
        count = sum(count, count_in_compound(kind, compound))?;
    }
    Ok(count)
}

fn sum(a: usize, b: usize) -> Result<usize, AllocError>
    ensures { IfOk result (λ sum. sum ≡ a + b) }
{
    match a.checked_add(b) {
        Some(sum) => Ok(sum),
        None => Err(AllocError),
    }
}

// Puts the marks of so many characters behind those that are there.
fn push_values(
    values: &mut Vec<usize>,
    cursor: &mut MarkCursor<'_>,
    count: usize,
) -> Result<(), AllocError>
    ensures values { OnOk result (values.new.items ≡ values.old.items ++ values_at cursor.old.runs.now cursor.old.number count) }
    ensures number { OnOk result (cursor.new.number ≡ cursor.old.number + count) }
    ensures same { OnOk result (SameFrom cursor.old.runs.now cursor.new.runs.now cursor.new.number) }
{
    let mut left = count;
    while left > 0 {
        values.push(value_at(cursor.runs, cursor.number))?;
        step(cursor)?;
        left -= 1;
    }
    Ok(())
}

// Passes a character.
fn step(cursor: &mut MarkCursor<'_>) -> Result<(), AllocError>
    ensures number { OnOk result (cursor.new.number ≡ cursor.old.number + 1) }
    ensures same { OnOk result (SameFrom cursor.old.runs.now cursor.new.runs.now cursor.new.number) }
{
    let number = sum(cursor.number, 1)?;
    cursor.runs = next_start(cursor.runs, cursor.number);
    cursor.number = number;
    Ok(())
}
