//! Rows of a table, laid out in columns.

ghost use Rattle.std.specs.Prelude.{◌≡◌, max, IfOk, OnOk};
ghost use Rattle.std.specs.List.{AllByRecursion};
ghost use Rattle.std.specs.Vec.Iter.{into_iter_items};
ghost use Rattle.mad_format.specs.CompositeWraps.{IsCompositeWrap};
ghost use Rattle.mad_blocks.specs.Tables.{columns_with, below, IsTop, IsCellLaidOut, IsNextLaidOut, IsRowLaidOutBy, tallest};
ghost use Rattle.mad_blocks.specs.TableRows.{TakesRow, AreCellsLeft, cell_lines_left};
ghost use Rattle.mad_format.specs.Wraps.{IsMeasured};

use crate::table_columns::columns_with;
use mad_format::{FmtComposite, FmtTableRow, LineSkin, wrap_composite};
use mad_md::Alignment;
use mad_measure::Spacing;
use std::alloc::{AllocError, Global};
use std::vec::IntoIter;

/// The rows that a row of a table becomes at these widths of the kept columns, with these alignments; a column past the
/// last alignment is `Unspecified`. Each cell's cached length has to be right.
///
/// Each kept cell that is wider than its column is wrapped in it; there are as many rows as the tallest has lines, and at
/// least one, filled up with empty paragraphs. Only out of memory is an error. The time is linear in the text and in the
/// rows' cells; no character is copied.
pub fn lay_row<'s, S: LineSkin>(
    alloc: Global,
    row: FmtTableRow<'s>,
    widths: &[usize],
    aligns: &[Alignment],
    skin: &S,
) -> Result<Vec<FmtTableRow<'s>>, AllocError>
    requires { AllByRecursion (IsMeasured (S.rules skin.now)) row.cells.items }
    ensures { IfOk result (λ rows. IsRowLaidOutBy IsCompositeWrap (S.rules skin.now) (columns_with widths.now aligns.now) row.entry.cells.items rows.items) }
{
    let columns = columns_with(alloc, widths, aligns)?;
    lay_row_in(alloc, row, &columns, skin)
}

/// The rows that a row of a table becomes in these columns.
pub(crate) fn lay_row_in<'s, S: LineSkin>(
    alloc: Global,
    row: FmtTableRow<'s>,
    columns: &[Spacing],
    skin: &S,
) -> Result<Vec<FmtTableRow<'s>>, AllocError>
    requires { AllByRecursion (IsMeasured (S.rules skin.now)) row.cells.items }
    ensures { IfOk result (λ rows. IsRowLaidOutBy IsCompositeWrap (S.rules skin.now) columns.now row.entry.cells.items rows.items) }
{
    let (mut cells, height) = lay_cells(alloc, row.cells, columns, skin)?;
    let mut rows = Vec::with_capacity(alloc, height)?;
    for _done in 0..height {
        rows.push(take_row(alloc, &mut cells)?)?;
    }
    Ok(rows)
}

// The lines of a kept cell that aren't on a row yet, and its column.
#[derive(Drop)]
struct CellLines<'s> {
    lines: IntoIter<FmtComposite<'s>>,
    column: Spacing,
}

// The lines of the cells in these columns, and the count of those of the tallest, at least one.
fn lay_cells<'s, S: LineSkin>(
    alloc: Global,
    cells: Vec<FmtComposite<'s>>,
    columns: &[Spacing],
    skin: &S,
) -> Result<(Vec<CellLines<'s>>, usize), AllocError>
    requires { AllByRecursion (IsMeasured (S.rules skin.now)) cells.items }
    ensures laid_out { IfOk result (λ laid. AreCellsLeft (S.rules skin.now) columns.now cells.entry.items laid.0.items) }
    ensures height { IfOk result (λ laid. laid.1 ≡ max (tallest (cell_lines_left laid.0.items)) 1) }
{
    let mut parts = Vec::with_capacity(alloc, columns.len())?;
    let mut height: usize = 1;
    let mut rest = cells.into_iter();
    for column in columns {
        let lines = next_lines(alloc, &mut rest, column.width, skin)?;
        height = lines.len().max(height);
        parts.push(CellLines {
            lines: lines.into_iter(),
            column: *column,
        })?;
    }
    Ok((parts, height))
}

// The lines of the next cell in a column of this width; none of a missing cell.
fn next_lines<'s, S: LineSkin>(
    alloc: Global,
    cells: &mut IntoIter<FmtComposite<'s>>,
    width: usize,
    skin: &S,
) -> Result<Vec<FmtComposite<'s>>, AllocError>
    requires { AllByRecursion (IsMeasured (S.rules skin.now)) (into_iter_items cells.old) }
    ensures lines { IfOk result (λ lines. IsNextLaidOut IsCompositeWrap (S.rules skin.now) width (into_iter_items cells.old) lines.items) }
    ensures rest { OnOk result (into_iter_items cells.new ≡ below (into_iter_items cells.old)) }
{
    match cells.next() {
        Some(cell) => lay_cell(alloc, cell, width, skin),
        None => Ok(Vec::new(alloc)),
    }
}

// The lines of a cell in a column of this width.
fn lay_cell<'s, S: LineSkin>(
    alloc: Global,
    cell: FmtComposite<'s>,
    width: usize,
    skin: &S,
) -> Result<Vec<FmtComposite<'s>>, AllocError>
    requires { IsMeasured (S.rules skin.now) cell }
    ensures { IfOk result (λ lines. IsCellLaidOut IsCompositeWrap (S.rules skin.now) width cell.entry lines.items) }
{
    if width < cell.visible_length {
        return wrap_composite(alloc, &cell, width, skin);
    }
    Ok(vec![in alloc; cell]?)
}

// The next row, of the next line of each cell, which is taken off it.
fn take_row<'s>(alloc: Global, cells: &mut [CellLines<'s>]) -> Result<FmtTableRow<'s>, AllocError>
    ensures { IfOk result (λ row. TakesRow cells.old row.cells.items cells.new) }
{
    let mut row = Vec::with_capacity(alloc, cells.len())?;
    for cell in cells {
        row.push(next_cell(alloc, &mut cell.lines, cell.column))?;
    }
    Ok(FmtTableRow { cells: row })
}

// The next line at its place in a column, or an empty paragraph where there is none.
fn next_cell<'s>(
    alloc: Global,
    lines: &mut IntoIter<FmtComposite<'s>>,
    column: Spacing,
) -> FmtComposite<'s>
    ensures top { IsTop column (into_iter_items lines.old) result }
    ensures rest { into_iter_items lines.new ≡ below (into_iter_items lines.old) }
{
    match lines.next() {
        Some(line) => line.in_place(column),
        None => FmtComposite::new(alloc).in_place(column),
    }
}
