//! The marks that the rows of a table take of its columns.

ghost use Rattle.std.specs.Prelude.{◌≡◌, ◌++◌, drop, IfOk, OnOk, length, map, slice_index};
ghost use Rattle.markdown_linked_pages.specs.CellMarks.{columns_below, first_values, row_values, single_runs};
ghost use Rattle.markdown_linked_pages.specs.ColumnsKept.{column_values, values_left};

use mad_format::FmtComposite;
use mad_mark_runs::MarkRun;
use mad_marks::count_in;
use std::alloc::{AllocError, Global};

/// The columns, of which nothing is taken.
///
/// # Errors
///
/// Out of memory is the only error.
pub(crate) fn whole_columns<'c>(
    alloc: Global,
    columns: &'c [Vec<usize>],
) -> Result<Vec<&'c [usize]>, AllocError>
    ensures { IfOk result (λ left. map values_left left.items ≡ map column_values columns.entry.now) }
{
    let mut left = Vec::with_capacity(alloc, columns.len())?;
    for column in columns {
        left.push(column.as_slice())?;
    }
    Ok(left)
}

/// Puts the marks that the cells of a row take of columns behind the marks that are there: of each column as many as its cell counts.
///
/// # Errors
///
/// Out of memory. The columns are of no use then.
pub(crate) fn take_cells(
    marks: &mut Vec<MarkRun>,
    left: &mut [&[usize]],
    cells: &[FmtComposite],
) -> Result<(), AllocError>
    ensures marks { OnOk result (marks.new.items ≡ marks.old.items ++ single_runs (length marks.old.items) (row_values (map values_left left.old) cells.now)) }
    ensures left { OnOk result (map values_left left.new ≡ columns_below (map values_left left.old) cells.now) }
{
    let mut i = 0;
    while i < cells.len() && i < left.len() {
        left[i] = take_values(marks, left[i], count_in(&cells[i])?)?;
        i += 1;
    }
    Ok(())
}

// Puts so many of these marks behind those that are there, and answers the others. Past the last one a character has none.
fn take_values<'c>(
    marks: &mut Vec<MarkRun>,
    values: &'c [usize],
    count: usize,
) -> Result<&'c [usize], AllocError>
    ensures marks { OnOk result (marks.new.items ≡ marks.old.items ++ single_runs (length marks.old.items) (first_values count values.entry.now)) }
    ensures left { IfOk result (λ left. left.now ≡ drop count values.entry.now) }
{
    let mut left = values;
    let mut wanted = count;
    while wanted > 0 {
        let value = first(left);
        let end = marks.len() + 1;
        marks.push(MarkRun { value, end })?;
        left = tail(left);
        wanted -= 1;
    }
    Ok(left)
}

// The first of marks; none, where there is none.
fn first(values: &[usize]) -> usize
    ensures { result ≡ slice_index values.now 0 }
{
    if values.is_empty() { 0 } else { values[0] }
}

// Those behind it.
fn tail(values: &[usize]) -> &[usize]
    ensures { result.now ≡ drop 1 values.now }
{
    if values.is_empty() {
        values
    } else {
        &values[1..]
    }
}
