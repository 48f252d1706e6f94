//! A table of data: each cell is a text as it is.

ghost use Rattle.std.specs.Prelude.{◌≡◌, List, map, IfOk, MatchOption};
ghost use Rattle.mad_md.specs.Lines.{contents};
ghost use Rattle.mad_tables.specs.DataTables.{AreCells, AreNoCells, AreTableLines, table_under};

use crate::cells::{cut_cells, rows_of};
use mad_md::{Alignment, Text};
use std::alloc::{AllocError, Global};

/// The table of cells that are one text and the length of each in bytes, row by row.
///
/// Each row has so many columns, and the first one has the headers. No mark is read in a cell. None, where there is no column, where the cells fill
/// no whole rows, where they aren't all of the text, or where one ends inside a character.
///
/// # Errors
///
/// Out of memory is the only error.
pub fn table_of_cells<'s>(
    alloc: Global,
    text: &'s str,
    lengths: &[usize],
    columns: usize,
    aligns: &[Alignment],
) -> Result<Option<Text<'s>>, AllocError>
    ensures { IfOk result (λ made. MatchOption made (AreNoCells text.entry.now lengths.now columns)
        (λ table. AreTableLines text.entry.now lengths.now columns aligns.now (contents table))) }
{
    let Some(rows) = cell_rows(alloc, text, lengths, columns)? else {
        return Ok(None);
    };
    Ok(Some(under_headers(alloc, &rows, aligns)?))
}

// The cells as rows of so many columns, each full.
#[tactic(auto, using(crate::proofs::CellLemmas::no_cells, crate::proofs::CellLemmas::none_cut, crate::proofs::CellLemmas::full_rows))]
fn cell_rows<'s>(
    alloc: Global,
    text: &'s str,
    lengths: &[usize],
    columns: usize,
) -> Result<Option<Vec<Vec<&'s str>>>, AllocError>
    ensures { IfOk result (λ made. MatchOption made (AreNoCells text.entry.now lengths.now columns)
        (λ rows. AreCells text.entry.now lengths.now columns (map (λ row. map (λ cell. cell.now) row.items) rows.items))) }
{
    if columns == 0 || !lengths.len().is_multiple_of(columns) {
        return Ok(None);
    }
    match cut_cells(alloc, text, lengths)? {
        Some(cells) => Ok(Some(rows_of(alloc, &cells, columns)?)),
        None => Ok(None),
    }
}

// The table of these rows, the first having its headers, if there is one.
fn under_headers<'s>(
    alloc: Global,
    rows: &[Vec<&'s str>],
    aligns: &[Alignment],
) -> Result<Text<'s>, AllocError>
    ensures { IfOk result (λ text. contents text ≡ table_under (map (λ row. map (λ cell. cell.now) row.items) rows.now) aligns.now) }
{
    if let [headers, rows @ ..] = rows {
        return Text::from_table(alloc, headers, aligns, rows);
    }
    let headers = Vec::new(alloc);
    Text::from_table(alloc, &headers, aligns, rows)
}
