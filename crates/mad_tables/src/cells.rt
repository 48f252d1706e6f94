//! Cutting a text into cells, and cells into rows.

ghost use Rattle.std.specs.Prelude.{◌≡◌, ◌<◌, ℕ, List, map, length, IfOk, MatchOption};
ghost use Rattle.mad_tables.specs.Cells.{AreRows, IsCut, cells_cut};

use std::alloc::{AllocError, Global};

/// The cells of a text, one after the other, where each has so many bytes. None, where a cell would begin inside a character, or past the text's
/// end, or where the text has more bytes than all cells.
///
/// The cells are slices of the text. The only error is out of memory.
pub fn cut_cells<'s>(
    alloc: Global,
    text: &'s str,
    lengths: &[usize],
) -> Result<Option<Vec<&'s str>>, AllocError>
    ensures { IfOk result (λ cut. MatchOption cut (¬ (IsCut text.entry.now lengths.now))
        (λ cells. IsCut text.entry.now lengths.now × (map (λ cell. cell.now) cells.items ≡ cells_cut text.entry.now lengths.now))) }
{
    let mut cells = Vec::with_capacity(alloc, lengths.len())?;
    let mut rest = text;
    for length in lengths {
        let Some((cell, after)) = rest.split_at_checked(*length) else {
            return Ok(None);
        };
        cells.push(cell)?;
        rest = after;
    }
    if rest.is_empty() {
        Ok(Some(cells))
    } else {
        Ok(None)
    }
}

/// The cells as rows of so many columns; those at the end that fill no row are left out. The only error is out of memory.
pub fn rows_of<'s>(
    alloc: Global,
    cells: &[&'s str],
    columns: usize,
) -> Result<Vec<Vec<&'s str>>, AllocError>
    requires { 0 < columns }
    ensures { IfOk result (λ rows. AreRows columns (map (λ cell. cell.now) cells.now) (map (λ row. map (λ cell. cell.now) row.items) rows.items)) }
{
    let mut rows = Vec::new(alloc);
    for row in cells.chunks_exact(columns) {
        rows.push(row.to_vec(alloc)?)?;
    }
    Ok(rows)
}
