//! Rows whose halves of wide characters are spaces, as terminals show them.

ghost use Rattle.std.specs.Prelude.{◌≡◌, IfOk};
ghost use Rattle.mad_screen.specs.Glyph.{look_of};
ghost use Rattle.mad_frames.specs.Mending.{begin_tails, begins_whole, space_in, mended_row};

use crate::whole::{begins_character, is_tail_in, is_writable, tails_of};
use mad_screen::{Cell, Pen};
use std::alloc::{AllocError, Global};

// Whether the first cells are so many tails in a pen.
fn begin_tails(cells: &[Cell], tails: usize, pen: Pen) -> bool
    ensures { result ≡ begin_tails tails (look_of pen) cells.now }
{
    for i in 0..tails {
        if i >= cells.len() {
            return false;
        }
        if !is_tail_in(&cells[i], pen) {
            return false;
        }
    }
    true
}

// Whether a cell begins a whole character, with the cells after it.
fn begins_whole(cell: &Cell, after: &[Cell]) -> bool
    ensures { result ≡ begins_whole cell.now after.now }
{
    begins_character(cell) && begin_tails(after, tails_of(&cell.chars), cell.pen)
}

// A space in a pen, or in the plain one where no piece can write that pen.
fn space_in(alloc: Global, pen: Pen) -> Result<Cell, AllocError>
    ensures { IfOk result (λ cell. cell ≡ space_in (look_of pen)) }
{
    let mut chars = Vec::new(alloc);
    chars.push(' ')?;
    let pen = if is_writable(pen) {
        pen
    } else {
        Pen::default()
    };
    Ok(Cell { chars, pen })
}

fn copied(alloc: Global, cell: &Cell) -> Result<Cell, AllocError>
    ensures { IfOk result (λ copy. copy ≡ cell.now) }
{
    Ok(Cell {
        chars: Vec::from_slice(alloc, &cell.chars)?,
        pen: cell.pen,
    })
}

/// Copies of a row's cells, with a space for each that is of no whole character.
pub(crate) fn mended_row(alloc: Global, row: &[Cell]) -> Result<Vec<Cell>, AllocError>
    ensures { IfOk result (λ cells. cells.items ≡ mended_row row.now) }
{
    let mut cells = Vec::with_capacity(alloc, row.len())?;
    let mut tails = 0;
    for i in 0..row.len() {
        let cell = &row[i];
        if tails > 0 {
            tails -= 1;
            cells.push(copied(alloc, cell)?)?;
        } else if begins_whole(cell, &row[i + 1..]) {
            tails = tails_of(&cell.chars);
            cells.push(copied(alloc, cell)?)?;
        } else {
            cells.push(space_in(alloc, cell.pen)?)?;
        }
    }
    Ok(cells)
}
