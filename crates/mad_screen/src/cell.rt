//! The cells of a screen.

ghost use Rattle.std.specs.Prelude.{◌≡◌, ◌<◌, ◌≤◌, ◌+◌, ◌-◌, [], ◌∷◌, IfOk, IfSome, OnOk, length, vec_len, replicate};
ghost use Rattle.mad_screen.specs.Glyph.{look_of};
ghost use Rattle.mad_screen.specs.Grid.{put_list, is_tail, glyphs};
ghost use Rattle.mad_screen.specs.Terminal.{head_before, joined_glyph, space_of};

use crate::pen::Pen;
use std::alloc::{AllocError, Global};
use std::marker::Model;

/// What one cell of a screen shows. A further column of a wide character is a tail, which has no characters.
#[derive(Debug, Drop)]
pub struct Cell {
    /// The character and the widthless ones joined to it, in the order in which they came.
    pub chars: Vec<char>,
    /// The pen that it was written with.
    pub pen: Pen,
}

impl Model for Cell {
    ghost use Rattle.mad_screen.specs.Glyph.{Glyph, look_of};

    ghost Value = { Glyph };

    ghost view = { λ c. record { chars = c.chars.items; pen = look_of c.pen } };
}

impl Cell {
    /// One character in a pen.
    pub(crate) fn of(alloc: Global, c: char, pen: Pen) -> Result<Self, AllocError>
        ensures { IfOk result (λ cell. cell ≡ record { chars = c ∷ []; pen = look_of pen }) }
    {
        let mut chars = Vec::new(alloc);
        chars.push(c)?;
        Ok(Cell { chars, pen })
    }

    /// Whether it is a further column of a wide character.
    pub fn is_tail(&self) -> bool
        ensures { result ≡ is_tail self.now }
    {
        self.chars.is_empty()
    }

    fn copy(&self, alloc: Global) -> Result<Self, AllocError>
        ensures { IfOk result (λ cell. cell ≡ self.now) }
    {
        Ok(Cell {
            chars: Vec::from_slice(alloc, &self.chars)?,
            pen: self.pen,
        })
    }

    // Shows what another one shows, on the memory that it has.
    fn set_to(&mut self, other: &Cell) -> Result<(), AllocError>
        ensures { OnOk result (self.new ≡ other.now) }
    {
        self.chars.clear();
        self.chars.extend_from_slice(&other.chars)?;
        self.pen = other.pen;
        Ok(())
    }

    fn set(&mut self, c: char, pen: Pen) -> Result<(), AllocError>
        ensures { OnOk result (self.new ≡ record { chars = c ∷ []; pen = look_of pen }) }
    {
        self.chars.clear();
        self.chars.push(c)?;
        self.pen = pen;
        Ok(())
    }

    fn set_tail(&mut self, pen: Pen)
        ensures { self.new ≡ record { chars = []; pen = look_of pen } }
    {
        self.chars.clear();
        self.pen = pen;
    }

    /// Joins a widthless character to those that it shows.
    pub(crate) fn join(&mut self, c: char) -> Result<(), AllocError>
        ensures { OnOk result (self.new ≡ joined_glyph self.old c) }
    {
        self.chars.push(c)?;
        Ok(())
    }
}

/// Writes a character over `tails + 1` cells, as itself and `tails` tails.
pub(crate) fn lay(
    cells: &mut Vec<Cell>,
    at: usize,
    c: char,
    tails: usize,
    pen: Pen,
) -> Result<(), AllocError>
    requires { at + tails < vec_len cells.old }
    ensures laid { OnOk result (cells.new.items ≡ put_list cells.old.items at (glyphs (c ∷ []) tails (look_of pen))) }
    ensures same { length cells.new.items ≡ length cells.old.items }
{
    cells[at].set(c, pen)?;
    for i in 0..tails {
        cells[at + 1 + i].set_tail(pen);
    }
    Ok(())
}

/// Puts spaces with the pen's background into the cells from index `from` up to `to`, as far as there are cells.
pub(crate) fn erase(
    cells: &mut Vec<Cell>,
    from: usize,
    to: usize,
    pen: Pen,
) -> Result<(), AllocError>
    ensures erased { OnOk result (cells.new.items ≡ put_list cells.old.items from (replicate (to - from) (space_of (look_of pen)))) }
    ensures same { length cells.new.items ≡ length cells.old.items }
{
    let space = Pen {
        bg: pen.bg,
        ..Pen::default()
    };
    let end = to.min(cells.len());
    for at in from..end {
        cells[at].set(' ', space)?;
    }
    Ok(())
}

/// The index of the first cell left of column `x` that is no tail, in the row that begins at `start`.
pub(crate) fn find_head(cells: &[Cell], start: usize, x: usize) -> Option<usize>
    requires { start + x ≤ length cells.now }
    ensures found { result ≡ head_before cells.now start x }
    ensures within { IfSome result (λ at. at < start + x) }
{
    let mut left = x;
    while left > 0 {
        left -= 1;
        if !cells[start + left].is_tail() {
            return Some(start + left);
        }
    }
    None
}

/// Copies of the cells, on memory of their own.
pub(crate) fn copy_all(alloc: Global, cells: &[Cell]) -> Result<Vec<Cell>, AllocError>
    ensures { IfOk result (λ copies. copies.items ≡ cells.now) }
{
    let mut copies = Vec::with_capacity(alloc, cells.len())?;
    for cell in cells {
        copies.push(cell.copy(alloc)?)?;
    }
    Ok(copies)
}

/// Makes cells show what others show: on their memory where they are as many, else on memory of their own.
pub(crate) fn set_all(
    alloc: Global,
    cells: &mut Vec<Cell>,
    others: &[Cell],
) -> Result<(), AllocError>
    ensures { OnOk result (cells.new.items ≡ others.now) }
{
    if cells.len() != others.len() {
        *cells = copy_all(alloc, others)?;
        return Ok(());
    }
    for i in 0..others.len() {
        cells[i].set_to(&others[i])?;
    }
    Ok(())
}
