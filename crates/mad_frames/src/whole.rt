//! Screens of whole characters: each with its tails, in a pen that one piece can write.

ghost use Rattle.std.specs.Prelude.{◌≡◌, ◌↔◌, ◌&&◌, IsTrue};
ghost use Rattle.mad_screen.specs.Grid.{is_tail};
ghost use Rattle.mad_screen.specs.Glyph.{look_of};
ghost use Rattle.mad_screen.specs.Pictures.{same_look};
ghost use Rattle.mad_frames.specs.Whole.{is_kept, is_writable, are_joined, is_cell_text, tails_of, are_whole, IsWholeGrid};

use mad_characters::char_columns;
use mad_screen::{Cell, Pen, Screen};
use mad_term::{Attribute, Color};
use unicode_width::UnicodeWidthChar;

// Whether a pen that was read can have the color.
fn is_kept(color: Option<Color>) -> bool
    ensures { result ≡ is_kept color }
{
    match color {
        None => true,
        Some(Color::Rgb { r: _, g: _, b: _ }) => true,
        Some(Color::AnsiValue(_)) => true,
        Some(_) => false,
    }
}

/// Whether one piece can write the pen.
pub(crate) fn is_writable(pen: Pen) -> bool
    ensures { result ≡ is_writable (look_of pen) }
{
    is_kept(pen.fg) && is_kept(pen.bg) && is_kept(pen.underline) && !pen.codes.has(Attribute::Reset)
}

/// Whether two pens look the same.
pub(crate) fn same_pen(a: Pen, b: Pen) -> bool
    ensures { result ≡ same_look (look_of a) (look_of b) }
{
    a == b
}

// Whether all of these are joined to a character before them.
fn are_joined(chars: &[char]) -> bool
    ensures { result ≡ are_joined chars.now }
{
    chars.iter().all(|c| c.width() == Some(0))
}

// Whether these are a character that takes columns, and widthless ones joined to it.
fn is_cell_text(chars: &[char]) -> bool
    ensures { result ≡ is_cell_text chars.now }
{
    match chars {
        [] => false,
        [first, joined @ ..] => char_columns(*first) > 0 && are_joined(joined),
    }
}

/// The further columns of a cell's first character.
pub(crate) fn tails_of(chars: &[char]) -> usize
    ensures { result ≡ tails_of chars.now }
{
    match chars {
        [] => 0,
        [first, ..] => char_columns(*first).saturating_sub(1),
    }
}

/// Whether a cell begins a character that can be written.
pub(crate) fn begins_character(cell: &Cell) -> bool
    ensures { result ≡ (is_cell_text cell.now.chars && is_writable cell.now.pen) }
{
    is_cell_text(&cell.chars) && is_writable(cell.pen)
}

/// Whether a cell is a tail in a pen.
pub(crate) fn is_tail_in(cell: &Cell, pen: Pen) -> bool
    ensures { result ≡ (is_tail cell.now && same_look cell.now.pen (look_of pen)) }
{
    cell.is_tail() && same_pen(cell.pen, pen)
}

/// Whether cells are whole characters.
pub(crate) fn are_whole(cells: &[Cell]) -> bool
    ensures { result ≡ are_whole cells.now }
{
    let mut tails = 0;
    let mut pen = Pen::default();
    for cell in cells {
        if tails > 0 {
            if !is_tail_in(cell, pen) {
                return false;
            }
            tails -= 1;
            continue;
        }
        if !begins_character(cell) {
            return false;
        }
        tails = tails_of(&cell.chars);
        pen = cell.pen;
    }
    tails == 0
}

/// Whether each row of a screen is whole characters.
pub(crate) fn is_whole(screen: &Screen) -> bool
    ensures { IsTrue result ↔ IsWholeGrid screen.now }
{
    for y in 0..screen.height() {
        if !are_whole(screen.row(y)) {
            return false;
        }
    }
    true
}
