//! Cells written as pieces of styled text.

ghost use Rattle.std.specs.Prelude.{◌≡◌, ◌<◌, ◌≤◌, ◌+◌, ◌||◌, ◌⊎◌, ℕ, List, true, false, IfOk, OnOk, length, string_bytes, slice_index_or};
ghost use Rattle.mad_term.specs.Styles.{IsStyle, piece_bytes};
ghost use Rattle.mad_screen.specs.Glyph.{look_of};
ghost use Rattle.mad_screen.specs.Grid.{blank, is_tail};
ghost use Rattle.mad_screen.specs.Painting.{look_of_style};
ghost use Rattle.mad_screen.specs.Pictures.{same_look, row_text};
ghost use Rattle.mad_frames.specs.RunBytes.{style_bytes, pieces_to};
ghost use Rattle.mad_frames.specs.Changes.{AddsPaint};
ghost use Rattle.mad_frames.specs.Whole.{is_writable, are_whole};

use crate::whole::same_pen;
use mad_screen::{Cell, Pen};
use mad_term::{ContentStyle, push_styled};
use std::alloc::{AllocError, Global};

// The style that writes with a pen.
fn style_of(pen: Pen) -> ContentStyle
    ensures look { is_writable (look_of pen) ≡ true → look_of_style result ≡ look_of pen }

    // `IsStyle` is what `push_styled` promises of it.
    ensures bound { is_writable (look_of pen) ≡ true → IsStyle result → (text : List ℕ) → length (piece_bytes result text) ≤ style_bytes (look_of pen) + length text }
{
    ContentStyle {
        foreground_color: pen.fg,
        background_color: pen.bg,
        underline_color: pen.underline,
        attributes: pen.codes,
    }
}

// The characters of cells, one after another.
fn text_of(alloc: Global, cells: &[Cell]) -> Result<String, AllocError>
    ensures { IfOk result (λ text. string_bytes text ≡ row_text cells.now) }
{
    let mut text = String::new(alloc);
    for cell in cells {
        write!(text, "{cell}")?;
    }
    Ok(text)
}

// Whether a cell can be in a piece in the pen: a tail, which is in that of its character, or a cell in this pen.
fn continues(cell: &Cell, pen: Pen) -> bool
    ensures { result ≡ (is_tail cell.now || same_look cell.now.pen (look_of pen)) }
{
    cell.is_tail() || same_pen(cell.pen, pen)
}

// How many of the cells are characters in the pen of the first one.
fn piece_length(cells: &[Cell]) -> usize
    requires { 0 < length cells.now }
    ensures some { 0 < result }
    ensures within { result ≤ length cells.now }
    ensures head { result < length cells.now → is_tail (slice_index_or cells.now result blank) ≡ false }
    ensures other { result < length cells.now → same_look (slice_index_or cells.now result blank).pen (slice_index_or cells.now 0 blank).pen ≡ false }
    ensures pen { (i : ℕ) → i < result → (is_tail (slice_index_or cells.now i blank) ≡ true) ⊎ ((slice_index_or cells.now i blank).pen ≡ (slice_index_or cells.now 0 blank).pen) }
{
    let first = &cells[0];
    let pen = first.pen;
    for end in 1..cells.len() {
        if !continues(&cells[end], pen) {
            return end;
        }
    }
    cells.len()
}

/// Appends cells that are whole characters: a piece for each part of them in one pen.
pub(crate) fn push_cells(alloc: Global, out: &mut String, cells: &[Cell]) -> Result<(), AllocError>
    requires { are_whole cells.now ≡ true }
    ensures paints { OnOk result (AddsPaint (string_bytes out.old) cells.now (string_bytes out.new)) }
    ensures bound { OnOk result (length (string_bytes out.new) ≤ length (string_bytes out.old) + pieces_to cells.now (length cells.now)) }
{
    let mut from = 0;
    while from < cells.len() {
        let rest = &cells[from..];
        let length = piece_length(rest);
        let first = &rest[0];
        let text = text_of(alloc, &rest[..length])?;
        push_styled(out, style_of(first.pen), text.as_str())?;
        from += length;
    }
    Ok(())
}
