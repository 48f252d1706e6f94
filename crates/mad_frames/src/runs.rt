//! Where a row has changed.

ghost use Rattle.std.specs.Prelude.{◌≡◌, ◌<◌, ◌≤◌, ◌↔◌, ◌^◌, ◌-◌, ℕ, true, false, IfSome, IsTrue, length, slice_index_or};
ghost use Rattle.mad_screen.specs.Grid.{blank, is_tail};
ghost use Rattle.mad_screen.specs.Pictures.{cell_text};
ghost use Rattle.mad_frames.specs.Bound.{is_same_cell, longest_move};
ghost use Rattle.mad_frames.specs.RunBytes.{BeginsChange, EndsGap, IsPaid, pen_bytes};
ghost use Rattle.mad_frames.specs.Whole.{are_whole};

use crate::whole::same_pen;
use mad_screen::{Cell, Pen};

// Whether two cells show the same, in the same pen.
fn same_cell(a: &Cell, b: &Cell) -> bool
    ensures value { result ≡ is_same_cell a.now b.now }
    ensures equal { IsTrue result ↔ a.now ≡ b.now }
{
    a.chars.as_slice() == b.chars.as_slice() && same_pen(a.pen, b.pen)
}

// The end of the character in column `x`: the first column after it that is no tail, or the row's end.
fn character_end(row: &[Cell], x: usize) -> usize
    requires { x < length row.now }
    ensures after { x < result }
    ensures within { result ≤ length row.now }
    ensures head { result < length row.now → is_tail (slice_index_or row.now result blank) ≡ false }
    ensures tails { (i : ℕ) → x < i → i < result → is_tail (slice_index_or row.now i blank) ≡ true }
{
    for end in x + 1..row.len() {
        if !row[end].is_tail() {
            return end;
        }
    }
    row.len()
}

// Whether the cells from column `x` up to `end` are the same in both rows.
fn same_cells(old: &[Cell], new: &[Cell], x: usize, end: usize) -> bool
    requires old_end { end ≤ length old.now }
    requires new_end { end ≤ length new.now }
    ensures { IsTrue result ↔ ((i : ℕ) → x ≤ i → i < end → slice_index_or old.now i blank ≡ slice_index_or new.now i blank) }
{
    for i in x..end {
        if !same_cell(&old[i], &new[i]) {
            return false;
        }
    }
    true
}

/// Whether two rows are the same.
pub(crate) fn same_rows(old: &[Cell], new: &[Cell]) -> bool
    requires { length old.now ≡ length new.now }
    ensures { IsTrue result → old.now ≡ new.now }
{
    same_cells(old, new, 0, new.len())
}

/// The first column from `x` on at which a changed character begins, or the row's end.
pub(crate) fn change_start(old: &[Cell], new: &[Cell], x: usize) -> usize
    requires same_length { length old.now ≡ length new.now }
    requires within { x ≤ length new.now }
    requires head { x < length new.now → is_tail (slice_index_or new.now x blank) ≡ false }
    ensures after { x ≤ result }
    ensures within { result ≤ length new.now }
    ensures head { result < length new.now → is_tail (slice_index_or new.now result blank) ≡ false }
    ensures same { (i : ℕ) → x ≤ i → i < result → slice_index_or old.now i blank ≡ slice_index_or new.now i blank }
    ensures none { old.now ≡ new.now → result ≡ length new.now }
    ensures changed { result < length new.now → BeginsChange old.now new.now result }
{
    let mut start = x;
    while start < new.len() {
        let end = character_end(new, start);
        if !same_cells(old, new, start, end) {
            return start;
        }
        start = end;
    }
    start
}

// How many digits a row or a column has.
fn digits(n: usize) -> usize
    ensures { result ≤ 5 }
{
    match n {
        0..=9 => 1,
        10..=99 => 2,
        100..=999 => 3,
        1000..=9999 => 4,
        _ => 5,
    }
}

// The bytes of the move to column `x` of row `y`, both counted from zero.
fn move_bytes(x: usize, y: u16) -> usize
    ensures { result ≤ longest_move }
{
    4 + digits(usize::from(y) + 1) + digits(x.saturating_add(1))
}

// The bytes of a cell's characters.
fn text_bytes(cell: &Cell) -> usize
    ensures { result < 2 ^ 64 - 1 → result ≡ length (cell_text cell.now) }
{
    let mut bytes = 0usize;
    for c in &cell.chars {
        bytes = bytes.saturating_add(c.len_utf8());
    }
    bytes
}

// Whether a cell takes no more than its characters after another. Its pen is that of the cell before, or the plain one, which is
// back after each piece.
fn is_free(before: &Cell, cell: &Cell) -> bool
    ensures { IsTrue result → pen_bytes before.now.pen cell.now.pen ≡ 0 }
{
    same_pen(cell.pen, before.pen) || same_pen(cell.pen, Pen::default())
}

// The column of the next changed character, if the unchanged ones before it take no more bytes than a move to it.
fn next_in_run(old: &[Cell], new: &[Cell], end: usize, y: u16) -> Option<usize>
    requires same_length { length old.now ≡ length new.now }
    requires some { 0 < end }
    requires within { end ≤ length new.now }
    requires head { end < length new.now → is_tail (slice_index_or new.now end blank) ≡ false }
    ensures { IfSome result (λ x. EndsGap old.now new.now end x) }
{
    let next = change_start(old, new, end);
    if next == new.len() {
        return None;
    }
    let mut spent = 0usize;
    for i in end..next {
        if !is_free(&new[i - 1], &new[i]) {
            return None;
        }
        spent = spent.saturating_add(text_bytes(&new[i]));
    }
    (spent <= move_bytes(next, y)).then_some(next)
}

/// The column where the run of characters to write that begins at `start` ends: that of the first unchanged one, or the row's
/// end. A few unchanged ones before a changed one are in the run, where that is no longer than a move.
pub(crate) fn change_end(old: &[Cell], new: &[Cell], start: usize, y: u16) -> usize
    requires same_length { length old.now ≡ length new.now }
    requires within { start < length new.now }
    requires head { is_tail (slice_index_or new.now start blank) ≡ false }
    requires changed { BeginsChange old.now new.now start }
    ensures after { start < result }
    ensures within { result ≤ length new.now }
    ensures head { result < length new.now → is_tail (slice_index_or new.now result blank) ≡ false }
    ensures paid { are_whole old.now ≡ true → are_whole new.now ≡ true → IsPaid old.now new.now start result }
{
    let mut end = character_end(new, start);
    while let Some(next) = next_in_run(old, new, end, y) {
        end = character_end(new, next);
    }
    end
}
