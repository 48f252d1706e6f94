//! The bytes from one screen to another.

ghost use Rattle.std.specs.Prelude.{◌≡◌, ◌<◌, ◌≤◌, ◌+◌, ◌^◌, ◌↔◌, [], None, true, IfOk, IfSome, OnOk, length, string_bytes};
ghost use Rattle.mad_frames.specs.Bound.{most_bytes};
ghost use Rattle.mad_frames.specs.Changes.{SameSize, LeadTo, AddsCells};
ghost use Rattle.mad_frames.specs.Mending.{mended_row, mended};
ghost use Rattle.mad_frames.specs.Whole.{are_whole, IsWholeGrid};

use crate::mending::mended_row;
use crate::pieces::push_cells;
use crate::runs::{change_end, change_start, same_rows};
use crate::whole::{are_whole, is_whole};
use mad_screen::{Cell, Screen};
use mad_term::push_move;
use std::alloc::{AllocError, Global};

// Appends what has changed in row `y`: each run of characters, after a move to its first column.
fn push_row(
    alloc: Global,
    out: &mut String,
    old: &[Cell],
    new: &[Cell],
    y: u16,
) -> Result<(), AllocError>
    requires same_length { length old.now ≡ length new.now }
    requires columns { length new.now < 2 ^ 16 }
    requires whole { are_whole new.now ≡ true }
    ensures leads { OnOk result (AddsCells old.now new.now y (length new.now) (string_bytes out.old) (string_bytes out.new)) }
    ensures same { OnOk result (old.now ≡ new.now → string_bytes out.new ≡ string_bytes out.old) }
    ensures bound { OnOk result (are_whole old.now ≡ true → length (string_bytes out.new) ≤ length (string_bytes out.old) + most_bytes old.now new.now) }
{
    let mut x = 0;
    while x < new.len() {
        let start = change_start(old, new, x);
        x = start;
        if start < new.len() {
            x = change_end(old, new, start, y);
            push_move(out, start as u16, y)?;
            push_cells(alloc, out, &new[start..x])?;
        }
    }
    Ok(())
}

/// The same of rows whose halves are spaces.
pub(crate) fn push_mended_row(
    alloc: Global,
    out: &mut String,
    old: &[Cell],
    new: &[Cell],
    y: u16,
) -> Result<(), AllocError>
    requires same_length { length old.now ≡ length new.now }
    requires columns { length new.now < 2 ^ 16 }
    ensures leads { OnOk result (AddsCells (mended_row old.now) (mended_row new.now) y (length new.now) (string_bytes out.old) (string_bytes out.new)) }
    ensures same { OnOk result (mended_row old.now ≡ mended_row new.now → string_bytes out.new ≡ string_bytes out.old) }
    ensures bound { OnOk result (length (string_bytes out.new) ≤ length (string_bytes out.old) + most_bytes (mended_row old.now) (mended_row new.now)) }
{
    if same_rows(old, new) {
        return Ok(());
    }
    if are_whole(old) && are_whole(new) {
        return push_row(alloc, out, old, new, y);
    }
    let old = mended_row(alloc, old)?;
    let new = mended_row(alloc, new)?;
    push_row(alloc, out, &old, &new, y)
}

/// The bytes that lead a plain terminal from the screen `old` to the screen `new`: its cells, with their pens. The terminal
/// has the plain pen before and after them, and its cursor may be anywhere.
///
/// Only what has changed is written: each run of changed characters, after a move to its first column, as a piece for each
/// part in one pen. A few unchanged characters between two changed ones are written over, where they take no more bytes than
/// the move that they spare. A character has changed if any of its cells has. Equal screens give no bytes. Where `old` is whole
/// characters too, there are 181 bytes at most for each changed character, beside its own.
///
/// `None` where the sizes differ, or where a row of `new` isn't whole characters, each with its tails in its pen. Reading can
/// leave halves of wide characters, and no terminal shows these. `old` may have halves.
///
/// # Errors
///
/// Out of memory.
pub fn changes(alloc: Global, old: &Screen, new: &Screen) -> Result<Option<String>, AllocError>
    ensures leads { IfOk result (λ o. IfSome o (λ s. LeadTo old.now new.now (string_bytes s))) }
    ensures none { IfOk result (λ o. o ≡ None ↔ ¬ (SameSize old.now new.now × IsWholeGrid new.now)) }
    ensures same { IfOk result (λ o. IfSome o (λ s. old.now.cells ≡ new.now.cells → string_bytes s ≡ [])) }
    ensures bound { IfOk result (λ o. IfSome o (λ s. IsWholeGrid old.now → length (string_bytes s) ≤ most_bytes old.now.cells new.now.cells)) }
{
    if old.width() != new.width() || old.height() != new.height() || !is_whole(new) {
        return Ok(None);
    }
    let mut out = String::new(alloc);
    for y in 0..new.height() {
        push_row(alloc, &mut out, old.row(y), new.row(y), y)?;
    }
    Ok(Some(out))
}

/// The same of screens whose halves of wide characters are spaces, as terminals show them.
pub(crate) fn mended_changes(
    alloc: Global,
    old: &Screen,
    new: &Screen,
) -> Result<String, AllocError>
    requires size { SameSize old.now new.now }
    ensures leads { IfOk result (λ s. LeadTo (mended old.now) (mended new.now) (string_bytes s)) }
    ensures same { IfOk result (λ s. (mended old.now).cells ≡ (mended new.now).cells → string_bytes s ≡ []) }
    ensures bound { IfOk result (λ s. length (string_bytes s) ≤ most_bytes (mended old.now).cells (mended new.now).cells) }
{
    let is_one_width = old.width() == new.width();
    prove!(is_one_width);
    let mut out = String::new(alloc);
    for y in 0..new.height() {
        push_mended_row(alloc, &mut out, old.row(y), new.row(y), y)?;
    }
    Ok(out)
}
