//! The bytes from one screen to another on a terminal that scrolls.

ghost use Rattle.std.specs.Prelude.{◌≡◌, ◌<◌, ◌≤◌, ◌++◌, ℕ, List, Some, IfOk, IfSome, IsTrue, string_bytes};
ghost use Rattle.mad_term.specs.Commands.{move_to_bytes};
ghost use Rattle.mad_screen.specs.Grid.{empty_grid, plain_pen, IsGrid};
ghost use Rattle.mad_screen.specs.Terminal.{after_bytes};
ghost use Rattle.mad_frames.specs.Changes.{SameSize, LeadTo};
ghost use Rattle.mad_frames.specs.Mending.{mended};
ghost use Rattle.mad_frames.specs.Scrolling.{count_of, gone, row_or_blank, BringTo};
ghost use Rattle.mad_frames.specs.Whole.{IsWholeGrid};

use crate::matching::best_scroll;
use crate::scrolling::{Scroll, push_scroll, row_from};
use crate::whole::{is_whole, same_pen};
use crate::writing::{mended_changes, push_mended_row};
use mad_screen::{Cell, Pen, Screen};
use std::alloc::{AllocError, Global};

// A row of a screen, or a blank one.
fn row_or_blank<'s>(screen: &'s Screen, blank: &'s Screen, from: Option<u16>) -> &'s [Cell]
    requires row { IfSome from (λ y. y < screen.now.height) }
    requires blank { blank.now ≡ empty_grid screen.now.width 1 }
    ensures { result.now ≡ row_or_blank screen.now from }
{
    match from {
        Some(y) => screen.row(y),
        None => blank.row(0),
    }
}

// The bytes from a screen whose first rows have gone to another one.
fn changes_behind(
    alloc: Global,
    old: &Screen,
    new: &Screen,
    scroll: Scroll,
    rows: u16,
) -> Result<String, AllocError>
    requires size { SameSize old.now new.now }
    requires rows { rows ≤ old.now.height }
    requires fewer { count_of scroll < rows }
    ensures { IfOk result (λ s. LeadTo (gone scroll rows (mended old.now)) (mended new.now) (string_bytes s)) }
{
    let is_one_width = old.width() == new.width();
    prove!(is_one_width);
    let blank = Screen::new(alloc, old.width(), 1)?;
    let mut out = String::new(alloc);
    for y in 0..new.height() {
        let row = row_or_blank(old, &blank, row_from(scroll, rows, y));
        push_mended_row(alloc, &mut out, row, new.row(y), y)?;
    }
    Ok(out)
}

// The same, with the command by which they go.
fn scrolled_changes(
    alloc: Global,
    old: &Screen,
    new: &Screen,
    scroll: Scroll,
    rows: u16,
) -> Result<String, AllocError>
    requires size { SameSize old.now new.now }
    requires rows { rows ≤ old.now.height }
    requires some { 0 < count_of scroll }
    requires fewer { count_of scroll < rows }
    ensures { IfOk result (λ s. BringTo (mended old.now) (mended new.now) (string_bytes s)) }
{
    let changes = changes_behind(alloc, old, new, scroll, rows)?;
    let mut out = String::new(alloc);
    push_scroll(&mut out, scroll, rows)?;
    out.push_str(changes.as_str())?;
    Ok(out)
}

// What changes.
fn plain_changes(alloc: Global, old: &Screen, new: &Screen) -> Result<String, AllocError>
    requires size { SameSize old.now new.now }
    ensures { IfOk result (λ s. BringTo (mended old.now) (mended new.now) (string_bytes s)) }
{
    let plain = mended_changes(alloc, old, new)?;
    Ok(plain)
}

// What changes once the first rows have gone, all but the last, if they have.
fn changes_of_gone(alloc: Global, old: &Screen, new: &Screen) -> Result<Option<String>, AllocError>
    requires size { SameSize old.now new.now }
    ensures { IfOk result (λ o. IfSome o (λ s. BringTo (mended old.now) (mended new.now) (string_bytes s))) }
{
    if old.height() == 0 {
        return Ok(None);
    }
    let rows = old.height() - 1;
    match best_scroll(alloc, old, new, rows)? {
        Some(scroll) => {
            let scrolled = scrolled_changes(alloc, old, new, scroll, rows)?;
            Ok(Some(scrolled))
        }
        None => Ok(None),
    }
}

// So many bytes are few: of a row that came in, and of what changes beside it. What changes without scrolling is then not looked at.
const FEW: usize = 256;

// The shorter one of what changes, and what changes once the first rows have gone.
fn shorter_changes(alloc: Global, old: &Screen, new: &Screen) -> Result<String, AllocError>
    requires size { SameSize old.now new.now }
    ensures { IfOk result (λ s. BringTo (mended old.now) (mended new.now) (string_bytes s)) }
{
    let Some(scrolled) = changes_of_gone(alloc, old, new)? else {
        return plain_changes(alloc, old, new);
    };
    if scrolled.len() <= FEW {
        return Ok(scrolled);
    }
    let plain = plain_changes(alloc, old, new)?;
    if scrolled.len() < plain.len() {
        return Ok(scrolled);
    }
    Ok(plain)
}

// What moves the cursor to the first position.
const HOME: &[u8] = b"\x1b[1;1H";

// Whether a text begins with a move to the first position.
fn begins_home(text: &[u8]) -> bool
    ensures { IsTrue result → (rest : List ℕ) × (text.now ≡ move_to_bytes 0 0 ++ rest) }
{
    text.starts_with(HOME)
}

// Whether a screen has the plain pen, and whole characters alone.
fn is_plain(screen: &Screen) -> bool
    ensures pen { IsTrue result → screen.now.pen ≡ plain_pen }
    ensures whole { IsTrue result → IsWholeGrid screen.now }
    ensures grid { IsGrid screen.now }
{
    let _on_screen = screen.cursor();
    same_pen(screen.pen(), Pen::default()) && is_whole(screen)
}

// Whether a text that leads from one screen to another does so wherever the cursor is, and shows no half of a wide character.
fn leads_anyhow(old: &Screen, new: &Screen, text: &[u8]) -> bool
    ensures { IsTrue result → after_bytes old.now text.now ≡ Some new.now → BringTo (mended old.now) (mended new.now) text.now }
{
    if !begins_home(text) || old.width() == 0 || old.height() == 0 {
        return false;
    }
    if !is_plain(old) {
        return false;
    }
    is_plain(new)
}

/// The bytes that lead a terminal that scrolls from one screen to another, which the plain terminal reads a text to: what changes, what changes once
/// rows have gone, or, where both are longer, the text itself.
pub(crate) fn shortest_changes(
    alloc: Global,
    old: &Screen,
    new: &Screen,
    text: &[u8],
) -> Result<Vec<u8>, AllocError>
    requires { after_bytes old.now text.now ≡ Some new.now }
    ensures { IfOk result (λ bytes. BringTo (mended old.now) (mended new.now) bytes.items) }
{
    let changes = shorter_changes(alloc, old, new)?;
    if changes.len() > text.len() && leads_anyhow(old, new, text) {
        let bytes = Vec::from_slice(alloc, text)?;
        return Ok(bytes);
    }
    let bytes = Vec::from_slice(alloc, changes.as_bytes())?;
    Ok(bytes)
}
