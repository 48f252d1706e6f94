//! The events of the mouse.

ghost use Rattle.std.specs.Prelude.{◌≡◌};
ghost use Rattle.mad_keys.specs.Sequences.{mouse_kind, cell_event, mouse_event};

use crate::characters::held;
use mad_term::{Event, MouseButton, MouseEvent, MouseEventKind};

// What was done, by its number and the letter.
fn mouse_kind(number: u32, letter: u8) -> Option<MouseEventKind>
    ensures { result ≡ mouse_kind number letter }
{
    match (letter, number) {
        (b'm', 0) => Some(MouseEventKind::Up(MouseButton::Left)),
        (b'm', 1) => Some(MouseEventKind::Up(MouseButton::Middle)),
        (b'm', 2) => Some(MouseEventKind::Up(MouseButton::Right)),
        (b'M', 0) => Some(MouseEventKind::Down(MouseButton::Left)),
        (b'M', 1) => Some(MouseEventKind::Down(MouseButton::Middle)),
        (b'M', 2) => Some(MouseEventKind::Down(MouseButton::Right)),
        (b'M', 32) => Some(MouseEventKind::Drag(MouseButton::Left)),
        (b'M', 33) => Some(MouseEventKind::Drag(MouseButton::Middle)),
        (b'M', 34) => Some(MouseEventKind::Drag(MouseButton::Right)),
        (b'M', 35) => Some(MouseEventKind::Moved),
        (b'M', 64) => Some(MouseEventKind::ScrollUp),
        (b'M', 65) => Some(MouseEventKind::ScrollDown),
        _ => None,
    }
}

// What was done in a cell, whose column and row are counted from 1.
fn cell_event(number: u32, column: u32, row: u32, letter: u8) -> Option<Event>
    ensures { result ≡ cell_event number column row letter }
{
    let column = u16::try_from(column.checked_sub(1)?).ok()?;
    let row = u16::try_from(row.checked_sub(1)?).ok()?;
    let kind = mouse_kind(number % 4 + 32 * (number / 32), letter)?;
    Some(Event::Mouse(MouseEvent {
        kind,
        column,
        row,
        modifiers: held((number / 4 % 8) as u8),
    }))
}

/// The event of a sequence of the mouse, by its numbers and its letter.
pub(crate) fn mouse_event(numbers: &[u32], letter: u8) -> Option<Event>
    ensures { result ≡ mouse_event numbers.now letter }
{
    match numbers {
        [number, column, row] => cell_event(*number, *column, *row, letter),
        _ => None,
    }
}
