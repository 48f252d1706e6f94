//! The events of sequences after `ESC [`, by their numbers and their letter.

ghost use Rattle.std.specs.Prelude.{◌≡◌, ℕ, ◌<◌, ◌≤◌, ◌^◌, All};
ghost use Rattle.mad_keys.specs.Keys.{letter_key, number_key, console_key};
ghost use Rattle.mad_keys.specs.Sequences.{plain_key, held_key, size_event, letter_event, pair_event, sequence_event};

use crate::characters::key_with;
use mad_term::{Event, KeyCode};

/// The key of a letter.
pub(crate) fn letter_key(letter: u8) -> Option<KeyCode>
    ensures { result ≡ letter_key letter }
{
    match letter {
        b'A' => Some(KeyCode::Up),
        b'B' => Some(KeyCode::Down),
        b'C' => Some(KeyCode::Right),
        b'D' => Some(KeyCode::Left),
        b'F' => Some(KeyCode::End),
        b'H' => Some(KeyCode::Home),
        b'P'..=b'S' => Some(KeyCode::F(letter - 79)),
        _ => None,
    }
}

// The key of a number.
fn number_key(number: u32) -> Option<KeyCode>
    ensures { result ≡ number_key number }
{
    match number {
        1 | 7 => Some(KeyCode::Home),
        2 => Some(KeyCode::Insert),
        3 => Some(KeyCode::Delete),
        4 | 8 => Some(KeyCode::End),
        5 => Some(KeyCode::PageUp),
        6 => Some(KeyCode::PageDown),
        11..=15 => Some(KeyCode::F(number as u8 - 10)),
        17..=21 => Some(KeyCode::F(number as u8 - 11)),
        23 | 24 => Some(KeyCode::F(number as u8 - 12)),
        _ => None,
    }
}

/// The key of a letter on the Linux console.
pub(crate) fn console_key(letter: u8) -> Option<KeyCode>
    ensures { result ≡ console_key letter }
{
    match letter {
        b'A'..=b'E' => Some(KeyCode::F(letter - 64)),
        _ => None,
    }
}

/// A key without modifiers.
pub(crate) fn plain_key(code: Option<KeyCode>) -> Option<Event>
    ensures { result ≡ plain_key code }
{
    Some(Event::Key(key_with(0, code?)))
}

// A key with modifiers, which a number tells.
fn held_key(number: u32, code: Option<KeyCode>) -> Option<Event>
    ensures { result ≡ held_key number code }
{
    match number {
        2..=8 => Some(Event::Key(key_with(number as u8 - 1, code?))),
        _ => None,
    }
}

// The screen's size.
fn size_event(columns: u32, rows: u32) -> Option<Event>
    ensures { result ≡ size_event columns rows }
{
    let columns = u16::try_from(columns).ok()?;
    let rows = u16::try_from(rows).ok()?;
    if columns == 0 || rows == 0 {
        return None;
    }
    Some(Event::Resize(columns, rows))
}

// The event of a letter without numbers.
fn letter_event(letter: u8) -> Option<Event>
    ensures { result ≡ letter_event letter }
{
    match letter {
        b'Z' => plain_key(Some(KeyCode::BackTab)),
        b'I' => Some(Event::FocusGained),
        b'O' => Some(Event::FocusLost),
        _ => plain_key(letter_key(letter)),
    }
}

// The event of two numbers and a letter.
fn pair_event(first: u32, second: u32, letter: u8) -> Option<Event>
    ensures { result ≡ pair_event first second letter }
{
    match letter {
        b'~' => held_key(second, number_key(first)),
        _ if first == 1 => held_key(second, letter_key(letter)),
        b'R' => size_event(second, first),
        _ => None,
    }
}

/// The event of a sequence, by its numbers and its letter.
pub(crate) fn sequence_event(numbers: &[u32], letter: u8) -> Option<Event>
    ensures { result ≡ sequence_event numbers.now letter }
{
    match numbers {
        [] => letter_event(letter),
        [n] if letter == b'~' => plain_key(number_key(*n)),
        [n, m] => pair_event(*n, *m, letter),
        [8, rows, columns] if letter == b't' => size_event(*columns, *rows),
        _ => None,
    }
}
