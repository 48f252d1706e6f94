//! The event of bytes.

ghost use Rattle.std.specs.Prelude.{◌≡◌, ◌<◌, []};
ghost use Rattle.mad_keys.specs.Sequences.{mouse_event, sequence_event};
ghost use Rattle.mad_keys.specs.Meanings.{char_event_at, numbers_event_at, console_at, bracket_at, application_at, escape_at, event_at};

use crate::characters::{char_key, char_of, key_with};
use crate::mouse::mouse_event;
use crate::numbers::numbers_of;
use crate::sequences::{console_key, letter_key, plain_key, sequence_event};
use crate::steps::ESC;
use mad_term::{Event, KeyCode};

// The event of a character, with the modifiers of a number.
fn char_event(bytes: &[u8], number: u8) -> Option<Event>
    requires { number < 4 }
    ensures { result ≡ char_event_at number bytes.now }
{
    Some(Event::Key(char_key(number, char_of(bytes)?)))
}

// The event of the mouse, after `ESC [ <`.
fn mouse_sequence(after: &[u8]) -> Option<Event>
    ensures { result ≡ numbers_event_at mouse_event [] after.now }
{
    let (letter, parameters) = after.split_last()?;
    let numbers = numbers_of(parameters)?;
    mouse_event(numbers.as_slice(), *letter)
}

// The event of numbers and a letter, after `ESC [`.
fn numbers_sequence(after: &[u8]) -> Option<Event>
    ensures { result ≡ numbers_event_at sequence_event [] after.now }
{
    let (letter, parameters) = after.split_last()?;
    let numbers = numbers_of(parameters)?;
    sequence_event(numbers.as_slice(), *letter)
}

// The event after `ESC [`.
fn bracket_event(after: &[u8]) -> Option<Event>
    ensures { result ≡ bracket_at after.now }
{
    match after {
        [b'[', letter] => plain_key(console_key(*letter)),
        [b'[', ..] => None,
        [b'<', after @ ..] => mouse_sequence(after),
        _ => numbers_sequence(after),
    }
}

// The event after ESC.
fn escape_event(after: &[u8]) -> Option<Event>
    ensures { result ≡ escape_at after.now }
{
    match after {
        [] => Some(Event::Key(key_with(0, KeyCode::Esc))),
        [b'[', after @ ..] => bracket_event(after),
        [b'O', letter] => plain_key(letter_key(*letter)),
        [b'O', ..] | [ESC, ..] => None,
        _ => char_event(after, 2),
    }
}

/// The event that these bytes are, if they are one.
pub(crate) fn event_of(bytes: &[u8]) -> Option<Event>
    ensures { result ≡ event_at bytes.now }
{
    match bytes {
        [] => None,
        [ESC, after @ ..] => escape_event(after),
        _ => char_event(bytes, 0),
    }
}
