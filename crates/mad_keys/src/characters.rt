//! The keys of characters, and the modifiers held with a key.

ghost use Rattle.std.specs.Prelude.{◌≡◌, ◌<◌, IfSome};
ghost use Rattle.mad_keys.specs.Keys.{held, key_with, char_key};
ghost use Rattle.mad_keys.specs.Meanings.{char_at};
ghost use Rattle.mad_keys.specs.PlainBytes.{number_of};

use mad_term::{KeyCode, KeyEvent, KeyModifiers};
use std::str;

/// The modifiers of a number: Shift 1, Alt 2, Control 4.
pub(crate) fn held(number: u8) -> KeyModifiers
    requires { number < 8 }
    ensures { result ≡ held number }
{
    match number {
        0 => KeyModifiers::NONE,
        1 => KeyModifiers::SHIFT,
        2 => KeyModifiers::ALT,
        3 => KeyModifiers::SHIFT | KeyModifiers::ALT,
        4 => KeyModifiers::CONTROL,
        5 => KeyModifiers::SHIFT | KeyModifiers::CONTROL,
        6 => KeyModifiers::ALT | KeyModifiers::CONTROL,
        _ => KeyModifiers::SHIFT | KeyModifiers::ALT | KeyModifiers::CONTROL,
    }
}

/// The number of modifiers, if they are no others than Shift, Control and Alt.
pub(crate) fn number_of(modifiers: KeyModifiers) -> Option<u8>
    ensures bound { IfSome result (λ number. number < 8) }
    ensures is { result ≡ number_of modifiers }
{
    for number in 0..8 {
        if modifiers == held(number) {
            return Some(number);
        }
    }
    None
}

/// A key with the modifiers of a number.
pub(crate) fn key_with(number: u8, code: KeyCode) -> KeyEvent
    requires { number < 8 }
    ensures { result ≡ key_with number code }
{
    KeyEvent {
        code,
        modifiers: held(number),
    }
}

/// The key of a character with the modifiers of a number, among which Control isn't.
pub(crate) fn char_key(number: u8, c: char) -> KeyEvent
    requires { number < 4 }
    ensures { result ≡ char_key number c }
{
    match c {
        '\0' => key_with(number, KeyCode::Null),
        '\u{8}' | '\u{7f}' => key_with(number, KeyCode::Backspace),
        '\t' => key_with(number, KeyCode::Tab),
        '\n' | '\r' => key_with(number, KeyCode::Enter),
        '\u{1}'..='\u{1a}' => key_with(number + 4, KeyCode::Char(char::from(c as u8 + 96))),
        '\u{1b}'..='\u{1f}' => key_with(number + 4, KeyCode::Char(char::from(c as u8 + 64))),
        _ => key_with(number, KeyCode::Char(c)),
    }
}

/// The character that these bytes write, if they write one.
pub(crate) fn char_of(bytes: &[u8]) -> Option<char>
    ensures { result ≡ char_at bytes.now }
{
    let Ok(text) = str::from_utf8(bytes) else {
        return None;
    };
    let mut chars = text.chars();
    let c = chars.next()?;
    if chars.as_str().is_empty() {
        Some(c)
    } else {
        None
    }
}
