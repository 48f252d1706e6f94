//! Escapes and entities.

ghost use Rattle.std.specs.Prelude.{◌≡◌, ◌≤◌, length};
ghost use Rattle.std.specs.List.{prefix_len};
ghost use Rattle.std.specs.Char.{is_ascii_hexdigit, is_ascii_alphanumeric};
ghost use Rattle.markdown_spans.specs.Entities.{escape_of, digit, value_after, char_of, hexadecimal, decimal, numeric, named, entity_of};

use markdown_entities::characters_named;
use markdown_marks::bytes::{digits_in_front, first, number, tail};

/// What a backslash is, by what follows it.
#[derive(Debug, Clone, Copy)]
pub enum Escape {
    /// This sign, which is ASCII punctuation, as it is.
    Sign(u8),
    /// The end of a line that breaks it.
    Break,
    /// A backslash.
    Itself,
}

/// What a backslash is, by what follows it.
pub fn escape_of(rest: &[u8]) -> Escape
    ensures { result ≡ escape_of rest.now }
{
    match rest {
        [b'\n', ..] => Escape::Break,
        [b, ..] if b.is_ascii_punctuation() => Escape::Sign(*b),
        _ => Escape::Itself,
    }
}

/// An entity at the beginning of a rest, after its `&`.
#[derive(Debug, Clone, Copy)]
pub struct Entity {
    /// What it stands for.
    pub shown: char,
    /// Its second character. (Some names stand for two.)
    pub second: Option<char>,
    /// How many bytes it has after its `&`.
    pub len: usize,
}

// What a hexadecimal digit stands for, a letter in either case.
fn digit(b: u8) -> u32
    ensures value { result ≡ digit b }
    ensures few { result ≤ 15 }
{
    if b <= b'9' {
        u32::from(b.saturating_sub(b'0').min(15))
    } else {
        u32::from(b.to_ascii_lowercase().saturating_sub(b'a' - 10).min(15))
    }
}

// The number that at most six hexadecimal digits write.
#[tactic(auto, unfolding(crate::specs::Entities::value_after))]
fn value(digits: &[u8]) -> u32
    requires few { length digits.now ≤ 6 }
    ensures { result ≡ value_after 0 digits.now }
{
    let mut value = 0;
    for b in digits {
        value = value * 16 + digit(*b);
    }
    value
}

// The character of a number: 0 and what is no character become U+FFFD.
fn char_of(number: u32) -> char
    ensures { result ≡ char_of number }
{
    if number == 0 {
        return '\u{FFFD}';
    }
    match char::from_u32(number) {
        Some(c) => c,
        None => '\u{FFFD}',
    }
}

// How many hexadecimal digits are in front.
fn hex_len(bytes: &[u8]) -> usize
    ensures value { result ≡ prefix_len is_ascii_hexdigit bytes.now }
    ensures within { result ≤ length bytes.now }
{
    let mut i = 0;
    while i < bytes.len() && bytes[i].is_ascii_hexdigit() {
        i += 1;
    }
    i
}

// How many letters and digits are in front.
fn name_len(bytes: &[u8]) -> usize
    ensures value { result ≡ prefix_len is_ascii_alphanumeric bytes.now }
    ensures within { result ≤ length bytes.now }
{
    let mut i = 0;
    while i < bytes.len() && bytes[i].is_ascii_alphanumeric() {
        i += 1;
    }
    i
}

// An entity of one to six hexadecimal digits, which are in front.
fn hexadecimal(bytes: &[u8]) -> Option<Entity>
    ensures { result ≡ hexadecimal bytes.now }
{
    let len = hex_len(bytes);
    if len == 0 || len > 6 || first(tail(bytes, len)) != b';' {
        return None;
    }
    Some(Entity {
        shown: char_of(value(&bytes[..len])),
        second: None,
        len: len + 3,
    })
}

// An entity of one to seven digits, which are in front.
fn decimal(bytes: &[u8]) -> Option<Entity>
    ensures { result ≡ decimal bytes.now }
{
    let len = digits_in_front(bytes);
    if len == 0 || len > 7 || first(tail(bytes, len)) != b';' {
        return None;
    }
    Some(Entity {
        shown: char_of(number(&bytes[..len])),
        second: None,
        len: len + 2,
    })
}

// A numeric entity, after `#`.
fn numeric(rest: &[u8]) -> Option<Entity>
    ensures { result ≡ numeric rest.now }
{
    if first(rest) == b'x' || first(rest) == b'X' {
        return hexadecimal(tail(rest, 1));
    }
    decimal(rest)
}

// An entity with a name.
fn named(rest: &[u8]) -> Option<Entity>
    ensures { result ≡ named rest.now }
{
    let len = name_len(rest);
    if first(tail(rest, len)) != b';' {
        return None;
    }
    match characters_named(&rest[..len]) {
        Some(characters) => Some(Entity {
            shown: characters.first,
            second: characters.second,
            len: len + 1,
        }),
        None => None,
    }
}

/// The entity that a rest begins with, after its `&`.
pub fn entity_of(rest: &[u8]) -> Option<Entity>
    ensures { result ≡ entity_of rest.now }
{
    if first(rest) == b'#' {
        return numeric(tail(rest, 1));
    }
    named(rest)
}
