//! Texts that others wrote, as they are and after `printable`.
//!
//! What can't be seen, or would mislead, has signs in the rows: `∅` is U+0000, `▪` a byte order mark, `←` U+202E. In answers `⎋` is U+241B and
//! `⏎` U+240D, since the characters themselves are signs of all rows.

use crate::answer_in_skin;
use std::alloc::{AllocError, Global};
use termimad::printable;
use test_skins::Refusal;

fn meant(sign: char) -> char {
    match sign {
        '∅' => '\0',
        '▪' => '\u{feff}',
        '←' => '\u{202e}',
        _ => sign,
    }
}

fn sign_of(c: char) -> char {
    match c {
        '\0' => '∅',
        '\u{feff}' => '▪',
        '\u{202e}' => '←',
        '\u{241b}' => '⎋',
        '\u{240d}' => '⏎',
        _ => c,
    }
}

fn signs(alloc: Global, answer: &str) -> Result<String, AllocError> {
    answer.chars().map(sign_of).collect(alloc)
}

/// What a call answers of a text with these signs, or of what is printable of it.
pub fn answer(
    alloc: Global,
    call: &str,
    text: &str,
    is_made_printable: bool,
) -> Result<String, Refusal> {
    let (name, words) = call.split_once(' ').unwrap_or((call, ""));
    let text = text_of(alloc, is_made_printable, text)?;
    let answer = answer_in_skin(alloc, name, words, text.as_str())?;
    Ok(signs(alloc, &answer)?)
}

/// The text that has these signs, or what is printable of it.
pub fn text_of(alloc: Global, is_made_printable: bool, text: &str) -> Result<String, AllocError> {
    let text: String = text.chars().map(meant).collect(alloc)?;
    if !is_made_printable {
        return Ok(text);
    }
    String::from_str(alloc, printable(alloc, &text)?.as_str())
}
