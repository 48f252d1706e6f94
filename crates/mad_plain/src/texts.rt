//! Texts: bytes as characters, and their lines.

ghost use Rattle.std.specs.Prelude.{◌≡◌, map, IfOk};
ghost use Rattle.std.specs.Cow.{cow_str_bytes};
ghost use Rattle.std.specs.List.{before_first, after_first};
ghost use Rattle.std.specs.Str.Lines.{strip_carriage_return};
ghost use Rattle.std.specs.Str.Lossy.{utf8_lossy};
ghost use Rattle.mad_plain.specs.Texts.{is_newline_byte, text_lines};

use std::alloc::{AllocError, Global};
use std::borrow::CowStr;
use std::str::from_utf8;

/// Bytes as a text: each invalid sequence is U+FFFD, by the rule of the standard library. A text is borrowed.
///
/// # Errors
///
/// Out of memory is the only error.
pub fn lossy_text(alloc: Global, bytes: &[u8]) -> Result<CowStr<'_, Global>, AllocError>
    ensures { IfOk result (λ text. cow_str_bytes text ≡ utf8_lossy bytes.now) }
{
    match from_utf8(bytes) {
        Ok(text) => Ok(CowStr::Borrowed(text)),
        Err(_) => Ok(CowStr::Owned(String::from_utf8_lossy(alloc, bytes)?)),
    }
}

// What comes before the first newline, or all of the text, and what comes after it.
fn cut_part(rest: &str) -> (&str, &str)
    ensures part { result.0.now ≡ before_first is_newline_byte rest.entry.now }
    ensures after { result.1.now ≡ after_first is_newline_byte rest.entry.now }
{
    match rest.split_once('\n') {
        Some((part, after)) => (part, after),
        None => (rest, ""),
    }
}

// The part without the one carriage return that it may end with.
fn without_return(part: &str) -> &str
    ensures { result.now ≡ strip_carriage_return part.entry.now }
{
    part.strip_suffix('\r').unwrap_or(part)
}

/// The lines of a text, without their ends.
///
/// # Errors
///
/// Out of memory is the only error.
pub fn text_lines(alloc: Global, text: &str) -> Result<Vec<&str>, AllocError>
    ensures { IfOk result (λ lines. map (λ line. line.now) lines.items ≡ text_lines text.entry.now) }
{
    let mut lines = Vec::new(alloc);
    let mut rest = text;
    while !rest.is_empty() {
        let (part, after) = cut_part(rest);
        lines.push(without_return(part))?;
        rest = after;
    }
    Ok(lines)
}
