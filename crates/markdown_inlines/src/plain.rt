//! What is shown of a text: fronts that are shown as they are go at once.

ghost use Rattle.std.specs.Prelude.{◌≡◌, ◌≤◌, ◌<◌, ◌+◌, ◌++◌, [], IsTrue, IfOk, OnOk, IsUtf8, MatchOption, length, string_bytes, encode_utf8};
ghost use Rattle.markdown_inlines.specs.Plain.{ArePlain, IsShownUpTo, first_set};

use crate::printable::shown_char;
use std::alloc::AllocError;
use std::simd::prelude::*;

const LANES: usize = 16;

// How many bytes of one load are spaces and graphic ASCII characters, from the first on.
#[inline(always)]
fn plain_run(bytes: &[u8], at: usize) -> usize
    requires { at + LANES ≤ length bytes.now }
    ensures plain { ArePlain bytes.now at (at + result) }
    ensures within { result ≤ LANES }
{
    let block = u8x16::from_slice(&bytes[at..]);
    let other = block.simd_lt(u8x16::splat(b' ')) | block.simd_ge(u8x16::splat(0x7f));
    first_set(other.to_bitmask(), LANES)
}

#[inline(always)]
fn first_set(mask: u64, lanes: usize) -> usize
    ensures { result ≡ first_set mask lanes }
{
    if mask == 0 {
        lanes
    } else {
        mask.trailing_zeros() as usize
    }
}

// Whether it is a space or a graphic ASCII character.
fn is_plain(byte: u8) -> bool
    ensures { IsTrue result → (31 < byte) × (byte < 127) }
{
    (b' '..0x7f).contains(&byte)
}

// How many spaces and graphic ASCII characters are in front.
fn plain_len(bytes: &[u8]) -> usize
    ensures plain { ArePlain bytes.now 0 result }
    ensures inside { result ≤ length bytes.now }
{
    let mut at = 0;
    while at + LANES <= bytes.len() {
        let count = plain_run(bytes, at);
        at += count;
        if count < LANES {
            return at;
        }
    }
    while at < bytes.len() && is_plain(bytes[at]) {
        at += 1;
    }
    at
}

// Adds such a front, and gives what is behind it.
fn push_front<'s>(shown: &mut String, text: &'s str) -> Result<&'s str, AllocError>
    ensures pushed { IfOk result (λ rest. IsShownUpTo (string_bytes shown.old) (string_bytes shown.new) text.entry.now rest.now) }
    ensures fewer { IfOk result (λ rest. length rest.now ≤ length text.entry.now) }
{
    let len = plain_len(text.as_bytes());
    let (front, rest) = text.split_at(len);
    shown.push_str(front)?;
    Ok(rest)
}

// The first character of a text, and the others.
fn first_char(text: &str) -> Option<(char, &str)>
    ensures { MatchOption result (length text.entry.now ≡ 0) (λ parts. IsUtf8 parts.1.now × (text.entry.now ≡ encode_utf8 parts.0 ++ parts.1.now)) }
{
    let mut chars = text.chars();
    let c = chars.next()?;
    Some((c, chars.as_str()))
}

/// Adds a text, each character as it is shown.
///
/// # Errors
///
/// Out of memory is the only error.
pub fn push_shown(shown: &mut String, text: &str) -> Result<(), AllocError>
    ensures { OnOk result (IsShownUpTo (string_bytes shown.old) (string_bytes shown.new) text.now []) }
{
    let mut rest = push_front(shown, text)?;
    while let Some((c, next)) = first_char(rest) {
        shown.push(shown_char(c))?;
        rest = push_front(shown, next)?;
    }
    Ok(())
}
