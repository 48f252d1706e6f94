//! How far bytes stand for themselves, where no address is: 16 at once.

ghost use Rattle.std.specs.Prelude.{◌≡◌, ℕ, ◌≤◌, ◌<◌, ◌+◌, ◌-◌, length, get_or, true, false, None, nat_le, ◌&&◌};
ghost use Rattle.std.specs.List.{prefix_len};
ghost use Rattle.markdown_marks.specs.Bytes.{is_blank_byte};
ghost use Rattle.markdown_pieces.specs.Pieces.{plain_from};
ghost use Rattle.markdown_pieces.specs.Scan.{stands, AreStanding, first_set, is_w, sign_at, AreSignless, HasNoWeb};

use markdown_marks::bytes::{first, is_blank_byte, tail};
use std::simd::prelude::*;

const LANES: usize = 16;

#[inline(always)]
fn first_set(mask: u64, lanes: usize) -> usize
    ensures { result ≡ first_set mask lanes }
{
    if mask == 0 {
        lanes
    } else {
        mask.trailing_zeros() as usize
    }
}

// How many bytes of one load are no marks and no ends of lines, from the first on.
#[inline(always)]
fn standing_run(bytes: &[u8], at: usize) -> usize
    requires { at + LANES ≤ length bytes.now }
    ensures standing { AreStanding bytes.now at (at + result) }
    ensures within { result ≤ LANES }
{
    let block = u8x16::from_slice(&bytes[at..]);
    let marks = block.simd_eq(u8x16::splat(b'`'))
        | block.simd_eq(u8x16::splat(b'*'))
        | block.simd_eq(u8x16::splat(b'_'))
        | block.simd_eq(u8x16::splat(b'~'))
        | block.simd_eq(u8x16::splat(b'\\'))
        | block.simd_eq(u8x16::splat(b'&'))
        | block.simd_eq(u8x16::splat(b'<'))
        | block.simd_eq(u8x16::splat(b'['))
        | block.simd_eq(u8x16::splat(b']'))
        | block.simd_eq(u8x16::splat(b'!'))
        | block.simd_eq(u8x16::splat(b'\n'));
    first_set(marks.to_bitmask(), LANES)
}

// A byte that is no mark and no end of a line.
fn stands(b: u8) -> bool
    ensures { result ≡ stands b }
{
    !matches!(
        b,
        b'`' | b'*' | b'_' | b'~' | b'\\' | b'&' | b'<' | b'[' | b']' | b'!' | b'\n'
    )
}

// So many of these are in front, as loads tell: there may be more.
fn loads_len(bytes: &[u8]) -> usize
    ensures standing { AreStanding bytes.now 0 result }
    ensures inside { result ≤ length bytes.now }
{
    let mut at = 0;
    while at + LANES <= bytes.len() {
        let count = standing_run(bytes, at);
        at += count;
        if count < LANES {
            return at;
        }
    }
    at
}

// How many of these are in front.
fn standing_len(bytes: &[u8]) -> usize
    ensures standing { AreStanding bytes.now 0 result }
    ensures inside { result ≤ length bytes.now }
    ensures ends { result < length bytes.now → stands (get_or bytes.now result 0) ≡ false }
{
    let mut at = loads_len(bytes);
    while at < bytes.len() {
        if !stands(bytes[at]) {
            return at;
        }
        at += 1;
    }
    at
}

// A place without the blanks before it.
fn without_blanks_before(bytes: &[u8], at: usize) -> usize
    requires { at ≤ length bytes.now }
    ensures within { result ≤ at }
    ensures blanks { (k : ℕ) → result ≤ k → k < at → is_blank_byte (get_or bytes.now k 0) ≡ true }
    ensures solid { 0 < result → is_blank_byte (get_or bytes.now (result - 1) 0) ≡ false }
{
    let mut end = at;
    while end > 0 {
        if !is_blank_byte(bytes[end - 1]) {
            return end;
        }
        end -= 1;
    }
    end
}

/// How many bytes in front stand for themselves, where no bare address is.
pub fn quiet_len(bytes: &[u8]) -> usize
    ensures value { result ≡ plain_from false None bytes.now }
    ensures within { result ≤ length bytes.now }
{
    let len = standing_len(bytes);
    if first(tail(bytes, len)) == b'\n' {
        return without_blanks_before(bytes, len);
    }
    len
}

// How many bytes of one load are neither colons nor periods, from the first on.
#[inline(always)]
fn signless_run(bytes: &[u8], at: usize) -> usize
    requires { at + LANES ≤ length bytes.now }
    ensures signless { AreSignless bytes.now at (at + result) }
    ensures within { result ≤ LANES }
{
    let block = u8x16::from_slice(&bytes[at..]);
    let signs = block.simd_eq(u8x16::splat(b':')) | block.simd_eq(u8x16::splat(b'.'));
    first_set(signs.to_bitmask(), LANES)
}

// A place up to which there are no colons and no periods, as loads tell.
fn signless_to(bytes: &[u8], from: usize) -> usize
    requires { from ≤ length bytes.now }
    ensures signless { AreSignless bytes.now from result }
    ensures behind { from ≤ result }
    ensures inside { result ≤ length bytes.now }
{
    let mut at = from;
    while at + LANES <= bytes.len() {
        let count = signless_run(bytes, at);
        at += count;
        if count < LANES {
            return at;
        }
    }
    at
}

fn is_w(b: u8) -> bool
    ensures { result ≡ is_w b }
{
    b == b'w' || b == b'W'
}

// Whether two letters w stand before a place.
fn is_behind_w(text: &[u8], at: usize) -> bool
    requires { at ≤ length text.now }
    ensures { result ≡ (nat_le 2 at && (is_w (get_or text.now (at - 1) 0) && is_w (get_or text.now (at - 2) 0))) }
{
    at >= 2 && is_w(text[at - 1]) && is_w(text[at - 2])
}

// Whether a colon is there before a slash, or a period behind two letters w.
fn is_sign(text: &[u8], at: usize) -> bool
    requires { at < length text.now }
    ensures { result ≡ sign_at text.now at }
{
    if text[at] == b':' {
        return first(tail(text, at + 1)) == b'/';
    }
    text[at] == b'.' && is_behind_w(text, at)
}

/// Whether there may be an address of the web.
pub fn may_have_web(text: &[u8]) -> bool
    ensures { result ≡ false → HasNoWeb text.now }
{
    let mut at = signless_to(text, 0);
    while at < text.len() {
        if is_sign(text, at) {
            return true;
        }
        at = signless_to(text, at + 1);
    }
    false
}
