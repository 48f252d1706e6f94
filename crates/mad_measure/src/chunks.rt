//! Runs of tokens of spaces and graphic ASCII characters, taken at once.

ghost use Rattle.std.specs.Prelude.{◌≡◌, ◌≤◌, ◌<◌, ◌+◌, ◌⊎◌, IsTrue, false, length};
ghost use Rattle.mad_measure.specs.Chunks.{ArePlain, AreSteady, IsChunk, first_set};

use std::simd::prelude::*;

const LANES: usize = 16;

/// Where the spaces and graphic ASCII characters that begin at `from` end.
pub fn plain_end(bytes: &[u8], from: usize) -> usize
    requires { from ≤ length bytes.now }
    ensures plain { ArePlain bytes.now from result }
    ensures order { from ≤ result }
    ensures inside { result ≤ length bytes.now }
{
    let mut at = from;
    while at + LANES <= bytes.len() {
        let count = plain_run(bytes, at);
        at += count;
        if count < LANES {
            return at;
        }
    }
    while at < bytes.len() && is_plain(bytes[at]) {
        at += 1;
    }
    at
}

// How many bytes of one load are plain, from the first on.
#[inline(always)]
fn plain_run(bytes: &[u8], at: usize) -> usize
    requires { at + LANES ≤ length bytes.now }
    ensures plain { ArePlain bytes.now at (at + result) }
    ensures within { result ≤ LANES }
{
    let block = u8x16::from_slice(&bytes[at..]);
    let other = block.simd_lt(u8x16::splat(b' ')) | block.simd_ge(u8x16::splat(0x7f));
    first_set(other.to_bitmask(), LANES)
}

#[inline(always)]
fn first_set(mask: u64, lanes: usize) -> usize
    ensures { result ≡ first_set mask lanes }
{
    if mask == 0 {
        lanes
    } else {
        mask.trailing_zeros() as usize
    }
}

// Whether it is a space or a graphic ASCII character.
fn is_plain(byte: u8) -> bool
    ensures { IsTrue result → (31 < byte) × (byte < 127) }
{
    (b' '..0x7f).contains(&byte)
}

/// The last border of tokens that is at most `room` bytes after `at`; `at` where none is known. Up to `plain` the bytes are spaces and
/// graphic ASCII characters.
pub fn chunk_end(bytes: &[u8], code: bool, at: usize, plain: usize, room: usize) -> usize
    requires plain { ArePlain bytes.now at plain }
    requires inside { plain ≤ length bytes.now }
    ensures order { at ≤ result }
    ensures room { result ≤ at + room }
    ensures chunk { at < result → IsChunk bytes.now code at result }
    ensures before { at < result → result ≤ plain }
    ensures known { at < result → (result ≡ length bytes.now) ⊎ (result < plain) }
    ensures whole { result ≡ at → at < plain → plain ≡ length bytes.now → at + room < plain }
    ensures last { code ≡ false → AreSteady bytes.now result (at + room) plain }
{
    if at >= plain {
        return at;
    }
    if plain == bytes.len() && plain - at <= room {
        return plain;
    }
    if code {
        return at;
    }
    let mut end = at + room.min(plain - 1 - at);
    let mut blank = bytes[end] == b' ';
    while at < end {
        let before = bytes[end - 1] == b' ';
        if before != blank {
            return end;
        }
        blank = before;
        end -= 1;
    }
    at
}
