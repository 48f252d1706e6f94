//! The part of a hit that is in a text.

ghost use Rattle.std.specs.List.{flat_map};
ghost use Rattle.std.specs.Prelude.{◌≡◌, ◌++◌, ℕ, OnOk, map, take};
ghost use Rattle.mad_wrap.specs.WrapLines.{capped};
ghost use Rattle.mad_hits.specs.Hits.{marked_of};
ghost use Rattle.mad_hits.specs.Parts.{begins_char, char_count, marked_bytes, part_of};

use crate::hits::{Hit, hit_at};
use mad_style::StyledChar;
use std::alloc::{AllocError, Global};

/// Puts the parts after others that hits have in a text of these characters and bytes. It begins in that column, and stands there in the text in which
/// was sought.
pub(crate) fn push_parts(
    alloc: Global,
    hits: &mut Vec<Hit>,
    text: &[StyledChar],
    bytes: &[u8],
    column: usize,
    own: (usize, usize),
    found: &[(usize, usize)],
) -> Result<(), AllocError>
    ensures { OnOk result ((n : ℕ) → column ≡ capped n → map marked_of hits.new.items ≡ map marked_of hits.old.items ++ flat_map (λ (hit : ℕ × ℕ). marked_bytes n text.now bytes.now (part_of own hit)) found.now) }
{
    for hit in found {
        push_part(alloc, hits, text, bytes, column, part_of(own, *hit))?;
    }
    Ok(())
}

// The part of a hit that is in a text which stands there, from the text's start on.
fn part_of(own: (usize, usize), hit: (usize, usize)) -> (usize, usize)
    ensures { result ≡ part_of own hit }
{
    let start = hit.0.max(own.0).saturating_sub(own.0);
    let end = hit.1.min(own.1).saturating_sub(own.0);
    (start, end)
}

// Puts the characters after hits that are in these bytes of a text, if there are some.
fn push_part(
    alloc: Global,
    hits: &mut Vec<Hit>,
    text: &[StyledChar],
    bytes: &[u8],
    column: usize,
    part: (usize, usize),
) -> Result<(), AllocError>
    ensures { OnOk result ((n : ℕ) → column ≡ capped n → map marked_of hits.new.items ≡ map marked_of hits.old.items ++ marked_bytes n text.now bytes.now part) }
{
    if part.0 < part.1 {
        let start = char_count(bytes, part.0);
        let count = char_count(bytes, part.1).saturating_sub(start);
        let hit = hit_at(alloc, text, column, start, count)?;
        hits.push(hit)?;
        return Ok(());
    }
    Ok(())
}

// How many characters the first bytes have, of which there are so many.
fn char_count(bytes: &[u8], count: usize) -> usize
    ensures { result ≡ char_count (take count bytes.now) }
{
    bytes[..count.min(bytes.len())]
        .iter()
        .filter(|b| begins_char(**b))
        .count()
}

// Whether a byte begins a character.
fn begins_char(b: u8) -> bool
    ensures { result ≡ begins_char b }
{
    b < 128 || b > 191
}
