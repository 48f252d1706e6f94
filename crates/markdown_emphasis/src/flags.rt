//! What pairs say of the pieces of a text.

ghost use Rattle.std.specs.Prelude.{◌≡◌, ℕ, ◌<◌, ◌==◌, IfOk, false, get_or, length, slice_index};
ghost use Rattle.std.specs.List.{All, count_by, filter};
ghost use Rattle.markdown_emphasis.specs.Pairs.{IsWithin};
ghost use Rattle.markdown_emphasis.specs.Flags.{is_bold, is_covered, is_italic, is_strikeout, flags_of, openers, closers};

use crate::runs::{Pair, Sign};
use std::alloc::{AllocError, Global};

/// How a piece of a text is shown.
#[derive(Clone, Copy)]
pub struct Flags {
    pub bold: bool,
    pub italic: bool,
    pub strikeout: bool,
}

// Whether a pair makes text bold.
fn is_bold(pair: &Pair) -> bool
    ensures { result ≡ is_bold pair.now }
{
    !matches!(pair.sign, Sign::Tilde) && pair.count == 2
}

// Whether a pair makes text italic.
fn is_italic(pair: &Pair) -> bool
    ensures { result ≡ is_italic pair.now }
{
    !matches!(pair.sign, Sign::Tilde) && pair.count != 2
}

// Whether a pair strikes text out.
fn is_strikeout(pair: &Pair) -> bool
    ensures { result ≡ is_strikeout pair.now }
{
    matches!(pair.sign, Sign::Tilde)
}

// How often each number below a bound is among these.
fn tally(alloc: Global, numbers: &[usize], bound: usize) -> Result<Vec<usize>, AllocError>
    requires { All (λ n. n < bound) numbers.now }
    ensures size { IfOk result (λ counts. length counts.items ≡ bound) }
    ensures counts { IfOk result (λ counts. (k : ℕ) → k < bound → slice_index counts.items k ≡ count_by (λ n. n == k) numbers.now) }
{
    let mut counts = vec![in alloc; 0usize; bound]?;
    for number in numbers {
        counts[*number] += 1;
    }
    Ok(counts)
}

// How many pairs begin at each of so many pieces.
fn count_openers(alloc: Global, pairs: &[Pair], pieces: usize) -> Result<Vec<usize>, AllocError>
    requires { All (IsWithin pieces) pairs.now }
    ensures size { IfOk result (λ counts. length counts.items ≡ pieces) }
    ensures counts { IfOk result (λ counts. (k : ℕ) → k < pieces → slice_index counts.items k ≡ count_by (λ n. n == k) (openers pairs.now)) }
{
    let openers: Vec<usize> = pairs.iter().map(|pair| pair.opener).collect(alloc)?;
    tally(alloc, &openers, pieces)
}

// How many pairs end at each of so many pieces.
fn count_closers(alloc: Global, pairs: &[Pair], pieces: usize) -> Result<Vec<usize>, AllocError>
    requires { All (IsWithin pieces) pairs.now }
    ensures size { IfOk result (λ counts. length counts.items ≡ pieces) }
    ensures counts { IfOk result (λ counts. (k : ℕ) → k < pieces → slice_index counts.items k ≡ count_by (λ n. n == k) (closers pairs.now)) }
{
    let closers: Vec<usize> = pairs.iter().map(|pair| pair.closer).collect(alloc)?;
    tally(alloc, &closers, pieces)
}

// For each of so many pieces, whether it lies between the runs of a pair.
fn covered(alloc: Global, pairs: &[Pair], pieces: usize) -> Result<Vec<bool>, AllocError>
    requires { All (IsWithin pieces) pairs.now }
    ensures size { IfOk result (λ covered. length covered.items ≡ pieces) }
    ensures covered { IfOk result (λ covered. (k : ℕ) → k < pieces → get_or covered.items k false ≡ is_covered pairs.now k) }
{
    if pairs.is_empty() {
        let none = vec![in alloc; false; pieces]?;
        return Ok(none);
    }
    let begun = count_openers(alloc, pairs, pieces)?;
    let ended = count_closers(alloc, pairs, pieces)?;
    let mut covered = Vec::with_capacity(alloc, pieces)?;
    let mut depth = 0;
    for piece in 0..pieces {
        depth -= ended[piece];
        covered.push(depth > 0)?;
        depth += begun[piece];
    }
    Ok(covered)
}

// For each of so many pieces, whether it is bold.
fn bold_pieces(alloc: Global, pairs: &[Pair], pieces: usize) -> Result<Vec<bool>, AllocError>
    requires { All (IsWithin pieces) pairs.now }
    ensures size { IfOk result (λ covered. length covered.items ≡ pieces) }
    ensures covered { IfOk result (λ covered. (k : ℕ) → k < pieces → get_or covered.items k false ≡ is_covered (filter is_bold pairs.now) k) }
{
    let pairs: Vec<Pair> = pairs
        .iter()
        .copied()
        .filter(|pair| is_bold(pair))
        .collect(alloc)?;
    covered(alloc, &pairs, pieces)
}

// For each of so many pieces, whether it is italic.
fn italic_pieces(alloc: Global, pairs: &[Pair], pieces: usize) -> Result<Vec<bool>, AllocError>
    requires { All (IsWithin pieces) pairs.now }
    ensures size { IfOk result (λ covered. length covered.items ≡ pieces) }
    ensures covered { IfOk result (λ covered. (k : ℕ) → k < pieces → get_or covered.items k false ≡ is_covered (filter is_italic pairs.now) k) }
{
    let pairs: Vec<Pair> = pairs
        .iter()
        .copied()
        .filter(|pair| is_italic(pair))
        .collect(alloc)?;
    covered(alloc, &pairs, pieces)
}

// For each of so many pieces, whether it is struck out.
fn strikeout_pieces(alloc: Global, pairs: &[Pair], pieces: usize) -> Result<Vec<bool>, AllocError>
    requires { All (IsWithin pieces) pairs.now }
    ensures size { IfOk result (λ covered. length covered.items ≡ pieces) }
    ensures covered { IfOk result (λ covered. (k : ℕ) → k < pieces → get_or covered.items k false ≡ is_covered (filter is_strikeout pairs.now) k) }
{
    let pairs: Vec<Pair> = pairs
        .iter()
        .copied()
        .filter(|pair| is_strikeout(pair))
        .collect(alloc)?;
    covered(alloc, &pairs, pieces)
}

/// How each of so many pieces of a text is shown.
///
/// Pieces are the runs of marks and what lies between them. The pairs name their runs by the indices of the pieces.
///
/// # Errors
///
/// Out of memory is the only error.
pub fn flag_pieces(alloc: Global, pairs: &[Pair], pieces: usize) -> Result<Vec<Flags>, AllocError>
    requires { All (IsWithin pieces) pairs.now }
    ensures { IfOk result (λ flags. flags.items ≡ flags_of pieces pairs.now) }
{
    if pairs.is_empty() {
        let none = Flags {
            bold: false,
            italic: false,
            strikeout: false,
        };
        let flags = vec![in alloc; none; pieces]?;
        return Ok(flags);
    }
    let bold = bold_pieces(alloc, pairs, pieces)?;
    let italic = italic_pieces(alloc, pairs, pieces)?;
    let strikeout = strikeout_pieces(alloc, pairs, pieces)?;
    let mut flags = Vec::with_capacity(alloc, pieces)?;
    for piece in 0..pieces {
        flags.push(Flags {
            bold: bold[piece],
            italic: italic[piece],
            strikeout: strikeout[piece],
        })?;
    }
    Ok(flags)
}
