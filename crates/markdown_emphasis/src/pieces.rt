//! The runs among the pieces of a text.

ghost use Rattle.std.specs.Prelude.{◌≡◌, ℕ, ◌<◌, IfOk, length, map, slice_index};
ghost use Rattle.std.specs.List.{All};
ghost use Rattle.markdown_emphasis.specs.Pairs.{IsWithin};
ghost use Rattle.markdown_emphasis.specs.Pieces.{places_of, runs_of, moved, flagged};

use crate::flags::{Flags, flag_pieces};
use crate::matcher::matches;
use crate::runs::{Pair, Run};
use std::alloc::{AllocError, Global};

// Which pieces are runs.
fn places_of(alloc: Global, pieces: &[Option<Run>]) -> Result<Vec<usize>, AllocError>
    ensures { IfOk result (λ places. places.items ≡ places_of pieces.now) }
{
    let mut places = Vec::new(alloc);
    for place in 0..pieces.len() {
        if pieces[place].is_some() {
            places.push(place)?;
        }
    }
    Ok(places)
}

// The runs among pieces.
fn runs_of(alloc: Global, pieces: &[Option<Run>]) -> Result<Vec<Run>, AllocError>
    ensures { IfOk result (λ runs. runs.items ≡ runs_of pieces.now) }
{
    let mut runs = Vec::new(alloc);
    for place in 0..pieces.len() {
        if let Some(run) = pieces[place] {
            runs.push(run)?;
        }
    }
    Ok(runs)
}

// Pairs of runs as pairs of pieces.
fn moved(alloc: Global, pairs: &[Pair], places: &[usize]) -> Result<Vec<Pair>, AllocError>
    requires { All (IsWithin (length places.now)) pairs.now }
    ensures { IfOk result (λ found. found.items ≡ map (moved places.now) pairs.now) }
{
    let mut found = Vec::new(alloc);
    for pair in pairs {
        found.push(Pair {
            opener: places[pair.opener],
            closer: places[pair.closer],
            sign: pair.sign,
            count: pair.count,
        })?;
    }
    Ok(found)
}

/// How each piece of a text is shown, where some pieces are runs of marks.
///
/// # Errors
///
/// Out of memory is the only error.
pub fn flag_runs(alloc: Global, pieces: &[Option<Run>]) -> Result<Vec<Flags>, AllocError>
    ensures { IfOk result (λ flags. flags.items ≡ flagged pieces.now) }
{
    let places = places_of(alloc, pieces)?;
    let runs = runs_of(alloc, pieces)?;
    let pairs = matches(alloc, &runs)?;
    let pairs = moved(alloc, &pairs, &places)?;
    flag_pieces(alloc, &pairs, pieces.len())
}
