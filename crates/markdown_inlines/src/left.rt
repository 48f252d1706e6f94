//! Which marks no pair takes: they are text.

ghost use Rattle.std.specs.Prelude.{◌≡◌, ℕ, ◌-◌, IfOk, length, map, slice_index};
ghost use Rattle.std.specs.List.{All};
ghost use Rattle.markdown_emphasis.specs.Pairs.{IsWithin};
ghost use Rattle.markdown_emphasis.specs.Left.{takes, taken_at};
ghost use Rattle.markdown_inlines.specs.Left.{marks_of, piece_marks};

use markdown_emphasis::Pair;
use markdown_pieces::pieces::{Kind, Piece};
use std::alloc::{AllocError, Global};

fn marks_of(kind: &Kind) -> usize
    ensures { result ≡ marks_of kind.now }
{
    match kind {
        Kind::Run(run) => run.count,
        _ => 0,
    }
}

// How many marks each piece has.
fn marks(alloc: Global, pieces: &[Piece]) -> Result<Vec<usize>, AllocError>
    ensures { IfOk result (λ marks. marks.items ≡ map piece_marks pieces.now) }
{
    pieces
        .iter()
        .map(|piece| marks_of(&piece.kind))
        .collect(alloc)
}

// Takes the marks of a pair.
fn take_marks(left: &mut [usize], pair: &Pair)
    requires { IsWithin (length left.old) pair.now }
    ensures { (k : ℕ) → slice_index left.new k ≡ slice_index left.old k - takes k pair.now }
{
    left[pair.opener] = left[pair.opener].saturating_sub(pair.count);
    left[pair.closer] = left[pair.closer].saturating_sub(pair.count);
}

/// How many marks of each piece are left.
///
/// # Errors
///
/// Out of memory is the only error.
pub fn left_of(alloc: Global, pieces: &[Piece], pairs: &[Pair]) -> Result<Vec<usize>, AllocError>
    requires { All (IsWithin (length pieces.now)) pairs.now }
    ensures size { IfOk result (λ left. length left.items ≡ length pieces.now) }
    ensures left { IfOk result (λ left. (k : ℕ) → slice_index left.items k ≡ slice_index (map piece_marks pieces.now) k - taken_at pairs.now k) }
{
    let mut left = marks(alloc, pieces)?;
    for pair in pairs {
        take_marks(&mut left, pair);
    }
    Ok(left)
}
