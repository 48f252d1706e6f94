//! What pairs leave of runs.

ghost use Rattle.std.specs.Prelude.{◌≡◌, ℕ, ◌+◌, ◌<◌, ◌≤◌, IfOk, length, slice_index};
ghost use Rattle.std.specs.List.{All};
ghost use Rattle.markdown_emphasis.specs.Pairs.{IsWithin};
ghost use Rattle.markdown_emphasis.specs.Left.{run_at, takes, taken_at, HasEnough};

use crate::runs::{Pair, Run};
use std::alloc::{AllocError, Global};

// How many marks each run has.
fn counts(alloc: Global, runs: &[Run]) -> Result<Vec<usize>, AllocError>
    ensures size { IfOk result (λ counts. length counts.items ≡ length runs.now) }
    ensures counts { IfOk result (λ counts. (k : ℕ) → k < length runs.now → slice_index counts.items k ≡ (run_at runs.now k).count) }
{
    let mut counts = Vec::new(alloc);
    for run in runs {
        counts.push(run.count)?;
    }
    Ok(counts)
}

// Takes the marks of a pair.
fn take_marks(left: &mut [usize], pair: &Pair)
    requires within { IsWithin (length left.old) pair.now }
    requires opener { pair.now.count ≤ slice_index left.old pair.now.opener }
    requires closer { pair.now.count ≤ slice_index left.old pair.now.closer }
    ensures { (k : ℕ) → slice_index left.new k + takes k pair.now ≡ slice_index left.old k }
{
    left[pair.opener] -= pair.count;
    left[pair.closer] -= pair.count;
}

/// How many marks of each run no pair takes: they are text.
///
/// # Errors
///
/// Out of memory is the only error.
pub fn left_marks(alloc: Global, runs: &[Run], pairs: &[Pair]) -> Result<Vec<usize>, AllocError>
    requires within { All (IsWithin (length runs.now)) pairs.now }
    requires enough { HasEnough runs.now pairs.now }
    ensures size { IfOk result (λ left. length left.items ≡ length runs.now) }
    ensures left { IfOk result (λ left. (k : ℕ) → k < length runs.now → slice_index left.items k + taken_at pairs.now k ≡ (run_at runs.now k).count) }
{
    let mut left = counts(alloc, runs)?;
    for pair in pairs {
        take_marks(&mut left, pair);
    }
    Ok(left)
}
