//! Parts of compounds that may be cut in the middle.

ghost use Rattle.std.specs.Prelude.{◌≡◌, ◌<◌, ◌≤◌, [], ◌∷◌, chars, IfNone, IfSome, min};
ghost use Rattle.std.specs.Str.{IsCharBoundary};
ghost use Rattle.mad_measure.specs.TextColumns.{columns};
ghost use Rattle.mad_fitting.specs.CenteredCuts.{inside_chars};
ghost use Rattle.mad_fitting.specs.Cuts.{IsPartOf};
ghost use Rattle.mad_fitting.specs.Zones.{IsNextRun, AreRunsFrom, may_be_cut};
ghost use Rattle.mad_fitting.specs.Parts.{whole_of};

use crate::centered::{first_char, last_char};
use crate::fronts::solid_front;
use mad_md::Compound;
use mad_measure::columns;

/// The columns that a run has at least, to be cut.
pub const LEAST_COLUMNS: usize = 3;

/// The bytes that a run has at least, to be cut.
pub const LEAST_BYTES: usize = 5;

/// A part of a compound.
#[derive(Clone, Copy, Debug, PartialEq, Eq)]
pub struct Run {
    /// The number of its compound.
    pub compound: usize,
    /// Its first byte in that.
    pub start: usize,
    /// The byte after it.
    pub end: usize,
    /// The columns that it is compared by.
    pub columns: usize,
}

/// The next run of a compound, from a byte on. Whitespace ends one in code too.
pub(crate) fn next_run(number: usize, compound: Compound, at: usize) -> Option<Run>
    requires { IsCharBoundary compound.src.now at }
    ensures part { IfSome result (λ run. IsPartOf number compound.entry run) }
    ensures further { IfSome result (λ run. at < run.end) }
    ensures next { IfSome result (IsNextRun number compound.entry.src.now at) }
    ensures last { IfNone result (AreRunsFrom number compound.entry.src.now at []) }
{
    let rest = compound.src[at..].trim_start();
    if rest.is_empty() {
        return None;
    }
    let front = solid_front(rest);
    let start = compound.src.len() - rest.len();
    Some(Run {
        compound: number,
        start,
        end: start + front.bytes,
        columns: front.columns,
    })
}

pub(crate) fn may_be_cut(run: Run) -> bool
    requires { run.start ≤ run.end }
    ensures { result ≡ may_be_cut run }
{
    run.columns >= LEAST_COLUMNS && run.end - run.start >= LEAST_BYTES
}

/// A compound as a part that may be cut, compared by the columns of its inside: all but its first and last character.
pub(crate) fn whole(compound: Compound) -> Option<Run>
    ensures some { IfSome result (λ run. whole_of compound.entry.src.now ≡ run ∷ []) }
    ensures none { IfNone result (whole_of compound.entry.src.now ≡ []) }
{
    let inside = inside(compound.src);
    let columns = columns(inside);
    if columns < 2 {
        return None;
    }
    let count = inside.chars().count();
    if count < 2 {
        return None;
    }
    Some(Run {
        compound: 0,
        start: 0,
        end: compound.src.len(),
        columns,
    })
}

/// The columns of a text without its first and last character.
pub(crate) fn inside_columns(text: &str) -> usize
    ensures { result ≡ columns (inside_chars (chars text.now)) }
{
    columns(inside(text))
}

// A text without its first and last character.
fn inside(text: &str) -> &str
    ensures { chars result.now ≡ inside_chars (chars text.entry.now) }
{
    let Some((_first, others)) = first_char(text) else {
        return text;
    };
    match last_char(others) {
        Some((inside, _last)) => inside,
        None => others,
    }
}

/// The number as a `usize`, or the greatest of these.
pub(crate) fn usize_or_most(number: u128) -> usize
    ensures { result ≡ min number 18446744073709551615 }
{
    usize::try_from(number).unwrap_or(usize::MAX)
}
