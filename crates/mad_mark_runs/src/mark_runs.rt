//! Runs of marks, and the mark of a character by its number.

ghost use Rattle.std.specs.Prelude.{◌≡◌, ◌++◌, chars, replicate, OnErr, OnOk};
ghost use Rattle.mad_mark_runs.specs.Marks.{value_at, blank_value, next_start, count_of};
ghost use Rattle.mad_mark_runs.specs.Values.{AreRising, end_from, run_behind, values_of};

use std::alloc::AllocError;

/// Counted characters that have the same mark: those from the end of the run before up to this number.
#[derive(Clone, Copy, PartialEq, Debug)]
pub struct MarkRun {
    /// The mark; 0 is none.
    pub value: usize,
    /// How many counted characters stand before the next run.
    pub end: usize,
}

/// The mark of the counted character of this number, counted from 0; 0 where it has none.
pub fn value_at(runs: &[MarkRun], number: usize) -> usize
    ensures { result ≡ value_at runs.now number }
{
    for run in runs {
        if number < run.end {
            return run.value;
        }
    }
    0
}

/// The mark of a blank that stands before the counted character of this number: that of the characters beside it, where both have the same.
pub fn blank_value(runs: &[MarkRun], number: usize) -> usize
    ensures { result ≡ blank_value runs.now number }
{
    if number == 0 {
        return 0;
    }
    let value = value_at(runs, number);
    if value_at(runs, number - 1) == value {
        value
    } else {
        0
    }
}

/// The runs from the first one on that ends behind this number.
pub fn next_start(runs: &[MarkRun], number: usize) -> &[MarkRun]
    ensures { result.now ≡ next_start runs.now number }
{
    let mut rest = runs;
    while !rest.is_empty() && rest[0].end <= number {
        rest = &rest[1..];
    }
    rest
}

/// The same of runs that end one behind the other, without walking over those before.
#[tactic(auto, using(crate::proofs::StartLemmas::skipped, crate::proofs::StartLemmas::found))]
pub fn runs_from(runs: &[MarkRun], number: usize) -> &[MarkRun]
    requires { AreRising 0 runs.now }
    ensures { result.now ≡ next_start runs.now number }
{
    let mut low = 0;
    let mut high = runs.len();
    while low < high {
        let middle = low + (high - low) / 2;
        if runs[middle].end <= number {
            low = middle + 1;
        } else {
            high = middle;
        }
    }
    &runs[low..]
}

/// How many characters of a text are counted: those that are no whitespace.
pub fn count_of(text: &str) -> usize
    ensures { result ≡ count_of (chars text.now) }
{
    text.chars().filter(|c| !c.is_whitespace()).count()
}

/// The number at which the last run ends.
pub fn end_of(runs: &[MarkRun]) -> usize
    ensures { result ≡ end_from 0 runs.now }
{
    match runs {
        [.., last] => last.end,
        [] => 0,
    }
}

/// Gives so many more counted characters, after those that the runs have, this value.
///
/// # Errors
///
/// Out of memory, which a count past `usize::MAX` is too. The runs are then as they were.
pub fn push_run(runs: &mut Vec<MarkRun>, value: usize, count: usize) -> Result<(), AllocError>
    requires { AreRising 0 runs.old.items }
    ensures rising { AreRising 0 runs.new.items }
    ensures values { OnOk result (values_of runs.new.items ≡ values_of runs.old.items ++ replicate count value) }
    ensures runs { OnOk result (runs.new.items ≡ runs.old.items ++ run_behind (end_from 0 runs.old.items) value count) }
    ensures kept { OnErr result (runs.new.items ≡ runs.old.items) }
{
    if count == 0 {
        return Ok(());
    }
    let Some(end) = end_of(runs).checked_add(count) else {
        return Err(AllocError);
    };
    runs.push(MarkRun { value, end })?;
    Ok(())
}
