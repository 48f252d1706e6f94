//! Runs of characters in one style each.

ghost use Rattle.std.specs.Prelude.{◌≡◌};
ghost use Rattle.mad_plain.specs.Runs.{next_runs, first_style};

use crate::pens::{Pen, plain_pen};

/// A style, and how many characters of the line come before its end.
#[derive(Clone, Copy, Debug)]
pub struct StyleRun {
    pub style: Pen,
    pub end: usize,
}

/// The runs from the first one on that ends behind this number.
pub(crate) fn next_runs(runs: &[StyleRun], at: usize) -> &[StyleRun]
    ensures { result.now ≡ next_runs runs.entry.now at }
{
    let mut rest = runs;
    while let [r, more @ ..] = rest {
        if at < r.end {
            return rest;
        }
        rest = more;
    }
    rest
}

/// The style of the first run; without one it is plain.
pub(crate) fn first_style(runs: &[StyleRun]) -> Pen
    ensures { result ≡ first_style runs.now }
{
    if runs.is_empty() {
        plain_pen()
    } else {
        runs[0].style
    }
}
