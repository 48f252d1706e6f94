//! A line's characters, each with its style.

ghost use Rattle.std.specs.Prelude.{◌≡◌, ◌+◌, ◌<◌, ◌^◌, true, length, chars};
ghost use Rattle.mad_plain.specs.Runs.{are_within};

use crate::fronts::cut_first;
use crate::pens::Pen;
use crate::runs::{StyleRun, first_style, next_runs};
use crate::shown::PlainLine;

/// What is left of a line's characters.
#[derive(Drop)]
pub struct StyledChars<'a> {
    pub(crate) runs: &'a [StyleRun],
    pub(crate) text: &'a str,
    pub(crate) at: usize,
    ghost ordered: { are_within at runs.now (at + length (chars text.now)) ≡ true },
    ghost few: { at + length text.now < 2 ^ 63 },
}

impl PlainLine<'_> {
    ghost use Rattle.mad_plain.specs.Shown.{rest_of, shown_of};

    /// Its characters, each with its style.
    pub fn chars(&self) -> StyledChars<'_>
        ensures { rest_of result ≡ shown_of self.now }
    {
        StyledChars {
            runs: self.runs.as_slice(),
            text: self.text.as_str(),
            at: 0,
        }
    }
}

impl<'a> StyledChars<'a> {
    ghost use Rattle.std.specs.Prelude.{◌∷◌, [], ◌≤◌, MatchOption, OnSome, IfNone};
    ghost use Rattle.mad_plain.specs.Runs.{styled};
    ghost use Rattle.mad_plain.specs.Shown.{rest_of};

    /// The next character and its style.
    pub fn next(&mut self) -> Option<(Pen, char)>
        ensures cases { MatchOption result (rest_of self.old ≡ []) (λ p. rest_of self.old ≡ styled p.0 p.1 ∷ rest_of self.new) }
        ensures ended { IfNone result (rest_of self.new ≡ []) }
        ensures shorter { OnSome result (length self.new.text.now + 1 ≤ length self.old.text.now) }
    {
        let runs = next_runs(self.runs, self.at);
        match cut_first(self.text) {
            Some((c, text)) => {
                *self = StyledChars {
                    runs,
                    text,
                    at: self.at + 1,
                };
                Some((first_style(runs), c))
            }
            None => None,
        }
    }
}
