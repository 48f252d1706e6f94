//! The cursor that hands out tokens.

ghost use Rattle.std.specs.Prelude.{ℕ, ◌<◌, List, [], length, drop, IfSome, IfNone};
ghost use Rattle.std.specs.Iterator.{at_most};
ghost use Rattle.std.specs.Str.{IsCharBoundary};
ghost use Rattle.mad_measure.specs.Tokens.{IsTokenAt, AreTokensOf};
ghost use Rattle.mad_measure.specs.TokenPositions.{first_text, AreTokensRest, IsSamePosition};
ghost use Rattle.mad_measure.specs.declared.tokens.Token.{Token};

use crate::tokens::{Token, token_at};
use mad_md::Compound;

/// The tokens of compounds, one after the other.
#[derive(Debug, Drop)]
pub struct Tokens<'c, 's> {
    compounds: &'c [Compound<'s>],
    // the compound that is being cut, and the byte of it at which the next token begins
    at: usize,
    start: usize,
    // the columns that several characters of a token take at most
    max: usize,
    ghost border: { 0 < start → IsCharBoundary (first_text (drop at compounds.now)) start },
}

impl<'c, 's> Tokens<'c, 's> {
    ghost use Rattle.mad_measure.specs.TokensLeft.{AreTokensLeft};

    /// Cuts these compounds, from the beginning of the first on.
    pub(crate) fn new(compounds: &'c [Compound<'s>], max: usize) -> Self
        ensures tokens { (ts : List Token) → AreTokensLeft result ts → AreTokensOf max compounds.now ts }
        ensures all { (ts : List Token) → AreTokensOf max compounds.now ts → AreTokensLeft result ts }
    {
        Tokens {
            compounds,
            at: 0,
            start: 0,
            max,
        }
    }
}

impl<'c, 's> Iterator for Tokens<'c, 's> {
    ghost use Rattle.mad_measure.specs.TokensLeft.{Gives, bytes_left};

    type Item = Token<'s>;

    ghost next_gives = { Gives };

    ghost remaining = { λ s. at_most (bytes_left s) };

    fn next(&mut self) -> Option<Token<'s>> {
        let (at, start) = unfinished(self.compounds, self.at, self.start)?;
        let token = token_from(self.compounds[at], start, self.max);
        self.at = at;
        self.start = token.end_in_compound;
        Some(token)
    }
}

// The token that begins at a byte of the compound.
fn token_from<'s>(compound: Compound<'s>, start: usize, max: usize) -> Token<'s>
    requires inside { start < length compound.src.now }
    requires border { 0 < start → IsCharBoundary compound.src.now start }
    ensures { IsTokenAt max compound.entry start result }
{
    token_at(compound, start, max)
}

// The first position from here on at which a compound has a character: in this compound from `start` on, or at the beginning of
// another.
fn unfinished(compounds: &[Compound], at: usize, start: usize) -> Option<(usize, usize)>
    requires border { 0 < start → IsCharBoundary (first_text (drop at compounds.now)) start }
    ensures inside { IfSome result (λ position. (position.0 < length compounds.now) × (position.1 < length (first_text (drop position.0 compounds.now)))) }
    ensures same { IfSome result (λ position. IsSamePosition start (drop at compounds.now) position.1 (drop position.0 compounds.now)) }
    ensures none { IfNone result ((max : ℕ) → AreTokensRest max start (drop at compounds.now) []) }
{
    let mut at = at;
    let mut start = start;
    while at < compounds.len() {
        if start < compounds[at].src.len() {
            return Some((at, start));
        }
        at += 1;
        start = 0;
    }
    None
}
