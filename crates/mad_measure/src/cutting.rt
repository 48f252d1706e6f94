//! All tokens of compounds, one after the other.

ghost use Rattle.std.specs.Prelude.{◌≡◌, List, IfOk};
ghost use Rattle.mad_measure.specs.Tokens.{AreTokensOf};
ghost use Rattle.mad_measure.specs.TokensLeft.{AreTokensLeft};
ghost use Rattle.mad_measure.specs.declared.tokens.Token.{Token};

use crate::token_cursor::Tokens;
use crate::tokens::Token;
use mad_md::Compound;
use std::alloc::{AllocError, Global};

/// The tokens of the compounds, in order, one after the other.
///
/// They are runs of equal blankness, each as long as possible. One ends also where the next character would make it wider than
/// `max` columns. A character that is itself wider than `max` is a token. An empty compound has none. Neither this call nor the iterator takes
/// memory.
pub fn token_iter<'c, 's>(compounds: &'c [Compound<'s>], max: usize) -> Tokens<'c, 's>
    ensures tokens { (ts : List Token) → AreTokensLeft result ts → AreTokensOf max compounds.now ts }
    ensures all { (ts : List Token) → AreTokensOf max compounds.now ts → AreTokensLeft result ts }
{
    Tokens::new(compounds, max)
}

/// The tokens of the compounds in a list, as [`token_iter`] gives them. One pass over the text.
///
/// # Errors
///
/// Out of memory is the only error.
pub fn tokenize<'s>(
    alloc: Global,
    compounds: &[Compound<'s>],
    max: usize,
) -> Result<Vec<Token<'s>>, AllocError>
    ensures tokens { IfOk result (λ tokens. AreTokensOf max compounds.now tokens.items) }
    ensures only { IfOk result (λ tokens. (others : List Token) → AreTokensOf max compounds.now others → others ≡ tokens.items) }
{
    let mut tokens = Vec::new(alloc);
    for token in token_iter(compounds, max) {
        tokens.push(token)?;
    }
    Ok(tokens)
}
