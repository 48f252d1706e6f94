//! The text of a list of style tokens.

ghost use Rattle.std.specs.Prelude.{◌≡◌, IfOk, IsErrOf, string_bytes};
ghost use Rattle.mad_term.specs.Draws.{Draws};
ghost use Rattle.mad_term.specs.declared.errors.Error.TheVariants.{Memory};
ghost use Rattle.mad_parse.specs.Written.{tokens_text};

use crate::tokens::StyleToken;
use mad_term::{Error, Out, put_text};
use std::alloc::{AllocError, Global};

/// Writes the tokens that have a text, with a space between two.
///
/// # Errors
///
/// A fault of the device, or out of memory before anything went out.
pub fn write_style_tokens<O: Out>(
    alloc: Global,
    out: &mut O,
    tokens: &[StyleToken],
) -> Result<(), Error>
    ensures writes { Draws (O.seen out.old) (tokens_text tokens.now) result (O.seen out.new) }
    ensures early { IsErrOf result Memory → O.seen out.new ≡ O.seen out.old }
{
    let text = style_tokens_to_string(alloc, tokens)?;
    put_text(out, &text)
}

/// The text of the tokens that have one, with a space between two.
///
/// # Errors
///
/// Out of memory.
pub fn style_tokens_to_string(alloc: Global, tokens: &[StyleToken]) -> Result<String, AllocError>
    ensures { IfOk result (λ text. string_bytes text ≡ tokens_text tokens.now) }
{
    let mut text = String::new(alloc);
    let mut first = true;
    for token in tokens {
        if token.has_text() {
            if !first {
                text.push(' ')?;
            }
            first = false;
            write!(text, "{token}")?;
        }
    }
    Ok(text)
}
