//! The bytes of a text.

ghost use Rattle.std.specs.Prelude.{◌≡◌, MatchResult};
ghost use Rattle.termimad_run.specs.Reading.{ReadsWhole};
ghost use Rattle.termimad_command.specs.Texts.{FailsAtInput, IsReadAs, IsUnread, input_refusal};

use crate::refusals::{Obstacle, Refusal, refusal_reading};
use mad_term::Source;
use std::alloc::Global;
use termimad_given::Texts;
use termimad_run::read_all;
use termimad_words::Failure;

/// The bytes of the text of a name: of the input, which is read to its end, where the name is `-`.
///
/// # Errors
///
/// It can't be read, or out of memory.
pub(crate) fn read_text<'a, T: Texts, I: Source>(
    alloc: Global,
    texts: &T,
    input: &mut I,
    name: &'a str,
) -> Result<Vec<u8>, Refusal<'a>>
    ensures { MatchResult result (λ bytes. IsReadAs (T.holds texts.now) name.now (I.seen input.old) bytes.items (I.seen input.new))
        (λ refusal. IsUnread name.now (I.seen input.old) refusal (I.seen input.new)) }
{
    if name == "-" {
        return read_input(alloc, input, name);
    }
    match texts.read(alloc, name) {
        Ok(bytes) => Ok(bytes),
        Err(e) => Err(refusal_reading(name, &e)),
    }
}

// The bytes of the input, which has that name.
fn read_input<'a, I: Source>(
    alloc: Global,
    input: &mut I,
    name: &'a str,
) -> Result<Vec<u8>, Refusal<'a>>
    ensures { MatchResult result (λ bytes. ReadsWhole (I.seen input.old) bytes.items (I.seen input.new))
        (λ refusal. FailsAtInput name.now (I.seen input.old) refusal (I.seen input.new)) }
{
    match read_all(alloc, input) {
        Ok(bytes) => Ok(bytes),
        Err(failure) => Err(input_refusal(name, failure)),
    }
}

// What makes of a call that the input isn't read, which has that name.
fn input_refusal<'a>(name: &'a str, failure: Failure) -> Refusal<'a>
    ensures { result ≡ input_refusal name.entry failure }
{
    match failure {
        Failure::Memory => Refusal::Memory,
        _ => Refusal::Unreadable(name, Obstacle::Other),
    }
}
