//! What the words ask for.

ghost use Rattle.std.specs.Prelude.{◌≡◌, false, map, MatchResult};
ghost use Rattle.clap.specs.Words.{kind_of};
ghost use Rattle.termimad_command.specs.Calls.{Asks, IsToldBy, IsRefusedBy, RefusesCall, asks_more};

use crate::refusals::Refusal;
use clap::Error;
use clap::error::ErrorKind;
use std::alloc::Global;
use termimad_options::{Call, call_of};

/// What words ask for.
#[derive(Drop)]
pub(crate) enum Request<'a> {
    /// To show texts, or to plan that.
    Call(Call<'a>),
    /// Help or the version: the text of that.
    Answer(String),
}

/// What words ask for, of which the first is the program's name.
///
/// # Errors
///
/// What is wrong with the words, what isn't there yet, or out of memory.
pub(crate) fn asked<'a>(alloc: Global, words: &'a [&str]) -> Result<Request<'a>, Refusal<'a>>
    ensures { MatchResult result (Asks (map (λ word. word.now) words.now)) (RefusesCall (map (λ word. word.now) words.now)) }
{
    match call_of(alloc, words) {
        Ok(call) => {
            if asks_more(&call) {
                return Err(Refusal::Lacking);
            }
            Ok(Request::Call(call))
        }
        Err(e) => told(alloc, &e),
    }
}

// Whether a call asks for what isn't there yet: what isn't Markdown as it comes.
fn asks_more(call: &Call) -> bool
    ensures { result ≡ asks_more call.now }
{
    (call.streams || call.lives) && call.grammar.is_some()
}

// What an error tells of words that are no call.
fn told<'a>(alloc: Global, e: &Error) -> Result<Request<'a>, Refusal<'a>>
    ensures { MatchResult result (IsToldBy (kind_of e.now)) (IsRefusedBy (kind_of e.now)) }
{
    let Some(text) = text_of(alloc, e) else {
        return Err(Refusal::Memory);
    };
    match e.kind() {
        ErrorKind::OutOfMemory => Err(Refusal::Memory),
        ErrorKind::DisplayHelp | ErrorKind::DisplayVersion => Ok(Request::Answer(text)),
        _ => Err(Refusal::Mistaken(text)),
    }
}

// The text of an error, if there is memory for it.
fn text_of(alloc: Global, e: &Error) -> Option<String> {
    let mut text = String::new(alloc);
    if write!(text, "{e}").is_err() {
        return None;
    }
    Some(text)
}
