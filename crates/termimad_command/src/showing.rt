//! The texts of a call, one after the other.

ghost use Rattle.std.specs.Prelude.{◌≡◌, map, option_map, MatchResult};
ghost use Rattle.termimad_options.specs.Calls.{reading_of};
ghost use Rattle.termimad_command.specs.Texts.{AreShown, FailsAmong, IsShown, IsShownWhole, IsUnshown, IsUnshownWhole, comes};
ghost use Rattle.termimad_command.specs.Written.{streams};

use crate::reading::read_text;
use crate::refusals::Refusal;
use crate::writing::{Look, stream_text, write_bytes};
use mad_term::{Out, Source};
use std::alloc::Global;
use termimad_given::Texts;
use termimad_options::{Grammar, grammar_of_file};

/// Writes the texts of names, one after the other, up to the first that fails. Each is read as is said, or else by its name. The input is written as it
/// comes, where that is said, and only then flushed.
///
/// # Errors
///
/// A text can't be read, a fault of the output, or out of memory.
pub(crate) fn show_texts<'a, T: Texts, I: Source, O: Out>(
    alloc: Global,
    look: &Look,
    said: Option<Grammar<'a>>,
    names: &[&'a str],
    texts: &T,
    input: &mut I,
    out: &mut O,
) -> Result<(), Refusal<'a>>
    ensures { MatchResult result
        (λ _. AreShown (T.holds texts.now) look.now (option_map reading_of said.entry) (map (λ name. name.now) names.now)
        (streams (I.seen input.old) (O.seen out.old)) (streams (I.seen input.new) (O.seen out.new)))
        (λ refusal. FailsAmong (T.holds texts.now) look.now (option_map reading_of said.entry) (map (λ name. name.now) names.now) refusal
        (streams (I.seen input.old) (O.seen out.old)) (streams (I.seen input.new) (O.seen out.new))) }
{
    for name in names {
        show_text(alloc, look, said, name, texts, input, out)?;
    }
    Ok(())
}

// Writes the text of a name: the input as it comes, where that is said, and any other whole.
fn show_text<'a, T: Texts, I: Source, O: Out>(
    alloc: Global,
    look: &Look,
    said: Option<Grammar<'a>>,
    name: &'a str,
    texts: &T,
    input: &mut I,
    out: &mut O,
) -> Result<(), Refusal<'a>>
    ensures { MatchResult result
        (λ _. IsShown (T.holds texts.now) look.now (option_map reading_of said.entry) name.now
        (streams (I.seen input.old) (O.seen out.old)) (streams (I.seen input.new) (O.seen out.new)))
        (λ refusal. IsUnshown (T.holds texts.now) look.now (option_map reading_of said.entry) name.now refusal
        (streams (I.seen input.old) (O.seen out.old)) (streams (I.seen input.new) (O.seen out.new))) }
{
    if comes(look, name) {
        return stream_text(alloc, look, name, input, out);
    }
    show_whole(alloc, look, said, name, texts, input, out)
}

// Whether a text is the input, and is written as it comes.
fn comes(look: &Look, name: &str) -> bool
    ensures { result ≡ comes look.now name.now }
{
    look.streams && name == "-"
}

// Reads the text of a name whole, and writes it.
fn show_whole<'a, T: Texts, I: Source, O: Out>(
    alloc: Global,
    look: &Look,
    said: Option<Grammar<'a>>,
    name: &'a str,
    texts: &T,
    input: &mut I,
    out: &mut O,
) -> Result<(), Refusal<'a>>
    ensures { MatchResult result
        (λ _. IsShownWhole (T.holds texts.now) look.now (option_map reading_of said.entry) name.now
        (streams (I.seen input.old) (O.seen out.old)) (streams (I.seen input.new) (O.seen out.new)))
        (λ refusal. IsUnshownWhole (T.holds texts.now) look.now (option_map reading_of said.entry) name.now refusal
        (streams (I.seen input.old) (O.seen out.old)) (streams (I.seen input.new) (O.seen out.new))) }
{
    let bytes = read_text(alloc, texts, input, name)?;
    let grammar = grammar_of_file(said, name);
    write_bytes(alloc, out, look, grammar, bytes.as_slice())
}
