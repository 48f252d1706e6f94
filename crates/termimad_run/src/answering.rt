//! Help and the version, which the program tells without reading anything.

ghost use Rattle.std.specs.Prelude.{◌≡◌, MatchResult, map, option_map, string_bytes};
ghost use Rattle.termimad_run.specs.Answering.{HasAnswered, RunsOrAnswers, WritesAnswer, answer_of, answer_to, asks_help, asks_version};

use crate::program::run;
use mad_term::{Out, Source, put_text};
use std::alloc::Global;
use termimad_words::{Failure, refuse};

/// Runs the program as [`run`] does. But where its only argument asks for help or for the version, that is the output, and the input isn't read.
///
/// Statuses are those of [`run`]; of an answer 0, and 1 where the output failed.
pub fn run_or_answer<I: Source, O: Out, E: Out>(
    alloc: Global,
    args: &[String],
    input: &mut I,
    out: &mut O,
    err: &mut E,
) -> u8
    ensures { RunsOrAnswers (map string_bytes args.now)
        (record { input = I.seen input.old; out = O.seen out.old; err = E.seen err.old }) result
        (record { input = I.seen input.new; out = O.seen out.new; err = E.seen err.new }) }
{
    match answer_to(args) {
        Some(text) => answer(out, err, text),
        None => run(alloc, args, input, out, err),
    }
}

// The answer that the arguments ask for.
fn answer_to(args: &[String]) -> Option<&'static str>
    ensures { option_map (λ text. text.now) result ≡ answer_to (map string_bytes args.now) }
{
    match args {
        [word] => answer_of(word.as_str()),
        _ => None,
    }
}

// The answer that a word asks for.
#[tactic(auto, unfolding(crate::specs::Answering::help_text))]
fn answer_of(word: &str) -> Option<&'static str>
    ensures { option_map (λ text. text.now) result ≡ answer_of word.now }
{
    if asks_help(word) {
        Some(HELP)
    } else if asks_version(word) {
        Some("termimad-view 0.3.0\n")
    } else {
        None
    }
}

// Whether a word asks for help.
fn asks_help(word: &str) -> bool
    ensures { result ≡ asks_help word.now }
{
    word == "-h" || word == "--help"
}

// Whether a word asks for the version.
fn asks_version(word: &str) -> bool
    ensures { result ≡ asks_version word.now }
{
    word == "-V" || word == "--version"
}

// Writes an answer, and answers the status; a failure is said.
fn answer<O: Out, E: Out>(out: &mut O, err: &mut E, text: &str) -> u8
    ensures { HasAnswered text.now (O.seen out.old) (E.seen err.old) result (O.seen out.new) (E.seen err.new) }
{
    match write_answer(out, text) {
        Ok(()) => 0,
        Err(failure) => refuse(err, failure),
    }
}

// Writes an answer, and flushes the output.
fn write_answer<O: Out>(out: &mut O, text: &str) -> Result<(), Failure>
    ensures { WritesAnswer text.now (O.seen out.old) result (O.seen out.new) }
{
    put_text(out, text)?;
    out.flush()?;
    Ok(())
}

// The page of help.
const HELP: &str = "Reads a text from standard input, and writes it laid out in W columns.

termimad-view markdown W [SKIN]         Markdown as people write it
termimad-view code LANG W [SKIN]        code; LANG is a language, or a file
termimad-view text W [SKIN]             the smaller grammar, line by line
termimad-view inline [SKIN]             the same, as one line with its marks
termimad-view area L T W H [SKIN]       the same, in an area of the screen
termimad-view markdown-stream W [SKIN]  what markdown writes, as the text comes
termimad-view live-markdown W H [SKIN]  the same in H rows, redrawn in place
termimad-view stream W [SKIN]           what text writes, as the text comes
termimad-view live W H [SKIN]           the same in H rows, redrawn in place
termimad-view -h, --help                this page
termimad-view -V, --version             the version

SKIN is default, dark, light, or JSON text as {\"bold\":\"red\"}; of Markdown and
of code it is sixteen and none too. Without it no style is written.
";
