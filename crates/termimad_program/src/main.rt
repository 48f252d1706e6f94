//! The program `termimad`: connects the standard streams, the files and the environment to [`run`](termimad_command::run).
//!
//! 1. [`environment`]: what is told of where the call is made.
#![tactic(auto)]

mod environment;

ghost use Rattle.std.specs.Prelude.{◌≡◌, MatchResult};
ghost use Rattle.termimad_program.specs.Streams.{HasEnded, HasRunGiven, RefusesGiven, refusal_of_words};

use crate::environment::{Environment, ask_environment};
use mad_term::{Out, Stream};
use std::alloc::AllocError;
use std::io::BufWriter;
use std::process::ExitCode;
use std::{env, io};
use termimad_command::{Refusal, refuse, run};
use termimad_given::{Folder, NoWords, words_behind_name};
use termimad_options::surroundings_of;

fn main(rt: HostRuntime) -> ExitCode {
    let mut err = Stream::new(rt.stderr());
    ExitCode::from(finish(&rt, env::args(&rt), ask_environment(&rt), &mut err))
}

// Runs the program with the arguments and the environment that the system gives, and answers its status.
fn finish<E: Out>(
    rt: &HostRuntime,
    given: io::Result<env::Args>,
    around: Result<Environment, AllocError>,
    err: &mut E,
) -> u8
    ensures { HasEnded given around (E.seen err.old) result (E.seen err.new) }
{
    match run_given(rt, given, around, err) {
        Ok(status) => status,
        Err(refusal) => refuse(rt.alloc(), err, refusal),
    }
}

// Writes through a buffer, so that no row is a call of the system; the input is read by blocks.
fn run_given<'a, E: Out>(
    rt: &HostRuntime,
    given: io::Result<env::Args>,
    around: Result<Environment, AllocError>,
    err: &mut E,
) -> Result<u8, Refusal<'a>>
    ensures { MatchResult result (λ status. HasRunGiven given around (E.seen err.old) status (E.seen err.new))
        (λ refusal. RefusesGiven given refusal × (E.seen err.new ≡ E.seen err.old)) }
{
    let words = match words_behind_name(rt.alloc(), given) {
        Ok(words) => words,
        Err(lacking) => return Err(refusal_of_words(lacking)),
    };
    let Ok(environment) = around else {
        return Err(Refusal::Memory);
    };
    let Ok(writer) = BufWriter::new(rt.alloc(), io::writer(rt)) else {
        return Err(Refusal::Memory);
    };
    let around = surroundings_of(&environment.told());
    let mut input = Stream::new(rt.reader());
    let mut out = Stream::new(writer);
    let texts = Folder { rt };
    Ok(run(
        rt.alloc(),
        words.as_slice(),
        &around,
        &texts,
        &mut input,
        &mut out,
        err,
    ))
}

// Words that aren't UTF-8 are no call.
fn refusal_of_words<'a>(lacking: NoWords) -> Refusal<'a>
    ensures { result ≡ refusal_of_words lacking }
{
    match lacking {
        NoWords::Undecoded => Refusal::Undecoded,
        NoWords::Memory => Refusal::Memory,
    }
}
