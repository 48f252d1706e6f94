//! The program `termimad-view`: connects the standard streams to [`run_or_answer`](termimad_run::run_or_answer).
#![tactic(auto)]

ghost use Rattle.std.specs.Prelude.{◌≡◌, MatchResult};
ghost use Rattle.termimad_view.specs.Streams.{HasEnded, HasRunGiven, RefusesGiven, failure_of_words};

use mad_term::{Out, Stream};
use std::io::BufWriter;
use std::process::ExitCode;
use std::{env, io};
use termimad_given::{NoWords, words_behind_name};
use termimad_run::run_or_answer;
use termimad_words::{Failure, refuse};

fn main(rt: HostRuntime) -> ExitCode {
    let mut err = Stream::new(rt.stderr());
    ExitCode::from(finish(&rt, env::args(&rt), &mut err))
}

// Runs the program with the arguments that the system gives, and answers its status.
fn finish<E: Out>(rt: &HostRuntime, given: io::Result<env::Args>, err: &mut E) -> u8
    ensures { HasEnded given (E.seen err.old) result (E.seen err.new) }
{
    match run_given(rt, given, err) {
        Ok(status) => status,
        Err(failure) => refuse(err, failure),
    }
}

// Writes through a buffer, so that no row is a call of the system; the input is read by blocks.
fn run_given<E: Out>(
    rt: &HostRuntime,
    given: io::Result<env::Args>,
    err: &mut E,
) -> Result<u8, Failure>
    ensures { MatchResult result (λ status. HasRunGiven given (E.seen err.old) status (E.seen err.new))
        (λ failure. RefusesGiven given failure × (E.seen err.new ≡ E.seen err.old)) }
{
    let args = match words_behind_name(rt.alloc(), given) {
        Ok(args) => args,
        Err(lacking) => return Err(failure_of_words(lacking)),
    };
    let Ok(writer) = BufWriter::new(rt.alloc(), io::writer(rt)) else {
        return Err(Failure::Memory);
    };
    let mut input = Stream::new(rt.reader());
    let mut out = Stream::new(writer);
    let words = args.as_slice();
    Ok(run_or_answer(rt.alloc(), words, &mut input, &mut out, err))
}

// Words that aren't UTF-8 are no call.
fn failure_of_words(lacking: NoWords) -> Failure
    ensures { result ≡ failure_of_words lacking }
{
    match lacking {
        NoWords::Undecoded => Failure::Usage,
        NoWords::Memory => Failure::Memory,
    }
}
