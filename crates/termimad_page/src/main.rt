//! The program `termimad-page`: pages a Markdown file on the terminal, by keys of standard input.
//!
//! 1. [`call`]: what the arguments ask for.
//! 2. [`skins`]: the skin that a text is shown in.
//! 3. [`failing`]: how a run ends.
//! 4. [`sources`]: files that are read on; [`keys`]: those that a run begins with; [`running`]: a run, over any devices.
#![tactic(auto)]

mod call;
mod failing;
mod keys;
mod running;
mod skins;
mod sources;

ghost use Rattle.std.specs.Prelude.{◌≡◌, MatchResult};
ghost use Rattle.termimad_page.specs.Streams.{HasEnded, HasRunGiven, RefusesGiven, refusal_of_words};

use crate::failing::{Refusal, refuse};
use crate::keys::KeysFirst;
use crate::running::run_sparing;
use mad_frames::Sparing;
use mad_term::{Out, Stream};
use std::io::BufWriter;
use std::process::ExitCode;
use std::{env, io};
use termimad_given::{Folder, NoWords, words_behind_name};
use termimad_words::Failure;

fn main(rt: HostRuntime) -> ExitCode {
    let mut err = Stream::new(rt.stderr());
    ExitCode::from(finish(&rt, env::args(&rt), &mut err))
}

// Runs the program with the arguments that the system gives, and answers its status.
fn finish<E: Out>(rt: &HostRuntime, given: io::Result<env::Args>, err: &mut E) -> u8
    ensures { HasEnded given (E.seen err.old) result (E.seen err.new) }
{
    match run_given(rt, given, err) {
        Ok(status) => status,
        Err(refusal) => refuse(err, refusal),
    }
}

// Keys come from standard input. The screen is drawn on standard output picture by picture, of each what changes; a whole text is written there through a
// buffer, so that no row is a call of the system.
fn run_given<E: Out>(
    rt: &HostRuntime,
    given: io::Result<env::Args>,
    err: &mut E,
) -> Result<u8, Refusal>
    ensures { MatchResult result (λ status. HasRunGiven given (E.seen err.old) status (E.seen err.new))
        (λ refusal. RefusesGiven given refusal × (E.seen err.new ≡ E.seen err.old)) }
{
    let words = match words_behind_name(rt.alloc(), given) {
        Ok(words) => words,
        Err(lacking) => return Err(refusal_of_words(lacking)),
    };
    let Ok(writer) = BufWriter::new(rt.alloc(), io::writer(rt)) else {
        return Err(Refusal::Failed(Failure::Memory));
    };
    let mut keys = KeysFirst::new(Stream::new(rt.reader()));
    let Ok(mut screen) = Sparing::new(rt.alloc(), Stream::new(io::writer(rt)), 0, 0) else {
        return Err(Refusal::Failed(Failure::Memory));
    };
    let mut out = Stream::new(writer);
    let texts = Folder { rt };
    Ok(run_sparing(
        rt.alloc(),
        words.as_slice(),
        &texts,
        &mut keys,
        &mut screen,
        &mut out,
        err,
    ))
}

// Words that aren't UTF-8 are no call.
fn refusal_of_words(lacking: NoWords) -> Refusal
    ensures { result ≡ refusal_of_words lacking }
{
    match lacking {
        NoWords::Undecoded => Refusal::Failed(Failure::Usage),
        NoWords::Memory => Refusal::Failed(Failure::Memory),
    }
}
