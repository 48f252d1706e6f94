//! A run of the program, over any devices.

ghost use Rattle.std.specs.Prelude.{◌≡◌, ◌↔◌, ◌⊎◌, MatchResult, map, string_bytes};
ghost use Rattle.termimad_run.specs.Calls.{IsNoCall, AsksRefusedSkin};
ghost use Rattle.termimad_run.specs.ProgramRuns.{Starts, FailsToStart, RunsTo, HasRun};

use crate::call::{Call, parse_call, pieces_of};
use crate::input::read_all;
use crate::notice::say_unknown;
use crate::stream_failure::streamed_failure;
use crate::writing::{write_as_it_comes, write_call};
use mad_term::{Out, Source};
use std::alloc::Global;
use termimad_words::{Failure, refuse};

/// Runs the program on its arguments, without its own name, and answers its status.
///
/// The arguments are checked first, then the skin, whose unknown keys are said on `err`. Then the input is read whole
/// and decoded, and then the output is written and flushed; those of text that comes write and flush as it does. A failure is said on
/// `err`, in one line; a fault of `err` changes no status. Statuses are 0, and of a failure 1 to 5.
pub fn run<I: Source, O: Out, E: Out>(
    alloc: Global,
    args: &[String],
    input: &mut I,
    out: &mut O,
    err: &mut E,
) -> u8
    ensures run { HasRun (map string_bytes args.now)
        (record { input = I.seen input.old; out = O.seen out.old; err = E.seen err.old }) result
        (record { input = I.seen input.new; out = O.seen out.new; err = E.seen err.new }) }
    ensures usage { (result ≡ 2) ↔ IsNoCall (map string_bytes args.now) }
    ensures skin { result ≡ 4 → AsksRefusedSkin (map string_bytes args.now) }
    ensures refused { AsksRefusedSkin (map string_bytes args.now) → (result ≡ 4) ⊎ (result ≡ 5) }
{
    match execute(alloc, args, input, out, err) {
        Ok(()) => 0,
        Err(failure) => refuse(err, failure),
    }
}

// Does what the arguments ask for.
fn execute<I: Source, O: Out, E: Out>(
    alloc: Global,
    args: &[String],
    input: &mut I,
    out: &mut O,
    err: &mut E,
) -> Result<(), Failure>
    ensures { RunsTo (map string_bytes args.now)
        (record { input = I.seen input.old; out = O.seen out.old; err = E.seen err.old }) result
        (record { input = I.seen input.new; out = O.seen out.new; err = E.seen err.new }) }
{
    let call = start(alloc, args, err)?;
    if let Some(pieces) = pieces_of(&call.command) {
        match write_as_it_comes(alloc, input, out, &call.skin, pieces) {
            Ok(()) => return Ok(()),
            Err(e) => return Err(streamed_failure(e)),
        }
    }
    let bytes = read_all(alloc, input)?;
    let Ok(text) = simdutf8::from_utf8_baseline(bytes.as_slice()) else {
        return Err(Failure::NotUtf8);
    };
    write_call(alloc, out, &call.skin, &call.command, text)?;
    out.flush()?;
    Ok(())
}

// What the arguments ask for. The unknown keys of its skin are said.
#[tactic(auto, using(crate::proofs::SkinWords::json_asked))]
fn start<'w, E: Out>(alloc: Global, args: &'w [String], err: &mut E) -> Result<Call<'w>, Failure>
    ensures { MatchResult result
        (λ call. Starts (map string_bytes args.now) (E.seen err.old) call.command call.skin
        (map string_bytes call.unknown.items) (E.seen err.new))
        (λ failure. FailsToStart (map string_bytes args.now) (E.seen err.old) failure (E.seen err.new)) }
{
    let call = parse_call(alloc, args)?;
    say_unknown(alloc, err, call.unknown.as_slice())?;
    Ok(call)
}
