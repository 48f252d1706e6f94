//! Runs of the program.

use mad_screen::{CutOut, ScriptSource};
use mad_term::Error;
use std::alloc::{AllocError, Global};
use std::io;
use test_rows::devices::Writing;

/// What the program writes to a device with this room, run on words with bars between them; then its status and what it says.
/// The input `<ff>` is a byte that no text has.
pub fn run(alloc: Global, room: usize, words: &str, text: &str) -> Result<String, AllocError> {
    on_input(alloc, room, words, ScriptSource::new(input_of(text), false))
}

/// The same on an input that comes in steps of so many bytes: `STEP WORDS`.
pub fn comes(alloc: Global, call: &str, text: &str) -> Result<String, AllocError> {
    let (step, words) = call.split_once(' ').unwrap_or((call, ""));
    let step = step.parse().unwrap_or(1);
    let input = ScriptSource::in_steps(input_of(text), step, false);
    on_input(alloc, ROOM, words, input)
}

fn on_input(
    alloc: Global,
    room: usize,
    words: &str,
    input: ScriptSource,
) -> Result<String, AllocError> {
    let args = args_of(alloc, words)?;
    let mut input = input;
    let mut out = CutOut::new(alloc, room, room, false)?;
    let mut err = CutOut::new(alloc, ROOM, ROOM, false)?;
    let words = args.as_slice();
    let status = termimad_run::run_or_answer(alloc, words, &mut input, &mut out, &mut err);
    if status == 5 {
        return Err(AllocError);
    }
    told(alloc, status, &out, &err)
}

/// The input that a row says.
pub fn input_of(text: &str) -> &[u8] {
    if text == "<ff>" {
        b"\xff"
    } else {
        text.as_bytes()
    }
}

/// Whether devices that fail get what they should of a run, and whether an input that fails ends it.
pub fn tried(alloc: Global, words: &str, text: &str) -> Result<String, AllocError> {
    let call = ProgramCall {
        args: args_of(alloc, words)?,
        input: input_of(text),
    };
    let devices = test_rows::devices::tried(alloc, &call)?;
    let inputs = call.inputs_tried(alloc)?;
    format!(in alloc; "{devices}\n{inputs}")
}

// The arguments and the input of a run.
#[derive(Drop)]
struct ProgramCall<'a> {
    args: Vec<String>,
    input: &'a [u8],
}

impl Writing for ProgramCall<'_> {
    // A run that ends otherwise than by a fault or out of memory has written all that it had to.
    fn write(&self, alloc: Global, out: &mut CutOut) -> Result<(), Error> {
        match self.status(alloc, self.input, false, out)? {
            1 => Err(Error::IO(io::Error::new(io::ErrorKind::Other, "status 1"))),
            5 => Err(Error::Memory),
            _ => Ok(()),
        }
    }
}

impl ProgramCall<'_> {
    fn status(
        &self,
        alloc: Global,
        input: &[u8],
        fails: bool,
        out: &mut CutOut,
    ) -> Result<u8, AllocError> {
        let mut input = ScriptSource::new(input, fails);
        let mut err = CutOut::new(alloc, ROOM, ROOM, false)?;
        let words = self.args.as_slice();
        Ok(termimad_run::run_or_answer(alloc, words, &mut input, out, &mut err))
    }

    // Tries inputs that fail after each count of bytes: nothing is written then, and it is the fault, if the input is read at all.
    fn inputs_tried(&self, alloc: Global) -> Result<String, AllocError> {
        for (read, _) in self.input.iter().enumerate() {
            let front = self.input.get(..read).unwrap_or(&[]);
            let mut out = CutOut::new(alloc, ROOM, ROOM, false)?;
            let status = self.status(alloc, front, true, &mut out)?;
            if status == 5 {
                return Err(AllocError);
            }
            if !matches!(status, 1 | 2 | 4) || !out.taken().is_empty() {
                return format!(in alloc; "an input that fails after {read} bytes goes wrong");
            }
        }
        format!(in alloc; "inputs cut after each of {} bytes", self.input.len())
    }
}

/// More bytes than the runs of these rows write.
pub const ROOM: usize = 2000;

/// The arguments that words with bars between them are.
pub fn args_of(alloc: Global, words: &str) -> Result<Vec<String>, AllocError> {
    let mut args = Vec::new(alloc);
    if words.is_empty() {
        return Ok(args);
    }
    for word in words.split('|') {
        args.push(String::from_str(alloc, word)?)?;
    }
    Ok(args)
}

/// What went out, the status, and what was said.
pub fn told(alloc: Global, status: u8, out: &CutOut, err: &CutOut) -> Result<String, AllocError> {
    let out = str::from_utf8(out.taken()).unwrap_or("no text");
    let err = str::from_utf8(err.taken()).unwrap_or("no text");
    let end = if out.is_empty() || out.ends_with('\n') {
        ""
    } else {
        "\n"
    };
    format!(in alloc; "{out}{end}status {status}\n{err}")
}
