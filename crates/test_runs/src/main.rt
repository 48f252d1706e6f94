//! Rows of runs of the program, over any devices.
//!
//! The call `run WORDS` runs the program on words with bars between them. It answers what goes out, the status, and what the program says.
//! `run_in_twenty_bytes` does the same on a device with that room. [`runs`] has both, and devices and inputs that fail. `comes STEP WORDS` does
//! it on an input that comes in steps of so many bytes.
//!
//! The call `command WORDS` runs the command `termimad` so, where standard output is no terminal; [`commands`] has it, and the texts that it finds.
#![tactic(auto)]

mod commands;
mod runs;

use std::alloc::{AllocError, Global};
use std::io;
use test_rows::Calls;

fn main(rt: HostRuntime) -> io::Result<()> {
    test_rows::run(&rt, &RunCalls)
}

struct RunCalls;

impl Calls for RunCalls {
    fn answer(&self, alloc: Global, call: &str, text: &str) -> Result<String, AllocError> {
        let (name, words) = call.split_once(' ').unwrap_or((call, ""));
        match name {
            "run" => runs::run(alloc, runs::ROOM, words, text),
            "run_in_twenty_bytes" => runs::run(alloc, 20, words, text),
            "comes" => runs::comes(alloc, words, text),
            "command" => commands::run(alloc, words, text),
            "devices" => on_devices(alloc, words, text),
            _ => String::from_str(alloc, "no such call"),
        }
    }
}

// Devices and inputs that fail, where the call is `run`.
fn on_devices(alloc: Global, call: &str, text: &str) -> Result<String, AllocError> {
    match call.split_once(' ').unwrap_or((call, "")) {
        ("run", words) => runs::tried(alloc, words, text),
        _ => String::from_str(alloc, "no device"),
    }
}
