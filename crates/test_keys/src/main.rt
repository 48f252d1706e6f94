//! What the crates of the terminal answer, by the rows of the files in `data/`: styles as texts, bytes, devices, screens, keys.
//!
//! In the order of the work:
//!
//! 1. [`words`]: styles and numbers of a row.
//! 2. [`texts`]: styles that are read from a text, and written as one.
//! 3. [`bytes`]: what a command, a piece and a repeated text are.
//! 4. [`queued`]: what each writing call writes. [`devices`]: devices that fail, and those of the standard library.
//! 5. [`screens`]: what a screen shows of bytes, and what leads from one screen to another.
//! 6. [`frames`]: what a frame sends, and what a terminal for tests says of a picture.
//! 7. [`sparing`]: what a device sends that sends only what changes.
//! 8. [`tables`]: margins, indents and borders.
//! 9. [`keys`]: what a terminal sends, and the events that it is. [`blocks`]: the bytes of a block. [`events`], [`event_words`]: an event as a
//!    word, and the event of a word.
#![tactic(auto)]

mod blocks;
mod bytes;
mod devices;
mod event_words;
mod events;
mod frames;
mod keys;
mod queued;
mod screens;
mod sparing;
mod tables;
mod texts;
mod words;

use std::alloc::{AllocError, Global};
use std::io;
use test_rows::Calls;

struct TerminalCalls;

impl Calls for TerminalCalls {
    fn answer(&self, alloc: Global, call: &str, text: &str) -> Result<String, AllocError> {
        let (name, rest) = call.split_once(' ').unwrap_or((call, ""));
        match name {
            "read" => keys::read(alloc, text),
            "read_repeated" => keys::read_repeated(alloc, rest, text),
            "event_bytes" => keys::written(alloc, text),
            "screen" => screens::screen(alloc, rest, text, true),
            "changes" => screens::changed(alloc, rest, text),
            "frame" => frames::framed(alloc, rest, text),
            "terminal" => frames::compared(alloc, rest, text),
            "sparing" => sparing::spared(alloc, rest, text),
            "cursor" => screens::screen(alloc, rest, text, false),
            "margins" => tables::margins(alloc, rest),
            "written_margins" => tables::written_margins(alloc, rest),
            "indent" => tables::indent(alloc, rest),
            "borders" => tables::borders(alloc, rest),
            _ => texts::answer(alloc, name, rest, text),
        }
    }
}

fn main(rt: HostRuntime) -> io::Result<()> {
    test_rows::run(&rt, &TerminalCalls)
}
