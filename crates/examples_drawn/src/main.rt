//! Examples of what programs draw, each a module that runs by itself: `rt try -- report`. Without a name all run, in order, each behind a line with
//! its name.
//!
//! 1. [`inline`], [`status_line`]: lines.
//! 2. [`report`]: a table made from data.
//! 3. [`dialog`], [`panes`], [`scroll`], [`form`]: screens.
//! 4. [`live`]: a text that comes word by word.
//! 5. [`custom_device`]: a device of one's own.
#![tactic(auto)]

mod custom_device;
mod dialog;
mod form;
mod inline;
mod live;
mod panes;
mod report;
mod scroll;
mod status_line;

use std::env;
use std::io::{Error as IoError, ErrorKind};
use termimad::Error;

const NAMES: [&str; 9] = [
    "inline",
    "status_line",
    "report",
    "dialog",
    "panes",
    "scroll",
    "form",
    "live",
    "custom_device",
];

fn main(rt: HostRuntime) -> Result<(), Error> {
    let mut words = env::args(&rt)?.skip(1);
    if let Some(name) = words.next() {
        return run(&rt, name.as_str());
    }
    for name in &NAMES {
        println!(rt; "\n--- {name}")?;
        run(&rt, name)?;
    }
    Ok(())
}

// Runs the example of that name.
fn run(rt: &HostRuntime, name: &str) -> Result<(), Error> {
    match name {
        "inline" => inline::run(rt),
        "status_line" => status_line::run(rt),
        "report" => report::run(rt),
        "dialog" => dialog::run(rt),
        "panes" => panes::run(rt),
        "scroll" => scroll::run(rt),
        "form" => form::run(rt),
        "live" => live::run(rt),
        "custom_device" => custom_device::run(rt),
        _ => Err(unknown()),
    }
}

fn unknown() -> Error {
    Error::from(IoError::new(ErrorKind::InvalidInput, "there is no example of that name"))
}
