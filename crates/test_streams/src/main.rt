//! What texts that come in pieces are laid out as, by the rows of the files in `data/`. In a row's text `¦` stands between two pieces, and `▪` is a
//! byte order mark.
//!
//! A call is `NAME NUMBERS`, of which the first is a width.
//!
//! 1. [`pieces`]: what goes out after each piece, by `TextStream` and by the call that keeps no state.
//! 2. [`cuts`]: each cut of a text, devices that fail after each byte, and sources.
//! 3. [`markdown`]: the same of Markdown as people write it.
//! 4. [`paper`]: a terminal that scrolls. [`live`]: what it shows of texts that grow. [`live_faults`]: the same, of devices that fail.
//!    [`live_markdown`]: of Markdown as people write it.
#![tactic(auto)]

mod cuts;
mod live;
mod live_faults;
mod live_markdown;
mod markdown;
mod paper;
mod pieces;

use mad_layout::MadSkin;
use std::alloc::{AllocError, Global};
use std::io;
use test_rows::Calls;

/// What a row asks for.
#[derive(Drop)]
pub struct Asked<'r> {
    pub alloc: Global,
    pub skin: MadSkin,
    pub width: Option<usize>,
    pub numbers: [usize; 2],
    pub text: &'r str,
}

struct StreamCalls;

impl Calls for StreamCalls {
    fn answer(&self, alloc: Global, call: &str, text: &str) -> Result<String, AllocError> {
        let (name, words) = call.split_once(' ').unwrap_or((call, ""));
        let (width, words) = words.split_once(' ').unwrap_or((words, ""));
        let (first, second) = words.split_once(' ').unwrap_or((words, ""));
        let text: String = text.chars().map(meant).collect(alloc)?;
        let asked = Asked {
            alloc,
            skin: if name == "live_styled" {
                MadSkin::default()
            } else {
                MadSkin::no_style()
            },
            width: Some(width.parse().unwrap_or(0)),
            numbers: [first.parse().unwrap_or(0), second.parse().unwrap_or(0)],
            text: text.as_str(),
        };
        answer_asked(name, &asked)
    }
}

// The character that a sign means.
fn meant(sign: char) -> char {
    match sign {
        '▪' => '\u{feff}',
        _ => sign,
    }
}

fn answer_asked(name: &str, asked: &Asked) -> Result<String, AllocError> {
    match name {
        "pieces" => pieces::went_out(asked),
        "parts" => pieces::parts(asked),
        "cuts" => cuts::at_each_byte(asked),
        "faults" => cuts::gone_on_with(asked),
        "source" => cuts::source(asked),
        "markdown" => markdown::went_out(asked),
        "markdown_cuts" => markdown::at_each_byte(asked),
        "live" | "live_styled" => live::after_each(asked),
        "live_markdown" => live_markdown::after_each(asked),
        "live_faults" => live_faults::gone_on_with(asked),
        "live_source" => live::source(asked),
        _ => String::from_str(asked.alloc, "no such call"),
    }
}

fn main(rt: HostRuntime) -> io::Result<()> {
    test_rows::run(&rt, &StreamCalls)
}
