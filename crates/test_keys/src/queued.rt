//! What each call that writes in a style writes, and what it is refused by.

use crate::words::{number, style_of};
use crate::{devices, frames};
use mad_screen::CutOut;
use mad_style::{CompoundStyle, LineStyle, StyledChar};
use mad_term::{ClearType, Error};
use std::alloc::{AllocError, Global};
use test_rows::devices::Writing;

/// The answer of a call of this module, or of one of the next.
pub fn answer(alloc: Global, name: &str, rest: &str, text: &str) -> Result<String, AllocError> {
    let (first, words) = rest.split_once(' ').unwrap_or((rest, ""));
    let style = CompoundStyle::from(style_of(words));
    match name {
        "write" => written(alloc, first, style, text),
        "repeat" => repeated(alloc, first, style, text),
        "repeated" => repeated_char(alloc, first, style),
        "devices" => tried(alloc, first, words, text),
        "display" => first_char(style, first).to_string(alloc),
        _ => devices::answer(alloc, name, first, text),
    }
}

/// What a device has taken, after what the call was refused by.
pub fn sent(alloc: Global, written: Result<(), Error>, out: &CutOut) -> Result<String, AllocError> {
    match written {
        Ok(()) => String::from_utf8_lossy(alloc, out.taken()),
        Err(Error::Memory) => Err(AllocError),
        Err(error) => refused(alloc, error, out),
    }
}

fn refused(alloc: Global, error: Error, out: &CutOut) -> Result<String, AllocError> {
    let taken = String::from_utf8_lossy(alloc, out.taken())?;
    format!(in alloc; "refused: {error}\n{taken}")
}

// A device whose flush fails: a call that flushes would be refused.
fn device(alloc: Global) -> Result<CutOut, AllocError> {
    CutOut::new(alloc, 7, 1000, true)
}

fn written(
    alloc: Global,
    call: &str,
    style: CompoundStyle,
    text: &str,
) -> Result<String, AllocError> {
    let mut out = device(alloc)?;
    let written = write_in_style(alloc, &mut out, call, style, text);
    sent(alloc, written, &out)
}

fn write_in_style(
    alloc: Global,
    out: &mut CutOut,
    call: &str,
    style: CompoundStyle,
    text: &str,
) -> Result<(), Error> {
    match call {
        "queue" => style.queue(alloc, out, text),
        "queue_str" => style.queue_str(alloc, out, text),
        "queue_fg" => style.queue_fg(alloc, out),
        "queue_bg" => style.queue_bg(alloc, out),
        "clear" => style.clear(alloc, out, ClearType::UntilNewLine),
        "repeat_string" => LineStyle::from(style).repeat_string(alloc, out, text, 2),
        "repeat_space" => LineStyle::from(style).repeat_space(alloc, out, 3),
        _ => write_char(alloc, out, call, first_char(style, text)),
    }
}

// The first character of a text in a style.
fn first_char(style: CompoundStyle, text: &str) -> StyledChar {
    style.style_char(text.chars().next().unwrap_or('?'))
}

fn write_char(
    alloc: Global,
    out: &mut CutOut,
    call: &str,
    styled: StyledChar,
) -> Result<(), Error> {
    match call {
        "queue_char" => styled.queue(alloc, out),
        "queue_repeat" => styled.queue_repeat(alloc, out, 2),
        _ => LineStyle::from(*styled.compound_style()).repeat_char(
            alloc,
            out,
            styled.get_char(),
            2,
        ),
    }
}

// Whether a text `count` times has more bytes than any memory holds.
fn is_too_long(text: &str, count: usize) -> bool {
    text.len().saturating_mul(count) > usize::MAX / 2
}

// Whether devices that fail get what they should of what a call writes.
fn tried(alloc: Global, name: &str, rest: &str, text: &str) -> Result<String, AllocError> {
    if name == "frame" {
        return frames::tried(alloc, rest, text);
    }
    let (first, words) = rest.split_once(' ').unwrap_or((rest, ""));
    let queued = Queued {
        name,
        first,
        style: CompoundStyle::from(style_of(words)),
        text,
    };
    if !matches!(name, "write" | "repeat" | "commands" | "written_tokens") {
        return String::from_str(alloc, "no device");
    }
    if name == "repeat" && is_too_long(text, queued.count()) {
        return String::from_str(alloc, "too long");
    }
    test_rows::devices::tried(alloc, &queued)
}

// What a call writes.
#[derive(Drop)]
struct Queued<'a> {
    name: &'a str,
    first: &'a str,
    style: CompoundStyle,
    text: &'a str,
}

impl Queued<'_> {
    fn count(&self) -> usize {
        number(Some(self.first)).unwrap_or(0)
    }
}

impl Writing for Queued<'_> {
    fn write(&self, alloc: Global, out: &mut CutOut) -> Result<(), Error> {
        match self.name {
            "write" => write_in_style(alloc, out, self.first, self.style, self.text),
            "repeat" => self
                .style
                .repeat_string(alloc, out, self.text, self.count()),
            "commands" => devices::queue_all(alloc, out),
            _ => devices::write_all(alloc, out),
        }
    }
}

// A text `count` times in a style. Where that is too long, out of memory is the answer.
fn repeated(
    alloc: Global,
    count: &str,
    style: CompoundStyle,
    text: &str,
) -> Result<String, AllocError> {
    let mut out = device(alloc)?;
    let count = number(Some(count)).unwrap_or(0);
    match style.repeat_string(alloc, &mut out, text, count) {
        Err(Error::Memory) if is_too_long(text, count) => refused(alloc, Error::Memory, &out),
        written => sent(alloc, written, &out),
    }
}

// A bullet `count` times in a style, as a text of its own. Where that is too long, out of memory is the answer.
fn repeated_char(alloc: Global, count: &str, style: CompoundStyle) -> Result<String, AllocError> {
    let count = number(Some(count)).unwrap_or(0);
    match style.style_char('•').repeated(alloc, count) {
        Ok(repeated) => repeated.to_string(alloc),
        Err(_) if is_too_long("•", count) => String::from_str(alloc, "want of memory"),
        Err(error) => Err(error),
    }
}
