//! What a device takes of a drawing.

use crate::drawings::{draw, draws};
use mad_screen::CutOut;
use mad_term::Error;
use std::alloc::{AllocError, Global};
use test_rows::devices::Writing;

/// A device with room for all that a row writes. Its flush fails: a call that flushes would be refused.
pub fn ample(alloc: Global) -> Result<CutOut, AllocError> {
    CutOut::new(alloc, 7, 100_000, true)
}

/// What a device took, after what the call was refused by.
pub fn told(alloc: Global, drawn: Result<(), Error>, out: &CutOut) -> Result<String, AllocError> {
    let taken = String::from_utf8_lossy(alloc, out.taken())?;
    let taken = shortened(alloc, &taken)?;
    match drawn {
        Ok(()) => Ok(taken),
        Err(Error::Memory) => Err(AllocError),
        Err(error) => format!(in alloc; "refused: {error}\n{taken}"),
    }
}

/// All that a call writes.
pub fn taken(alloc: Global, call: &str, text: &str) -> Result<String, AllocError> {
    let mut out = ample(alloc)?;
    let drawn = draw(alloc, &mut out, call, text);
    told(alloc, drawn, &out)
}

// The most of one character in a row that are written out.
const MOST: usize = 20;

// A text in which a character that stands there more than 20 times in a row is written once, with its count in brackets.
fn shortened(alloc: Global, text: &str) -> Result<String, AllocError> {
    let mut short = String::new(alloc);
    let mut last = None;
    let mut count: usize = 0;
    for c in text.chars() {
        if last != Some(c) {
            push_times(&mut short, last, count)?;
            last = Some(c);
            count = 0;
        }
        count = count.saturating_add(1);
    }
    push_times(&mut short, last, count)?;
    Ok(short)
}

// A character `count` times, if there is one.
fn push_times(short: &mut String, c: Option<char>, count: usize) -> Result<(), AllocError> {
    let Some(c) = c else {
        return Ok(());
    };
    if count > MOST {
        return write!(short, "{c}({count})");
    }
    for _done in 0..count {
        short.push(c)?;
    }
    Ok(())
}

/// Whether devices that fail get what they should of what a call writes, or of what is shown on a screen.
pub fn tried(alloc: Global, call: &str, text: &str) -> Result<String, AllocError> {
    let call = call.strip_prefix("screen ").unwrap_or(call);
    if !draws(call.split(' ').next().unwrap_or("")) {
        return String::from_str(alloc, "no device");
    }
    test_rows::devices::tried(alloc, &Drawing { call, text })
}

#[derive(Drop)]
struct Drawing<'a> {
    call: &'a str,
    text: &'a str,
}

impl Writing for Drawing<'_> {
    fn write(&self, alloc: Global, out: &mut CutOut) -> Result<(), Error> {
        draw(alloc, out, self.call, self.text)
    }
}
