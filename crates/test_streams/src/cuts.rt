//! Each cut of a text, devices that fail after each byte, and sources.

use crate::Asked;
use crate::pieces::ROOM;
use mad_screen::{CutOut, ScriptSource};
use mad_stream::{SourceError, TextStream, cut_text, write_source_on};
use mad_term::Error;
use std::alloc::AllocError;

/// The rows of the whole, and whether they go out wherever the text is cut in two.
pub fn at_each_byte(asked: &Asked) -> Result<String, AllocError> {
    let alloc = asked.alloc;
    let whole = whole_rows(asked)?;
    let bytes = asked.text.as_bytes();
    for cut in 0..bytes.len() {
        let mut stream = TextStream::new(alloc, &asked.skin, asked.width);
        let mut out = CutOut::new(alloc, ROOM, ROOM, false)?;
        let (front, _) = cut_text(bytes.get(..cut).unwrap_or(&[]));
        let (rest, _) = cut_text(bytes.get(front.len()..).unwrap_or(&[]));
        for piece in [front, rest] {
            feed_twice(asked, &mut stream, &mut out, piece)?;
        }
        if stream.finish(alloc, &mut out).is_err() {
            return Err(AllocError);
        }
        if out.taken() != whole.taken() {
            return format!(in alloc; "cut at byte {cut} it has other rows");
        }
    }
    let rows = str::from_utf8(whole.taken()).unwrap_or("no text");
    format!(in alloc; "{rows}so cut at each of {} bytes", bytes.len())
}

// Feeds a piece, and what was refused of it once more: memory that is refused once loses nothing, and nothing goes out twice.
fn feed_twice(
    asked: &Asked,
    stream: &mut TextStream,
    out: &mut CutOut,
    piece: &str,
) -> Result<(), AllocError> {
    let (taken, fed) = stream.feed(asked.alloc, out, piece);
    if fed.is_ok() {
        return Ok(());
    }
    let (_, fed) = stream.feed(asked.alloc, out, piece.get(taken..).unwrap_or(""));
    fed.map_err(|_| AllocError)
}

/// The rows of the whole text.
pub fn whole_rows(asked: &Asked) -> Result<CutOut, AllocError> {
    let mut out = CutOut::new(asked.alloc, ROOM, ROOM, false)?;
    match asked
        .skin
        .write_parts_on(asked.alloc, &mut out, asked.text, asked.width)
    {
        Ok(()) => Ok(out),
        Err(_) => Err(AllocError),
    }
}

/// Whether all rows go out, in pieces of so many bytes, where a device fails after each count of bytes and another takes its place.
pub fn gone_on_with(asked: &Asked) -> Result<String, AllocError> {
    let alloc = asked.alloc;
    let whole = whole_rows(asked)?;
    let count = whole.taken().len();
    for room in 0..count {
        let mut first = CutOut::new(alloc, ROOM, room, false)?;
        let mut second = CutOut::new(alloc, ROOM, ROOM, false)?;
        let ended = feed_both(asked, &mut first, &mut second)?;
        let (front, rest) = whole.taken().split_at(room);
        let is_kept = first.taken() == front && (second.taken() == rest || !ended);
        if !is_kept {
            return format!(in alloc; "a device that fails after {room} bytes goes wrong");
        }
    }
    let rows = str::from_utf8(whole.taken()).unwrap_or("no text");
    format!(in alloc; "{rows}gone on with after each of {count} bytes")
}

// Feeds the text to a device that fails, and what it didn't take to another one. Whether the first failed before the end: what fails there
// is lost, as the stream is gone.
fn feed_both(asked: &Asked, first: &mut CutOut, second: &mut CutOut) -> Result<bool, AllocError> {
    let [size, _] = asked.numbers;
    let mut stream = TextStream::new(asked.alloc, &asked.skin, asked.width);
    let mut has_failed = false;
    let mut at = 0;
    let mut due = size;
    for (end, _) in asked.text.char_indices() {
        if end >= due {
            due = end.saturating_add(size);
            let piece = asked.text.get(at..end).unwrap_or("");
            let taken = feed_one(asked, &mut stream, first, second, &mut has_failed, piece)?;
            at = at.saturating_add(taken);
        }
    }
    for _ in 0..2 {
        let piece = asked.text.get(at..).unwrap_or("");
        let taken = feed_one(asked, &mut stream, first, second, &mut has_failed, piece)?;
        at = at.saturating_add(taken);
    }
    let ended = if has_failed {
        stream.finish(asked.alloc, second)
    } else {
        stream.finish(asked.alloc, first)
    };
    if matches!(ended, Err(Error::Memory)) {
        return Err(AllocError);
    }
    Ok(has_failed && ended.is_ok())
}

// Feeds a piece to the first device, or to the second once the first has failed. How much of it was taken.
fn feed_one(
    asked: &Asked,
    stream: &mut TextStream,
    first: &mut CutOut,
    second: &mut CutOut,
    has_failed: &mut bool,
    piece: &str,
) -> Result<usize, AllocError> {
    let (taken, fed) = if *has_failed {
        stream.feed(asked.alloc, second, piece)
    } else {
        stream.feed(asked.alloc, first, piece)
    };
    match fed {
        Ok(()) => {}
        Err(Error::Memory) => return Err(AllocError),
        Err(_) => *has_failed = true,
    }
    Ok(taken)
}

/// What goes out of a source that gives its bytes in steps, and how that ended. It may fail at its end; `<ff>` is a byte that no text has.
pub fn source(asked: &Asked) -> Result<String, AllocError> {
    let alloc = asked.alloc;
    let [step, fails] = asked.numbers;
    let bytes = source_bytes(asked)?;
    let mut input = ScriptSource::in_steps(&bytes, step, fails > 0);
    let mut out = CutOut::new(alloc, ROOM, ROOM, false)?;
    let written = write_source_on(alloc, &mut input, &mut out, &asked.skin, asked.width);
    let ended = how_it_ended(&written)?;
    let rows = str::from_utf8(out.taken()).unwrap_or("no text");
    format!(in alloc; "{rows}{ended}, {} flushes", out.flushes())
}

/// The bytes of a row's text.
pub fn source_bytes(asked: &Asked) -> Result<Vec<u8>, AllocError> {
    let mut bytes = Vec::new(asked.alloc);
    for (number, part) in asked.text.split("<ff>").enumerate() {
        if number > 0 {
            bytes.push(0xff)?;
        }
        bytes.extend_from_slice(part.as_bytes())?;
    }
    Ok(bytes)
}

/// How writing a source ended, if not out of memory.
pub fn how_it_ended(written: &Result<(), SourceError>) -> Result<&'static str, AllocError> {
    match written {
        Ok(()) => Ok("done"),
        Err(SourceError::Source(_)) => Ok("the source failed"),
        Err(SourceError::Device(_)) => Ok("the device failed"),
        Err(SourceError::NotUtf8) => Ok("not UTF-8"),
        Err(SourceError::Memory) => Err(AllocError),
    }
}
