//! What goes out after each piece.

use crate::Asked;
use mad_screen::CutOut;
use mad_stream::{TextStream, write_front_on};
use std::alloc::AllocError;

/// What stands between two pieces, and after the rows that a piece lets out.
pub const BETWEEN: &str = "¦";

/// More bytes than the rows of these texts have.
pub const ROOM: usize = 10_000;

/// The rows that go out after each piece, and then those at the end.
pub fn went_out(asked: &Asked) -> Result<String, AllocError> {
    let alloc = asked.alloc;
    let mut told = String::new(alloc);
    let mut stream = TextStream::new(alloc, &asked.skin, asked.width);
    for piece in asked.text.split(BETWEEN) {
        let mut out = CutOut::new(alloc, ROOM, ROOM, false)?;
        let (_, fed) = stream.feed(alloc, &mut out, piece);
        if fed.is_err() {
            return Err(AllocError);
        }
        push_rows(&mut told, &out)?;
    }
    let mut out = CutOut::new(alloc, ROOM, ROOM, false)?;
    if stream.finish(alloc, &mut out).is_err() {
        return Err(AllocError);
    }
    told.push_str(str::from_utf8(out.taken()).unwrap_or("no text"))?;
    Ok(told)
}

/// The rows that a piece lets out.
pub fn push_rows(told: &mut String, out: &CutOut) -> Result<(), AllocError> {
    told.push_str(str::from_utf8(out.taken()).unwrap_or("no text"))?;
    told.push_str(BETWEEN)?;
    told.push('\n')
}

/// The same by the call that keeps no state: after each piece the caller hands what was left and the piece.
pub fn parts(asked: &Asked) -> Result<String, AllocError> {
    let alloc = asked.alloc;
    let mut told = String::new(alloc);
    let mut left = String::new(alloc);
    let mut fenced = false;
    for piece in asked.text.split(BETWEEN) {
        left.push_str(piece)?;
        let (rows, used, is_open) = front(asked, left.as_str(), fenced, false)?;
        push_rows(&mut told, &rows)?;
        left = String::from_str(alloc, left.as_str().get(used..).unwrap_or(""))?;
        fenced = is_open;
    }
    let (rows, _, _) = front(asked, left.as_str(), fenced, true)?;
    told.push_str(str::from_utf8(rows.taken()).unwrap_or("no text"))?;
    Ok(told)
}

fn front(
    asked: &Asked,
    text: &str,
    fenced: bool,
    is_last: bool,
) -> Result<(CutOut, usize, bool), AllocError> {
    let alloc = asked.alloc;
    let mut out = CutOut::new(alloc, ROOM, ROOM, false)?;
    let written = write_front_on(
        alloc,
        &mut out,
        &asked.skin,
        asked.width,
        text,
        fenced,
        is_last,
    );
    match written {
        Ok((used, is_open)) => Ok((out, used, is_open)),
        Err(_) => Err(AllocError),
    }
}
