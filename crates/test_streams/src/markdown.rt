//! Markdown as people write it that comes in pieces.

use crate::Asked;
use crate::pieces::{BETWEEN, ROOM, push_rows};
use mad_page_skin::PageSkin;
use mad_screen::CutOut;
use mad_stream::cut_text;
use mad_term::Error;
use markdown_layout::write_markdown_on;
use markdown_stream::MarkdownStream;
use std::alloc::AllocError;

/// The rows that go out after each piece, and then those at the end.
pub fn went_out(asked: &Asked) -> Result<String, AllocError> {
    let alloc = asked.alloc;
    let mut told = String::new(alloc);
    let mut stream = MarkdownStream::new(alloc, &PageSkin::of(&asked.skin), asked.width);
    for piece in asked.text.split(BETWEEN) {
        let mut out = CutOut::new(alloc, ROOM, ROOM, false)?;
        if stream.feed(alloc, &mut out, piece).is_err() {
            return Err(AllocError);
        }
        push_rows(&mut told, &out)?;
    }
    let mut out = CutOut::new(alloc, ROOM, ROOM, false)?;
    if stream.finish(alloc, &mut out).is_err() {
        return Err(AllocError);
    }
    told.push_str(str::from_utf8(out.taken()).unwrap_or("no text"))?;
    Ok(told)
}

/// Whether the rows of the whole go out wherever the text is cut in two, to a device that fails after each byte and to another one.
pub fn at_each_byte(asked: &Asked) -> Result<String, AllocError> {
    let alloc = asked.alloc;
    let whole = whole_rows(asked)?;
    let bytes = asked.text.as_bytes();
    for cut in 0..bytes.len() {
        let (front, _) = cut_text(bytes.get(..cut).unwrap_or(&[]));
        let (rest, _) = cut_text(bytes.get(front.len()..).unwrap_or(&[]));
        let rows = rows_of(asked, front, rest, cut)?;
        if rows.as_slice() != whole.taken() {
            return format!(in alloc; "cut at byte {cut} it has other rows");
        }
    }
    format!(in alloc; "so cut at each of {} bytes", bytes.len())
}

// What goes out of two pieces, where the first device fails after so many bytes.
fn rows_of(asked: &Asked, front: &str, rest: &str, room: usize) -> Result<Vec<u8>, AllocError> {
    let alloc = asked.alloc;
    let mut stream = MarkdownStream::new(alloc, &PageSkin::of(&asked.skin), asked.width);
    let mut first = CutOut::new(alloc, ROOM, room, false)?;
    let mut second = CutOut::new(alloc, ROOM, ROOM, false)?;
    if let Err(Error::Memory) = stream.feed(alloc, &mut first, front) {
        return Err(AllocError);
    }
    if stream.feed(alloc, &mut second, rest).is_err() {
        return Err(AllocError);
    }
    if stream.finish(alloc, &mut second).is_err() {
        return Err(AllocError);
    }
    let mut rows = Vec::from_slice(alloc, first.taken())?;
    rows.extend_from_slice(second.taken())?;
    Ok(rows)
}

fn whole_rows(asked: &Asked) -> Result<CutOut, AllocError> {
    let mut out = CutOut::new(asked.alloc, ROOM, ROOM, false)?;
    let skin = PageSkin::of(&asked.skin);
    match write_markdown_on(asked.alloc, &mut out, &skin, asked.text, asked.width) {
        Ok(()) => Ok(out),
        Err(_) => Err(AllocError),
    }
}
