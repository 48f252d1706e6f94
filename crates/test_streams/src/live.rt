//! What a terminal that scrolls shows of texts that grow.

use crate::Asked;
use crate::cuts::{how_it_ended, source_bytes};
use crate::paper::Paper;
use crate::pieces::{BETWEEN, ROOM};
use mad_screen::{CutOut, ScriptSource};
use mad_stream::{LiveText, show_source_on};
use std::alloc::AllocError;

/// Its rows after each piece, with how many bytes went out, and then at the end.
pub fn after_each(asked: &Asked) -> Result<String, AllocError> {
    let alloc = asked.alloc;
    let [height, _] = asked.numbers;
    let mut told = String::new(alloc);
    let mut paper = Paper::new(alloc, height)?;
    let mut live = LiveText::new(alloc, &asked.skin, asked.width, height);
    for piece in asked.text.split(BETWEEN) {
        let mut out = CutOut::new(alloc, ROOM, ROOM, false)?;
        let piece = go_on_below(asked, &mut live, &mut paper, &mut out, piece)?;
        let (_, fed) = live.feed(alloc, &mut out, piece);
        if fed.is_err() {
            return Err(AllocError);
        }
        read(asked, &mut paper, &out, &mut told)?;
        write!(told, "{BETWEEN} {}\n", out.taken().len())?;
    }
    let mut out = CutOut::new(alloc, ROOM, ROOM, false)?;
    if live.finish(alloc, &mut out).is_err() {
        return Err(AllocError);
    }
    read(asked, &mut paper, &out, &mut told)?;
    Ok(told)
}

// Where a piece begins with the size of another screen, `[W H]`, the text goes on below. The piece without it.
fn go_on_below<'t>(
    asked: &Asked,
    live: &mut LiveText,
    paper: &mut Paper,
    out: &mut CutOut,
    piece: &'t str,
) -> Result<&'t str, AllocError> {
    let Some((width, height)) = size_in_front(piece) else {
        return Ok(piece);
    };
    if live
        .go_on_below(asked.alloc, out, Some(width), height)
        .is_err()
    {
        return Err(AllocError);
    }
    paper.resize(height);
    Ok(behind_size(piece))
}

/// The size of another screen, where a piece begins with `[W H]`.
pub fn size_in_front(piece: &str) -> Option<(usize, usize)> {
    let Some((size, _)) = piece.strip_prefix('[').and_then(|s| s.split_once(']')) else {
        return None;
    };
    let (width, height) = size.split_once(' ').unwrap_or((size, ""));
    match (width.parse(), height.parse()) {
        (Ok(width), Ok(height)) => Some((width, height)),
        _ => None,
    }
}

/// What comes behind such a size.
pub fn behind_size(piece: &str) -> &str {
    match piece.split_once(']') {
        Some((_, rest)) => rest,
        None => piece,
    }
}

/// The terminal reads what went out, and its rows are told.
pub fn read(
    asked: &Asked,
    paper: &mut Paper,
    out: &CutOut,
    told: &mut String,
) -> Result<(), AllocError> {
    let text = str::from_utf8(out.taken()).unwrap_or("no text");
    if !paper.read(asked.alloc, text)? {
        told.push_str("it moves above the screen\n")?;
    }
    paper.tell(told)
}

/// Its rows at the end of a source that gives its bytes in steps, and how that ended.
pub fn source(asked: &Asked) -> Result<String, AllocError> {
    let alloc = asked.alloc;
    let [height, step] = asked.numbers;
    let bytes = source_bytes(asked)?;
    let mut input = ScriptSource::in_steps(&bytes, step, false);
    let mut out = CutOut::new(alloc, ROOM, ROOM, false)?;
    let shown = show_source_on(
        alloc,
        &mut input,
        &mut out,
        &asked.skin,
        asked.width,
        height,
    );
    let ended = how_it_ended(&shown)?;
    let mut told = String::new(alloc);
    read(asked, &mut Paper::new(alloc, height)?, &out, &mut told)?;
    told.push_str(ended)?;
    Ok(told)
}
