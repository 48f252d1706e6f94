//! What a terminal that scrolls shows of Markdown as people write it that grows.

use crate::Asked;
use crate::live::{behind_size, read, size_in_front};
use crate::paper::Paper;
use crate::pieces::{BETWEEN, ROOM};
use mad_page_skin::PageSkin;
use mad_screen::CutOut;
use markdown_live::LiveMarkdown;
use std::alloc::AllocError;

/// Its rows after each piece, with how many bytes went out, and then at the end.
pub fn after_each(asked: &Asked) -> Result<String, AllocError> {
    let alloc = asked.alloc;
    let [height, _] = asked.numbers;
    let mut told = String::new(alloc);
    let mut paper = Paper::new(alloc, height)?;
    let skin = PageSkin::of(&asked.skin);
    let mut live = LiveMarkdown::new(alloc, &skin, asked.width, height)?;
    for piece in asked.text.split(BETWEEN) {
        let mut out = CutOut::new(alloc, ROOM, ROOM, false)?;
        let piece = go_on_below(&mut live, &mut paper, &mut out, piece)?;
        if live.feed(alloc, &mut out, piece).is_err() {
            return Err(AllocError);
        }
        read(asked, &mut paper, &out, &mut told)?;
        write!(told, "{BETWEEN} {}\n", out.taken().len())?;
    }
    let mut out = CutOut::new(alloc, ROOM, ROOM, false)?;
    if live.finish(alloc, &mut out).is_err() {
        return Err(AllocError);
    }
    read(asked, &mut paper, &out, &mut told)?;
    Ok(told)
}

// Where a piece begins with the size of another screen, the text goes on below. The piece without it.
fn go_on_below<'t>(
    live: &mut LiveMarkdown,
    paper: &mut Paper,
    out: &mut CutOut,
    piece: &'t str,
) -> Result<&'t str, AllocError> {
    let Some((width, height)) = size_in_front(piece) else {
        return Ok(piece);
    };
    if live.go_on_below(out, Some(width), height).is_err() {
        return Err(AllocError);
    }
    paper.resize(height);
    Ok(behind_size(piece))
}
