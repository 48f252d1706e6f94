//! Texts that grow on a device that fails, and go on below on another one.

use crate::Asked;
use crate::cuts::whole_rows;
use crate::paper::Paper;
use crate::pieces::ROOM;
use mad_screen::CutOut;
use mad_stream::{LiveText, cut_text};
use mad_term::Error;
use std::alloc::AllocError;

/// Whether nothing is lost where a device fails after each count of bytes and the text goes on below, in pieces of so many bytes. Then the rows
/// from there on are the last of the whole, and the others stand above.
pub fn gone_on_with(asked: &Asked) -> Result<String, AllocError> {
    let alloc = asked.alloc;
    let whole = whole_rows(asked)?;
    let rows = str::from_utf8(whole.taken()).unwrap_or("no text");
    let pieces = pieces_of(asked)?;
    for room in 0..ROOM {
        let mut run = Run::new(asked, room)?;
        for piece in &pieces {
            run.feed(asked, piece)?;
        }
        let Some((first, second)) = run.finish(asked)? else {
            return format!(in alloc; "{rows}gone on with after each byte");
        };
        if !are_shown(asked, rows, &first, &second)? {
            return format!(in alloc; "after {room} bytes rows are lost");
        }
    }
    String::from_str(alloc, "it writes too much")
}

// The text in pieces of so many bytes, each up to the end of a character.
fn pieces_of<'r>(asked: &Asked<'r>) -> Result<Vec<&'r str>, AllocError> {
    let [_, size] = asked.numbers;
    let text = asked.text;
    let mut pieces = Vec::new(asked.alloc);
    let mut begin: usize = 0;
    for (at, _) in text.char_indices() {
        if at >= begin.saturating_add(size) {
            pieces.push(text.get(begin..at).unwrap_or(""))?;
            begin = at;
        }
    }
    pieces.push(text.get(begin..).unwrap_or(""))?;
    Ok(pieces)
}

// A text that grows on a device, and on a second one once that has failed.
#[derive(Drop)]
struct Run {
    live: LiveText,
    first: CutOut,
    second: Option<CutOut>,
}

impl Run {
    // The first device takes so many bytes.
    fn new(asked: &Asked, room: usize) -> Result<Self, AllocError> {
        let [height, _] = asked.numbers;
        Ok(Run {
            live: LiveText::new(asked.alloc, &asked.skin, asked.width, height),
            first: CutOut::new(asked.alloc, ROOM, room, false)?,
            second: None,
        })
    }

    fn feed(&mut self, asked: &Asked, piece: &str) -> Result<(), AllocError> {
        if let Some(second) = &mut self.second {
            let (_, fed) = self.live.feed(asked.alloc, second, piece);
            return fed.map_err(|_| AllocError);
        }
        let (taken, fed) = self.live.feed(asked.alloc, &mut self.first, piece);
        match fed {
            Ok(()) => Ok(()),
            Err(Error::Memory) => Err(AllocError),
            Err(_) => self.go_on_below(asked, piece.get(taken..).unwrap_or("")),
        }
    }

    // The first device has failed: the text goes on below, with the rest of a piece.
    fn go_on_below(&mut self, asked: &Asked, rest: &str) -> Result<(), AllocError> {
        let [height, _] = asked.numbers;
        let mut second = CutOut::new(asked.alloc, ROOM, ROOM, false)?;
        let begun = self
            .live
            .go_on_below(asked.alloc, &mut second, asked.width, height);
        begun.map_err(|_| AllocError)?;
        let (_, fed) = self.live.feed(asked.alloc, &mut second, rest);
        self.second = Some(second);
        fed.map_err(|_| AllocError)
    }

    // Both devices at the end of the text. None where the first hasn't failed by then.
    fn finish(self, asked: &Asked) -> Result<Option<(CutOut, CutOut)>, AllocError> {
        let Run {
            live,
            first,
            second,
        } = self;
        let Some(mut second) = second else {
            return Ok(None);
        };
        match live.finish(asked.alloc, &mut second) {
            Ok(()) => Ok(Some((first, second))),
            Err(_) => Err(AllocError),
        }
    }
}

// Whether a terminal that reads one device after the other shows all rows, and never moves above its screen.
fn are_shown(
    asked: &Asked,
    rows: &str,
    first: &CutOut,
    second: &CutOut,
) -> Result<bool, AllocError> {
    let [height, _] = asked.numbers;
    let mut paper = Paper::new(asked.alloc, height)?;
    let (front, _) = cut_text(first.taken());
    let stays = paper.read(asked.alloc, without_cut_command(front))?;
    let below = paper.cursor().saturating_add(1);
    let (more, _) = cut_text(second.taken());
    let stays_below = paper.read(asked.alloc, more)?;
    Ok(stays && stays_below && has_all_rows(&paper, below, rows))
}

// A command that was cut off does nothing.
fn without_cut_command(text: &str) -> &str {
    match text.rsplit_once('\x1b') {
        Some((front, command)) if !command.contains(|c: char| c.is_ascii_alphabetic()) => front,
        _ => text,
    }
}

// Whether the rows from one on are the last of a text's, and the others stand where the terminal begins.
fn has_all_rows(paper: &Paper, below: usize, rows: &str) -> bool {
    let shown = paper
        .rows_from(below)
        .iter()
        .filter(|row| !row.is_empty())
        .count();
    let above = rows.lines().count().saturating_sub(shown);
    rows.lines().enumerate().all(|(number, row)| {
        let index = if number < above {
            number
        } else {
            below.saturating_add(number.saturating_sub(above))
        };
        paper.row(index) == row
    })
}
