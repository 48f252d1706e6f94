//! The bytes of commands and pieces.

use crate::queued;
use crate::words::{color_of, pair, style_of};
use mad_term::{
    Clear, ClearType, ContentStyle, push_background, push_foreground, push_move, push_styled,
};
use std::alloc::{AllocError, Global};

/// The answer of a call of this module, or of one of the next.
pub fn answer(alloc: Global, name: &str, rest: &str, text: &str) -> Result<String, AllocError> {
    match name {
        "move" => move_to(alloc, rest),
        "erasures" => erasures(alloc),
        "command" => command(alloc, rest),
        "piece" => piece(alloc, rest, text),
        _ => queued::answer(alloc, name, rest, text),
    }
}

fn move_to(alloc: Global, position: &str) -> Result<String, AllocError> {
    let (x, y) = pair(position);
    let mut row = String::new(alloc);
    push_move(&mut row, x, y)?;
    Ok(row)
}

const ERASURES: [ClearType; 5] = [
    ClearType::All,
    ClearType::FromCursorDown,
    ClearType::FromCursorUp,
    ClearType::CurrentLine,
    ClearType::UntilNewLine,
];

fn erasures(alloc: Global) -> Result<String, AllocError> {
    let mut rows = String::new(alloc);
    for what in &ERASURES {
        let command = Clear(*what);
        write!(rows, "{what:?} {command}\n")?;
    }
    Ok(rows)
}

// The commands of a color for characters and for their background, and an `x` that it underlines.
fn command(alloc: Global, color: &str) -> Result<String, AllocError> {
    let Some(color) = color_of(color) else {
        return Ok(String::new(alloc));
    };
    let mut row = String::new(alloc);
    push_foreground(&mut row, color)?;
    push_background(&mut row, color)?;
    let style = ContentStyle {
        underline_color: Some(color),
        ..ContentStyle::default()
    };
    push_styled(&mut row, style, "x")?;
    Ok(row)
}

fn piece(alloc: Global, style: &str, text: &str) -> Result<String, AllocError> {
    let mut row = String::new(alloc);
    push_styled(&mut row, style_of(style), text)?;
    Ok(row)
}
