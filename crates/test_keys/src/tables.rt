//! Margins, indents, and the characters of borders.

use crate::words::number;
use mad_parse::PushStyleTokens;
use mad_style::{LineStyle, TableBorderChars, ordered_item_indent};
use std::alloc::{AllocError, Global};

// A style of a left and a right margin, and the width after them.
fn margined(words: &str) -> (LineStyle, Option<usize>) {
    let mut words = words.split(' ');
    let style = LineStyle {
        left_margin: number(words.next()).unwrap_or(0),
        right_margin: number(words.next()).unwrap_or(0),
        ..LineStyle::default()
    };
    (style, number(words.next()))
}

/// The margins of a left and a right one in a width.
pub fn margins(alloc: Global, words: &str) -> Result<String, AllocError> {
    let (style, width) = margined(words);
    let (left, right) = style.margins_in(width);
    format!(in alloc; "{left} {right}")
}

/// The text of a style of a left and a right margin.
pub fn written_margins(alloc: Global, words: &str) -> Result<String, AllocError> {
    let (style, _) = margined(words);
    style.to_style_tokens_string(alloc)
}

/// The indent of an ordered item, by its level and its number.
pub fn indent(alloc: Global, words: &str) -> Result<String, AllocError> {
    let (level, index) = words.split_once(' ').unwrap_or((words, ""));
    let level = level.parse::<u8>().unwrap_or(0);
    ordered_item_indent(level, index.parse::<u32>().unwrap_or(0)).to_string(alloc)
}

/// The characters of a set's name: two lines, four corners, four junctions, and the cross.
pub fn borders(alloc: Global, key: &str) -> Result<String, AllocError> {
    let Some(set) = TableBorderChars::by_key(key) else {
        return String::from_str(alloc, "none");
    };
    let mut chars = String::new(alloc);
    for c in &characters(set) {
        chars.push(*c)?;
    }
    Ok(chars)
}

fn characters(set: TableBorderChars) -> [char; 11] {
    let TableBorderChars {
        horizontal,
        vertical,
        top_left_corner,
        top_right_corner,
        bottom_right_corner,
        bottom_left_corner,
        top_junction,
        right_junction,
        bottom_junction,
        left_junction,
        cross,
    } = set;
    [
        horizontal,
        vertical,
        top_left_corner,
        top_right_corner,
        bottom_right_corner,
        bottom_left_corner,
        top_junction,
        right_junction,
        bottom_junction,
        left_junction,
        cross,
    ]
}
