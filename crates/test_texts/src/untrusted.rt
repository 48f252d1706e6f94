//! Texts that one doesn't trust, and tables made from data.

use crate::pictures::draw_lines;
use mad_md::{Alignment, Line, TableRow, Text};
use mad_measure::{is_printable, printable};
use mad_steady::steady;
use std::alloc::{AllocError, Global};
use std::borrow::CowStr;
use std::fmt::Write;

// The character that a sign means in the rows of this file, where it can't be seen or would mislead.
fn meant(sign: char) -> char {
    match sign {
        '□' => '\u{85}',
        '■' => '\u{9f}',
        '→' => '\u{202a}',
        '←' => '\u{202e}',
        '↦' => '\u{2066}',
        '↤' => '\u{2069}',
        _ => sign,
    }
}

fn is_plain(c: char) -> bool {
    c == ' ' || c.is_ascii_graphic()
}

// Each character that isn't a graphic one of ASCII or a space by its number.
fn draw_text(picture: &mut String, text: &str) -> Result<(), AllocError> {
    for c in text.chars() {
        if is_plain(c) {
            picture.push(c)?;
        } else {
            write!(picture, "({:X})", c as u32)?;
        }
    }
    Ok(())
}

fn borrowed(shown: &CowStr<'_, Global>) -> &'static str {
    match shown {
        CowStr::Borrowed(_) => "borrowed ",
        CowStr::Owned(_) => "owned ",
    }
}

/// What is printable of a text: whether it is borrowed, and its characters.
pub(crate) fn draw_printable(picture: &mut String, text: &str) -> Result<(), AllocError> {
    let alloc = *picture.allocator();
    let text: String = text.chars().map(meant).collect(alloc)?;
    let shown = printable(alloc, &text)?;
    picture.push_str(borrowed(&shown))?;
    picture.push_str(if is_printable(&text) { "" } else { "changed " })?;
    draw_text(picture, shown.as_str())
}

/// The steady text of characters that are given by their numbers, in hexadecimal: whether it is borrowed, and the numbers of its characters.
pub(crate) fn draw_steady(picture: &mut String, numbers: &str) -> Result<(), AllocError> {
    let alloc = *picture.allocator();
    let text: String = numbers.split(' ').filter_map(numbered).collect(alloc)?;
    let shown = steady(alloc, &text)?;
    picture.push_str(borrowed(&shown))?;
    for (place, c) in shown.as_str().chars().enumerate() {
        if place > 0 {
            picture.push(' ')?;
        }
        write!(picture, "{:X}", c as u32)?;
    }
    Ok(())
}

// The character of a number in hexadecimal.
fn numbered(number: &str) -> Option<char> {
    char::from_u32(u32::from_str_radix(number, 16).ok()?)
}

fn texts_of<'s>(alloc: Global, line: &'s str) -> Result<Vec<&'s str>, AllocError> {
    line.split(';').collect(alloc)
}

/// The row of the text's parts between semicolons.
pub(crate) fn draw_cells(picture: &mut String, text: &str) -> Result<(), AllocError> {
    let alloc = *picture.allocator();
    let texts = texts_of(alloc, text)?;
    let row = TableRow::from_texts(alloc, &texts)?;
    draw_lines(picture, &[Line::TableRow(row)])
}

fn alignment_of(word: &str) -> Option<Alignment> {
    match word {
        "left" => Some(Alignment::Left),
        "center" => Some(Alignment::Center),
        "right" => Some(Alignment::Right),
        "none" => Some(Alignment::Unspecified),
        _ => None,
    }
}

/// The table of the rows that are the text's lines, under the headers of the first one, with the alignments that the call names.
pub(crate) fn draw_table(picture: &mut String, call: &str, text: &str) -> Result<(), AllocError> {
    let alloc = *picture.allocator();
    let alignments: Vec<Alignment> = call.split(' ').filter_map(alignment_of).collect(alloc)?;
    let (front, lines) = text.split_once('\n').unwrap_or((text, ""));
    let headers: Vec<&str> = front.split(';').filter(|h| !h.is_empty()).collect(alloc)?;
    let mut rows = Vec::new(alloc);
    for line in lines.lines() {
        rows.push(texts_of(alloc, line)?)?;
    }
    let table = Text::from_table(alloc, &headers, &alignments, &rows)?;
    draw_lines(picture, &table.lines)
}
