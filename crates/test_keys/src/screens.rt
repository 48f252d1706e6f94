//! What a screen shows of bytes.

use crate::words::pair;
use mad_screen::{NotPlain, Pen, Screen};
use mad_term::{Attribute, Color};
use std::alloc::{AllocError, Global};

/// A screen of a width and a height that has read each line of the text by itself. The lines that it couldn't read come
/// first, the cursor and the pen last. Between them are its picture, its looks and the pens of their letters, if wanted.
pub fn screen(alloc: Global, size: &str, text: &str, pictured: bool) -> Result<String, AllocError> {
    let mut answer = String::new(alloc);
    let screen = screen_after(alloc, size, text, &mut answer)?;
    if pictured {
        push_pictures(&mut answer, &screen)?;
    }
    push_cursor(&mut answer, &screen)?;
    Ok(answer)
}

fn push_cursor(answer: &mut String, screen: &Screen) -> Result<(), AllocError> {
    let (x, y) = screen.cursor();
    write!(answer, "cursor {x} {y}")?;
    push_pen(answer, screen.pen())
}

fn screen_after(
    alloc: Global,
    size: &str,
    text: &str,
    refusals: &mut String,
) -> Result<Screen, AllocError> {
    let (width, height) = pair(size);
    let mut screen = Screen::new(alloc, width, height)?;
    for line in text.split('\n') {
        read_line(alloc, &mut screen, line, refusals)?;
    }
    Ok(screen)
}

fn read_line(
    alloc: Global,
    screen: &mut Screen,
    line: &str,
    refusals: &mut String,
) -> Result<(), AllocError> {
    let bytes = bytes_of(alloc, line)?;
    let before = state_of(alloc, screen)?;
    let Err(error) = screen.read_bytes(&bytes) else {
        return Ok(());
    };
    if state_of(alloc, screen)? != before {
        return refusals.push_str("changed by a refusal\n");
    }
    match error {
        NotPlain::Memory => Err(AllocError),
        error => write!(refusals, "{line} is {error}\n"),
    }
}

// All that can be seen of a screen.
fn state_of(alloc: Global, screen: &Screen) -> Result<String, AllocError> {
    let mut state = String::new(alloc);
    push_pictures(&mut state, screen)?;
    push_cursor(&mut state, screen)?;
    Ok(state)
}

/// The bytes that lead from one screen to another of this size, each after a line of the text, or `none`. Then the picture
/// and the looks of the first screen, once it has read them.
pub fn changed(alloc: Global, size: &str, text: &str) -> Result<String, AllocError> {
    let mut answer = String::new(alloc);
    let (before, after) = text.split_once('\n').unwrap_or((text, ""));
    let mut screen = screen_after(alloc, size, before, &mut answer)?;
    let new = screen_after(alloc, size, after, &mut answer)?;
    match mad_frames::changes(alloc, &screen, &new)? {
        None => answer.push_str("none\n")?,
        Some(bytes) => {
            write!(answer, "{bytes}\n")?;
            read_line(alloc, &mut screen, "\x1b[0m", &mut answer)?;
            read_line(alloc, &mut screen, bytes.as_str(), &mut answer)?;
            push_pictures(&mut answer, &screen)?;
        }
    }
    Ok(answer)
}

/// The bytes of a text in which `<ff>` is the byte of these hex digits.
pub fn bytes_of(alloc: Global, text: &str) -> Result<Vec<u8>, AllocError> {
    let mut bytes = Vec::new(alloc);
    for part in text.split('<') {
        let (digits, rest) = part.split_once('>').unwrap_or(("", part));
        if let Ok(byte) = u8::from_str_radix(digits, 16) {
            bytes.push(byte)?;
        }
        bytes.extend_from_slice(rest.as_bytes())?;
    }
    Ok(bytes)
}

const LETTERS: &str = "abcdefghijklmnopqrstuvwxyz";

/// Appends what a screen shows, and its looks where they aren't all plain.
pub fn push_pictures(answer: &mut String, screen: &Screen) -> Result<(), AllocError> {
    write!(answer, "{screen}")?;
    let looks = screen.looks()?;
    if looks.pens().is_empty() {
        return Ok(());
    }
    write!(answer, "{looks}")?;
    push_pens(answer, looks.pens())
}

fn push_pens(answer: &mut String, pens: &[Pen]) -> Result<(), AllocError> {
    for (letter, pen) in LETTERS.chars().zip(pens) {
        answer.push(letter)?;
        push_pen(answer, *pen)?;
    }
    Ok(())
}

// A pen as words: its colors, and the attributes whose codes it has.
fn push_pen(row: &mut String, pen: Pen) -> Result<(), AllocError> {
    push_color(row, "fg", pen.fg)?;
    push_color(row, "bg", pen.bg)?;
    push_color(row, "line", pen.underline)?;
    for attribute in &Attribute::ALL {
        if pen.codes.has(*attribute) {
            let name = attribute.name();
            write!(row, " {name}")?;
        }
    }
    row.push('\n')
}

fn push_color(row: &mut String, what: &str, color: Option<Color>) -> Result<(), AllocError> {
    match color {
        Some(color) => write!(row, " {what}={color:?}"),
        None => Ok(()),
    }
}
