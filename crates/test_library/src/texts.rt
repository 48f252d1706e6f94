//! What is written of a text.

use crate::lines;
use std::alloc::{AllocError, Global};
use termimad::{
    CutOut, Error, FmtText, PageSkin, TextView, print_inline, print_text, term_text, text,
    write_markdown_on,
};
use test_skins::{Asked, Refusal};

// More than any row writes.
const ROOM: usize = 2_000_000;

/// What goes out of a text in an area, laid out at a width, or as a line. `ends_of_` in front of a call tells the ends of what is long.
pub fn written(asked: &Asked, name: &str) -> Result<String, Refusal> {
    let mut out = CutOut::new(asked.alloc, ROOM, ROOM, false)?;
    let long = name.strip_prefix("ends_of_");
    write(asked, long.unwrap_or(name), &mut out)?;
    let told = match long {
        Some(_) => ends(asked.alloc, &out),
        None => taken(asked.alloc, &out),
    };
    Ok(told?)
}

/// Writes a text in an area, laid out at a width, or as a line.
pub fn write(asked: &Asked, name: &str, out: &mut CutOut) -> Result<(), Error> {
    let (alloc, skin, text) = (asked.alloc, &asked.skin, asked.text);
    match name {
        "bytes" => skin.write_in_area(alloc, out, text, &asked.area()),
        "text" => skin.write_text(alloc, out, text, Some(asked.numbers[0])),
        "markdown" => {
            let skin = PageSkin::of(skin);
            write_markdown_on(alloc, out, &skin, text, Some(asked.numbers[0]))
        }
        "text_twice" => write_text_twice(asked, out),
        "inline" => skin.write_inline(alloc, out, text),
        "inline_twice" => write_inline_twice(asked, out),
        "text_on" => skin.write_text_on(alloc, out, text, Some(asked.numbers[0])),
        "inline_on" => skin.write_inline_on(alloc, out, text),
        "added" => lines::write_added(asked, out),
        _ => match name.strip_prefix("filled_") {
            Some(side) => lines::write_filled(asked, side, out),
            None => lines::write(asked, name, out),
        },
    }
}

// By two calls, one after the other.
fn write_text_twice(asked: &Asked, out: &mut CutOut) -> Result<(), Error> {
    let (alloc, skin, width) = (asked.alloc, &asked.skin, Some(asked.numbers[0]));
    print_text(alloc, skin, out, asked.text, width)?;
    skin.write_text(alloc, out, asked.text, width)
}

fn write_inline_twice(asked: &Asked, out: &mut CutOut) -> Result<(), Error> {
    print_inline(asked.alloc, &asked.skin, out, asked.text)?;
    asked.skin.write_inline(asked.alloc, out, asked.text)
}

// The ends of what a device took, and how many bytes it is in how many puts.
fn ends(alloc: Global, out: &CutOut) -> Result<String, AllocError> {
    let text = str::from_utf8(out.taken()).unwrap_or("no text");
    let length = text.len();
    let front = text.get(..15).unwrap_or("");
    let end = text.get(length.saturating_sub(14)..).unwrap_or("");
    format!(in alloc; "{front}..{end} {length} bytes in {} puts", out.puts())
}

/// What is displayed of a text where nothing is wrapped: without a width, at less than three columns and at the most. It is told once where
/// it is the same.
pub fn unwrapped(asked: &Asked) -> Result<String, Refusal> {
    let mut displayed = String::new(asked.alloc);
    for width in [None, Some(0), Some(1), Some(2), Some(usize::MAX)] {
        let here = displayed_at(asked, width)?;
        if here != displayed {
            displayed.push_str(here.as_str())?;
        }
    }
    Ok(displayed)
}

fn displayed_at(asked: &Asked, width: Option<usize>) -> Result<String, AllocError> {
    let text = match width {
        Some(width) => term_text(asked.alloc, &asked.skin, asked.text, width)?,
        None => text(asked.alloc, &asked.skin, asked.text)?,
    };
    text.to_string(asked.alloc)
}

/// What is displayed of a text without a look at its marks.
pub fn raw(asked: &Asked) -> Result<String, Refusal> {
    let width = Some(asked.numbers[0]);
    let text = FmtText::raw_str(asked.alloc, &asked.skin, asked.text, width)?;
    Ok(text.to_string(asked.alloc)?)
}

/// Writes a view and flushes.
pub fn write_view(asked: &Asked, out: &mut CutOut) -> Result<(), Error> {
    let area = asked.area();
    let text = asked.skin.area_text(asked.alloc, asked.text, &area)?;
    TextView::from(&area, &text).write(asked.alloc, out)
}

/// What a device took, as a text.
pub fn taken(alloc: Global, out: &CutOut) -> Result<String, AllocError> {
    String::from_str(alloc, str::from_utf8(out.taken()).unwrap_or("no text"))
}

/// How many bytes and lines an answer has.
pub fn counts(alloc: Global, answer: &str) -> Result<String, AllocError> {
    let lines = answer.lines().count();
    format!(in alloc; "{} bytes in {lines} lines", answer.len())
}

/// The columns of a text's lines at a width.
pub fn lengths(asked: &Asked, width: usize) -> Result<String, Refusal> {
    let text = asked.skin.text(asked.alloc, asked.text, Some(width))?;
    let mut lengths = String::new(asked.alloc);
    for line in &text.lines {
        write!(lengths, "{} ", line.visible_length())?;
    }
    Ok(lengths)
}

/// Whether at each width from one to another what is displayed of a text has all its characters but whitespace.
pub fn kept(asked: &Asked) -> Result<String, Refusal> {
    let [first, end, ..] = asked.numbers;
    let solid_text = solid(asked.alloc, asked.text)?;
    for width in first..end {
        let text = asked.skin.text(asked.alloc, asked.text, Some(width))?;
        let displayed = text.to_string(asked.alloc)?;
        if solid(asked.alloc, displayed.as_str())? != solid_text {
            return Ok(displayed);
        }
    }
    Ok(String::from_str(asked.alloc, "all kept")?)
}

// A text without its whitespace.
fn solid(alloc: Global, text: &str) -> Result<String, AllocError> {
    let mut solid = String::new(alloc);
    for word in text.split_whitespace() {
        solid.push_str(word)?;
    }
    Ok(solid)
}

/// Whether at each width from one to another no line of a text is too wide or empty. Else the lengths at the first where one is.
pub fn widths(asked: &Asked) -> Result<String, Refusal> {
    let [first, end, ..] = asked.numbers;
    for width in first..end {
        if !keeps_to(asked, width)? {
            return lengths(asked, width);
        }
    }
    Ok(String::from_str(asked.alloc, "well")?)
}

fn keeps_to(asked: &Asked, width: usize) -> Result<bool, AllocError> {
    let text = asked.skin.text(asked.alloc, asked.text, Some(width))?;
    for line in &text.lines {
        let length = line.visible_length();
        if length == 0 || length > width {
            return Ok(false);
        }
    }
    Ok(true)
}
