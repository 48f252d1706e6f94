//! The calls of a crop writer: each line of a text is one.

use crate::devices::told;
use crate::drawings::{Words, first_char, words_of};
use mad_draw::{CropWriter, Filling};
use mad_screen::CutOut;
use mad_style::CompoundStyle;
use mad_term::Error;
use std::alloc::{AllocError, Global};

/// What a crop writer writes of calls, and the columns that it has left. The first number is its limit, and a second one the room of
/// its device.
pub fn crop(alloc: Global, call: &str, text: &str) -> Result<String, AllocError> {
    let words = words_of(alloc, call)?;
    let (limit, room) = words.numbers.split_first().unwrap_or((&0, &[]));
    let room = *room.first().unwrap_or(&100_000);
    let mut out = CutOut::new(alloc, 7, room, true)?;
    let mut w = CropWriter::new(&mut out, *limit);
    let written = write_lines(&mut w, alloc, &words.style, text);
    let left = w.allowed;
    let told = told(alloc, written, &out)?;
    format!(in alloc; "{told}\nleft {left}")
}

/// Writes the calls on a device.
pub fn write(alloc: Global, out: &mut CutOut, words: &Words, text: &str) -> Result<(), Error> {
    let limit = *words.numbers.first().unwrap_or(&0);
    write_lines(&mut CropWriter::new(out, limit), alloc, &words.style, text)
}

fn write_lines(
    w: &mut CropWriter<'_, CutOut>,
    alloc: Global,
    style: &CompoundStyle,
    text: &str,
) -> Result<(), Error> {
    for line in text.split('\n') {
        write_line(w, alloc, style, line)?;
    }
    Ok(())
}

fn write_line(
    w: &mut CropWriter<'_, CutOut>,
    alloc: Global,
    style: &CompoundStyle,
    line: &str,
) -> Result<(), Error> {
    let (name, rest) = line.split_once(' ').unwrap_or((line, ""));
    match name {
        "str" => w.queue_str(alloc, style, rest),
        "unstyled_str" => w.queue_unstyled_str(alloc, rest),
        "g_string" => w.queue_g_string(alloc, style, rest),
        "unstyled_g_string" => w.queue_unstyled_g_string(rest),
        "char" => w.queue_char(alloc, style, first_char(rest)),
        "unstyled_char" => w.queue_unstyled_char(alloc, first_char(rest)),
        "fg" => w.queue_fg(alloc, style),
        "bg" => w.queue_bg(alloc, style),
        "fill_with_space" => w.fill_with_space(alloc, style),
        _ => fill(w, alloc, style, name, rest),
    }
}

// A character as often as a number says, or as columns are left.
fn fill(
    w: &mut CropWriter<'_, CutOut>,
    alloc: Global,
    style: &CompoundStyle,
    name: &str,
    rest: &str,
) -> Result<(), Error> {
    let (c, count) = rest.split_once(' ').unwrap_or((rest, ""));
    let count = count.parse().unwrap_or(0);
    let filling = Filling::from_char(alloc, first_char(c))?;
    match name {
        "repeat" => w.repeat(alloc, style, &filling, count),
        "repeat_unstyled" => w.repeat_unstyled(&filling, count),
        "fill" => w.fill(alloc, style, &filling),
        _ => w.fill_unstyled(&filling),
    }
}

/// What a crop writer would write of a text, and its columns.
pub fn cropped(alloc: Global, limit: &str, text: &str) -> Result<String, AllocError> {
    let mut out = CutOut::new(alloc, 1, 0, true)?;
    let w = CropWriter::new(&mut out, limit.parse().unwrap_or(0));
    let full = w.is_full();
    let (cropped, columns) = w.cropped_str(alloc, text)?;
    format!(in alloc; "{columns} columns {full}: {cropped}")
}
