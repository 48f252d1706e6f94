//! Rectangles, fillings, texts in a place of some columns, and progress bars.
//!
//! The words of a style come after `: `, as a skin has them.

use crate::{bars, crops};
use mad_draw::{
    BORDER_STYLE_BLAND, BORDER_STYLE_HALF_WIDTH_OUTSIDE, BORDER_STYLE_MIDDLE_ROUND_LINE,
    BORDER_STYLE_MIDDLE_SQUARE_LINE, Filling, ProgressBar, Rect, RectBorderStyle, WriteSpaced,
    fill_bg, queue_spaces,
};
use mad_md::Alignment;
use mad_measure::{Area, Spacing};
use mad_parse::parse_compound_style;
use mad_screen::CutOut;
use mad_style::CompoundStyle;
use mad_term::{Color, Error};
use std::alloc::{AllocError, Global};

/// The words of a call, the numbers among them, and its style.
#[derive(Drop)]
pub struct Words<'a> {
    pub words: &'a str,
    pub numbers: Vec<usize>,
    pub style: CompoundStyle,
}

/// Reads the words of a call.
pub fn words_of<'a>(alloc: Global, call: &'a str) -> Result<Words<'a>, AllocError> {
    let (words, style) = call.split_once(": ").unwrap_or((call, ""));
    let numbers = words
        .split(' ')
        .filter_map(|word| word.parse().ok())
        .collect(alloc)?;
    let style = match parse_compound_style(alloc, style) {
        Ok(style) => style,
        Err(_) => return Err(AllocError),
    };
    Ok(Words {
        words,
        numbers,
        style,
    })
}

/// The first character of a text.
pub fn first_char(text: &str) -> char {
    text.chars().next().unwrap_or('?')
}

/// Whether a call of this name draws on a device.
pub fn draws(name: &str) -> bool {
    matches!(
        name,
        "rect" | "beside" | "spaced" | "crop" | "filling" | "unstyled" | "spaces" | "background"
    )
}

/// Draws what a call says.
pub fn draw(alloc: Global, out: &mut CutOut, call: &str, text: &str) -> Result<(), Error> {
    let words = words_of(alloc, call)?;
    match call.split(' ').next().unwrap_or("") {
        "rect" => draw_rect(alloc, out, &words),
        "beside" => bars::draw(alloc, out, &words, text),
        "spaced" => write_spaced(alloc, out, &words, text),
        "crop" => crops::write(alloc, out, &words, text),
        _ => fill(alloc, out, &words, text),
    }
}

fn border_of(words: &str) -> RectBorderStyle {
    if words.contains("half") {
        return BORDER_STYLE_HALF_WIDTH_OUTSIDE;
    }
    if words.contains("square") {
        return BORDER_STYLE_MIDDLE_SQUARE_LINE;
    }
    if words.contains("round") {
        BORDER_STYLE_MIDDLE_ROUND_LINE
    } else {
        BORDER_STYLE_BLAND
    }
}

/// The area of four numbers.
pub fn area_of(numbers: &[usize]) -> Option<Area> {
    let [left, top, width, height] = *numbers else {
        return None;
    };
    Some(Area {
        left: u16::try_from(left).ok()?,
        top: u16::try_from(top).ok()?,
        width: u16::try_from(width).ok()?,
        height: u16::try_from(height).ok()?,
    })
}

// A rectangle of at least two columns and a row, if its right and bottom fit.
fn draw_rect(alloc: Global, out: &mut CutOut, words: &Words) -> Result<(), Error> {
    let Some(area) = area_of(&words.numbers) else {
        return Ok(());
    };
    let mut rect = Rect::new(area, words.style);
    rect.set_border_style(border_of(words.words));
    rect.set_fill(words.words.contains("filled"));
    if area.width < 2 || area.height < 1 || !area.is_within_limits() {
        return Ok(());
    }
    rect.draw(alloc, out)
}

fn alignment(words: &str) -> Alignment {
    if words.contains("Center") {
        return Alignment::Center;
    }
    if words.contains("Right") {
        return Alignment::Right;
    }
    if words.contains("Left") {
        Alignment::Left
    } else {
        Alignment::Unspecified
    }
}

// A text in a place of some columns, counted as some columns if there is a second number.
fn write_spaced(alloc: Global, out: &mut CutOut, words: &Words, text: &str) -> Result<(), Error> {
    let (width, counted) = words.numbers.split_first().unwrap_or((&0, &[]));
    let spacing = Spacing {
        width: *width,
        align: alignment(words.words),
    };
    match counted.first() {
        Some(columns) => spacing.write_counted_str(alloc, out, text, *columns, &words.style),
        None => spacing.write_str(alloc, out, text, &words.style),
    }
}

// A filling of the text's first character.
fn fill(alloc: Global, out: &mut CutOut, words: &Words, text: &str) -> Result<(), Error> {
    let count = *words.numbers.first().unwrap_or(&0);
    let filling = Filling::from_char(alloc, first_char(text))?;
    match words.words.split(' ').next().unwrap_or("") {
        "filling" => filling.queue_styled(alloc, out, &words.style, count),
        "unstyled" => filling.queue_unstyled(out, count),
        "spaces" => queue_spaces(alloc, out, &words.style, count),
        _ => fill_bg(alloc, out, count, Color::Red),
    }
}

/// A progress bar of three numbers: so much of so much, and how long it is.
pub fn bar(alloc: Global, words: &str) -> Result<String, AllocError> {
    let words = words_of(alloc, words)?;
    let [num, den, chars_len] = *words.numbers else {
        return String::from_str(alloc, "no bar");
    };
    let (num, den) = (num as u64, den as u64);
    if den < 1 || num > den {
        return String::from_str(alloc, "no bar");
    }
    let bar = ProgressBar::new(num, den, chars_len);
    bar.to_string(alloc)
}
