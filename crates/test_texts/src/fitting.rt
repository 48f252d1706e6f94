//! Columns, tokens, wrapped lines, the fronts of a text that fit, and the blank columns round a text.
//!
//! Each line of a text is a compound. It is bold where it begins with two stars, and code where it begins with a backquote.

use crate::pictures::{draw_compound, draw_compounds, draw_numbers};
use mad_md::{Alignment, Compound};
use mad_measure::{Spacing, StrFit, Token, columns, tokenize};
use mad_wrap::{Room, WrappedLine, check_starts, fit_columns, wrap_compounds, wrap_starts};
use std::alloc::{AllocError, Global};
use std::borrow::CowStr;
use std::fmt::Write;

fn compound<'s>(line: &'s str) -> Compound<'s> {
    if let Some(bold) = line.strip_prefix("**") {
        return Compound::raw_str(bold).bold();
    }
    match line.strip_prefix('`') {
        Some(code) => Compound::raw_str(code).code(),
        None => Compound::raw_str(line),
    }
}

fn compounds<'s>(alloc: Global, text: &'s str) -> Result<Vec<Compound<'s>>, AllocError> {
    text.split('\n').map(compound).collect(alloc)
}

/// How many columns a text takes.
pub(crate) fn draw_columns(picture: &mut String, text: &str) -> Result<(), AllocError> {
    write!(picture, "{}", columns(text))
}

fn draw_token(picture: &mut String, token: &Token) -> Result<(), AllocError> {
    let bytes = token.start_in_compound..token.end_in_compound;
    let src = token.compound.src.get(bytes).unwrap_or("no text");
    let blank = if token.blank { "blank " } else { "" };
    write!(picture, "{} {blank}", token.width)?;
    let compound = Compound {
        src,
        ..token.compound
    };
    draw_compound(picture, &compound)?;
    picture.push('\n')
}

/// The tokens of compounds: their columns, whether they are blank, and their texts.
pub(crate) fn draw_tokens(
    picture: &mut String,
    numbers: &[usize],
    text: &str,
) -> Result<(), AllocError> {
    let alloc = *picture.allocator();
    let most = *numbers.first().unwrap_or(&0);
    for token in &tokenize(alloc, &compounds(alloc, text)?, most)? {
        draw_token(picture, token)?;
    }
    Ok(())
}

fn draw_lines(picture: &mut String, lines: &[WrappedLine]) -> Result<(), AllocError> {
    for line in lines {
        draw_compounds(picture, "", &line.compounds)?;
        picture.push('\n')?;
    }
    Ok(())
}

// The room of three numbers.
fn room_of(numbers: &[usize], whole_words: bool) -> Option<Room> {
    let [first, other, width] = *numbers else {
        return None;
    };
    Some(Room {
        first,
        other,
        width,
        whole_words,
    })
}

fn draw_wrapped(
    picture: &mut String,
    compounds: &[Compound],
    room: Room,
) -> Result<(), AllocError> {
    let alloc = *picture.allocator();
    if fit_columns(compounds, room).is_none() {
        draw_lines(picture, &wrap_compounds(alloc, compounds, room)?)?;
    }
    Ok(())
}

/// The lines of compounds that are too wide, and the starts of these.
pub(crate) fn draw_wrap(
    picture: &mut String,
    numbers: &[usize],
    text: &str,
) -> Result<(), AllocError> {
    let Some(room) = room_of(numbers, false) else {
        return Ok(());
    };
    let alloc = *picture.allocator();
    let compounds = compounds(alloc, text)?;
    draw_wrapped(picture, &compounds, room)?;
    picture.push_str("starts")?;
    draw_numbers(picture, &wrap_starts(alloc, &compounds, room)?)
}

/// The lines of compounds that are too wide, words whole.
pub(crate) fn draw_words(
    picture: &mut String,
    numbers: &[usize],
    text: &str,
) -> Result<(), AllocError> {
    let Some(room) = room_of(numbers, true) else {
        return Ok(());
    };
    let compounds = compounds(*picture.allocator(), text)?;
    draw_wrapped(picture, &compounds, room)
}

/// Whether starts pass the check.
pub(crate) fn draw_check(
    picture: &mut String,
    numbers: &[usize],
    text: &str,
) -> Result<(), AllocError> {
    let compounds = compounds(*picture.allocator(), text)?;
    let (width, starts) = numbers.split_first().unwrap_or((&0, numbers));
    let room = Room {
        first: 0,
        other: 0,
        width: *width,
        whole_words: false,
    };
    write!(picture, "{}", check_starts(&compounds, room, starts))
}

fn alignment(name: &str) -> Alignment {
    match name {
        "Left" => Alignment::Left,
        "Center" => Alignment::Center,
        "Right" => Alignment::Right,
        _ => Alignment::Unspecified,
    }
}

/// The blank columns left and right of a text in a wider place.
pub(crate) fn draw_completions(
    picture: &mut String,
    numbers: &[usize],
    align: &str,
) -> Result<(), AllocError> {
    let [inner, width] = *numbers else {
        return Ok(());
    };
    let (left, right) = Spacing::completions(alignment(align), inner, width);
    write!(picture, "{left} {right}")
}

/// The bytes and the columns of the longest front of a text that fits some columns.
pub(crate) fn draw_front(
    picture: &mut String,
    numbers: &[usize],
    text: &str,
) -> Result<(), AllocError> {
    let (bytes, columns) = StrFit::count_fitting(text, *numbers.first().unwrap_or(&0));
    write!(picture, "{bytes} {columns}")
}

/// That front as it is written, its columns, and whether it is borrowed.
pub(crate) fn draw_cow(
    picture: &mut String,
    numbers: &[usize],
    text: &str,
) -> Result<(), AllocError> {
    let most = *numbers.first().unwrap_or(&0);
    let (cow, columns) = StrFit::make_cow(*picture.allocator(), text, most)?;
    let kind = match &cow {
        CowStr::Borrowed(_) => "borrowed",
        CowStr::Owned(_) => "owned",
    };
    write!(picture, "{kind} {columns} {cow}")
}

/// That front as a text of its own, and its columns.
pub(crate) fn draw_string(
    picture: &mut String,
    numbers: &[usize],
    text: &str,
) -> Result<(), AllocError> {
    let most = *numbers.first().unwrap_or(&0);
    let (front, columns) = StrFit::make_string(*picture.allocator(), text, most)?;
    write!(picture, "{columns} {front}")
}
