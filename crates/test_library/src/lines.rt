//! Lines by themselves, and in wider places.

use std::alloc::AllocError;
use termimad::{
    Alignment, Composite, CompositeKind, CompositeStyle, CutOut, DisplayableLine, Error,
    FmtComposite, FmtLine, Spacing, inline, put_all,
};
use test_skins::{Asked, Refusal};

/// What is displayed of each line of a text by itself.
pub fn displayed(asked: &Asked) -> Result<String, Refusal> {
    let mut displayed = String::new(asked.alloc);
    for line in asked.text.split('\n') {
        draw_line(asked, line, &mut displayed)?;
    }
    Ok(displayed)
}

fn draw_line(asked: &Asked, line: &str, displayed: &mut String) -> Result<(), AllocError> {
    let line = inline(asked.alloc, &asked.skin, line)?;
    write!(displayed, "{line}\n")
}

/// Writes a line of a kind by itself, or after a side and a bar `_` in a row.
pub fn write(asked: &Asked, name: &str, out: &mut CutOut) -> Result<(), Error> {
    let (side, kind) = name.split_once('_').unwrap_or(("", name));
    let Some(style) = style_of(kind, asked.numbers) else {
        return Ok(put_all(out, b"no call")?);
    };
    match side {
        "" => write_composite(asked, style, out),
        "later" => write_later(asked, later_kind(style), out),
        _ => write_wide_row(asked, CompositeKind::from(style), side, out),
    }
}

// What a composite is. The first numbers are its level and its index.
fn style_of(kind: &str, numbers: [usize; 5]) -> Option<CompositeStyle> {
    let level = u8::try_from(numbers[0]).unwrap_or(u8::MAX);
    let index = u32::try_from(numbers[1]).unwrap_or(u32::MAX);
    match kind {
        "paragraph" => Some(CompositeStyle::Paragraph),
        "header" => Some(CompositeStyle::Header(level)),
        "item" => Some(CompositeStyle::ListItem(level)),
        "number" => Some(CompositeStyle::OrderedListItem { level, index }),
        "code" => Some(CompositeStyle::Code),
        "quote" => Some(CompositeStyle::Quote),
        _ => None,
    }
}

fn write_composite(asked: &Asked, style: CompositeStyle, out: &mut CutOut) -> Result<(), Error> {
    let mut composite = Composite::from_inline(asked.alloc, asked.text)?;
    composite.style = style;
    asked.skin.print_composite(asked.alloc, out, &composite)
}

// The kind of the later lines of an item.
fn later_kind(style: CompositeStyle) -> CompositeKind {
    match style {
        CompositeStyle::ListItem(level) => CompositeKind::ListItemFollowUp(level),
        CompositeStyle::OrderedListItem { level, index } => {
            CompositeKind::OrderedListItemFollowUp { level, index }
        }
        other => CompositeKind::from(other),
    }
}

// Writes what is displayed of a line without a width, a bar, and the line by the call for composites.
fn write_later(asked: &Asked, kind: CompositeKind, out: &mut CutOut) -> Result<(), Error> {
    let line = FmtLine::Normal(composite_of(asked, kind, None)?);
    write_displayed(asked, &line, None, out)?;
    let composite = composite_of(asked, kind, None)?;
    asked
        .skin
        .write_fmt_composite(asked.alloc, out, &composite, None, true)
}

// The first numbers are the row's columns and those of the line's own place, which it has on a side.
fn write_wide_row(
    asked: &Asked,
    kind: CompositeKind,
    side: &str,
    out: &mut CutOut,
) -> Result<(), Error> {
    let [row, width, ..] = asked.numbers;
    let align = side_of(side);
    if align == Alignment::Unspecified {
        return write_row(asked, kind, None, Some(row), out);
    }
    let place = Spacing { width, align };
    write_row(asked, kind, Some(place), Some(row), out)
}

fn side_of(word: &str) -> Alignment {
    match word {
        "left" => Alignment::Left,
        "center" => Alignment::Center,
        "right" => Alignment::Right,
        _ => Alignment::Unspecified,
    }
}

/// Writes a line fitted to a width, which is the first number, and filled up on a side.
pub fn write_filled(asked: &Asked, side: &str, out: &mut CutOut) -> Result<(), Error> {
    let composite = Composite::from_inline(asked.alloc, asked.text)?;
    let width = asked.numbers[0];
    asked
        .skin
        .write_composite_fill(asked.alloc, out, &composite, width, side_of(side))
}

/// Writes a line to which its compounds were added one by one.
pub fn write_added(asked: &Asked, out: &mut CutOut) -> Result<(), Error> {
    let mut composite = FmtComposite::new(asked.alloc);
    for compound in &Composite::from_inline(asked.alloc, asked.text)?.compounds {
        composite.add_compound(*compound)?;
    }
    asked
        .skin
        .write_fmt_composite(asked.alloc, out, &composite, None, false)
}

// Writes what is displayed of a line, a bar, and the line in a row that is filled up.
fn write_row(
    asked: &Asked,
    kind: CompositeKind,
    place: Option<Spacing>,
    width: Option<usize>,
    out: &mut CutOut,
) -> Result<(), Error> {
    let line = FmtLine::Normal(composite_of(asked, kind, place)?);
    write_displayed(asked, &line, width, out)?;
    asked
        .skin
        .write_fmt_line(asked.alloc, out, &line, width, true)
}

fn composite_of<'a>(
    asked: &Asked<'a>,
    kind: CompositeKind,
    place: Option<Spacing>,
) -> Result<FmtComposite<'a>, AllocError> {
    let composite = Composite::from_inline(asked.alloc, asked.text)?;
    let mut composite = FmtComposite::from(composite, &asked.skin);
    composite.kind = kind;
    composite.spacing = place;
    composite.recompute_width(&asked.skin);
    Ok(composite)
}

fn write_displayed(
    asked: &Asked,
    line: &FmtLine,
    width: Option<usize>,
    out: &mut CutOut,
) -> Result<(), Error> {
    let line = DisplayableLine::new(&asked.skin, line, width);
    let displayed = format!(in asked.alloc; "{line}|")?;
    Ok(put_all(out, displayed.as_bytes())?)
}
