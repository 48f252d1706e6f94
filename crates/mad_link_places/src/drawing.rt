//! Numbers, drawn over rows of a page that were drawn before, each where its link begins.

ghost use Rattle.std.specs.Prelude.{◌≡◌, ◌+◌, ◌<◌, ◌^◌, IfOk, OnOk, Some, chars, map};
ghost use Rattle.mad_style.specs.StyledChars.{styled_char};
ghost use Rattle.mad_term.specs.Trace.{TookWith};
ghost use Rattle.mad_wrap.specs.WrapLines.{capped};
ghost use Rattle.mad_pages.specs.Fronts.{front_content};
ghost use Rattle.mad_hits.specs.Drawn.{IsHitShown};
ghost use Rattle.mad_link_places.specs.Numbers.{line_column, number_chars, placed_number, AreNumbersShown, IsNumberIn, IsNumberShown};

use crate::places::LinkPlace;
use mad_format::{FmtComposite, FmtLine};
use mad_hits::{RowRoom, column_in_row, columns_before, draw_chars};
use mad_page_rows::columns_left;
use mad_page_rows::faces::line_skin;
use mad_pages::{Front, front_at};
use mad_rows::RowSkin;
use mad_style::{CompoundStyle, StyledChar};
use mad_term::{Error, Out};
use std::alloc::{AllocError, Global};

// No screen has so many rows.
const MOST_ROWS: usize = 65535;

/// Draws the numbers of links in a style over rows of a page that were drawn in a room of the screen, from the row `top` on: each over the first cells of its
/// link's text, so that no row moves. One that isn't within the row's columns isn't drawn. Nothing is flushed.
///
/// # Errors
///
/// A fault of the device, or out of memory. What went out by then is a beginning of the whole.
pub fn draw_numbers<O: Out>(
    alloc: Global,
    out: &mut O,
    skin: &RowSkin,
    style: CompoundStyle,
    lines: &[FmtLine],
    fronts: &[Front],
    top: usize,
    room: RowRoom,
    places: &[LinkPlace],
) -> Result<(), Error>
    ensures { OnOk result (TookWith (O.seen out.old) (O.seen out.new) (AreNumbersShown skin.now style room lines.now fronts.now top places.now)) }
{
    for place in places {
        draw_number(alloc, out, skin, style, lines, fronts, top, room, place)?;
    }
    Ok(())
}

// Draws one of them.
fn draw_number<O: Out>(
    alloc: Global,
    out: &mut O,
    skin: &RowSkin,
    style: CompoundStyle,
    lines: &[FmtLine],
    fronts: &[Front],
    top: usize,
    room: RowRoom,
    place: &LinkPlace,
) -> Result<(), Error>
    ensures { OnOk result (TookWith (O.seen out.old) (O.seen out.new) (IsNumberShown skin.now style room lines.now fronts.now top place.now)) }
{
    let y = place.row.saturating_sub(top);
    if y >= MOST_ROWS {
        return Ok(());
    }
    match lines.get(place.row) {
        Some(line) => {
            let front = front_at(fronts, place.row);
            draw_in_row(alloc, out, skin, style, line, front, room, y as u16, *place)
        }
        None => Ok(()),
    }
}

// Draws one in row y of the screen, which shows this line behind a front.
fn draw_in_row<O: Out>(
    alloc: Global,
    out: &mut O,
    skin: &RowSkin,
    style: CompoundStyle,
    line: &FmtLine,
    front: Front,
    room: RowRoom,
    y: u16,
    place: LinkPlace,
) -> Result<(), Error>
    requires { y + 1 < 2 ^ 16 }
    ensures { OnOk result (TookWith (O.seen out.old) (O.seen out.new) (IsNumberIn skin.now style room (front_content front.entry) y place (Some line.now))) }
{
    match line {
        FmtLine::Normal(composite) => draw_in_line(
            alloc, out, skin, style, composite, front, room, y, place,
        ),
        FmtLine::TableRow(_) | FmtLine::TableRule(_) | FmtLine::HorizontalRule => Ok(()),
    }
}

// Draws one in row y of the screen, which shows this line of text behind a front.
fn draw_in_line<O: Out>(
    alloc: Global,
    out: &mut O,
    skin: &RowSkin,
    style: CompoundStyle,
    composite: &FmtComposite,
    front: Front,
    room: RowRoom,
    y: u16,
    place: LinkPlace,
) -> Result<(), Error>
    requires { y + 1 < 2 ^ 16 }
    ensures { OnOk result (TookWith (O.seen out.old) (O.seen out.new) (IsHitShown room.end y (placed_number skin.now style room (front_content front.entry) place composite.now))) }
{
    let column = line_column(skin, room, front, composite).saturating_add(place.column);
    let digits = number_chars(alloc, style, place.number)?;
    draw_chars(alloc, out, digits.as_slice(), column, room.end, y)
}

// The column in which the text of a line begins behind its front.
fn line_column(skin: &RowSkin, room: RowRoom, front: Front, composite: &FmtComposite) -> usize
    ensures { result ≡ capped (line_column skin.now room (front_content front.entry) composite.now) }
{
    let rest = columns_left(skin, front.gutters, usize::from(room.columns()));
    let before = columns_before(skin, room, front.gutters);
    before.saturating_add(column_in_row(&line_skin(skin, front), composite, rest))
}

// The digits of a number, in a style.
fn number_chars(
    alloc: Global,
    style: CompoundStyle,
    number: usize,
) -> Result<Vec<StyledChar>, AllocError>
    ensures { IfOk result (λ digits. digits.items ≡ number_chars style number) }
{
    let text = format!(in alloc; "{number}")?;
    styled_chars(alloc, style, text.as_str())
}

// The characters of a text, in a style.
fn styled_chars(
    alloc: Global,
    style: CompoundStyle,
    text: &str,
) -> Result<Vec<StyledChar>, AllocError>
    ensures { IfOk result (λ styled. styled.items ≡ map (styled_char style) (chars text.now)) }
{
    let mut styled = Vec::new(alloc);
    for c in text.chars() {
        styled.push(StyledChar::new(style, c))?;
    }
    Ok(styled)
}
