//! Rows whose characters have styles of their own, and their hits, drawn over rows of a page that were drawn before.

ghost use Rattle.std.specs.Prelude.{◌≡◌, ◌++◌, ◌+◌, ◌<◌, ◌^◌, IfOk, OnOk, length, map, option_map, string_bytes};
ghost use Rattle.mad_term.specs.Trace.{TookWith};
ghost use Rattle.regex.specs.Strings.{regex_pattern};
ghost use Rattle.mad_plain_page.specs.StyledRows.{row_chars};
ghost use Rattle.mad_hits.specs.Hits.{marked_of};
ghost use Rattle.mad_hits.specs.OwnRows.{hits_of_row, own_hits, own_text, AreRowsDrawn, IsRowDrawn};

use crate::drawing::{draw_chars, draw_each};
use crate::hits::Hit;
use crate::parts::push_parts;
use crate::rooms::RowRoom;
use mad_patterns::hits_in;
use mad_plain_page::StyledRow;
use mad_style::{CompoundStyle, StyledChar};
use mad_term::{Error, Out};
use regex::Regex;
use std::alloc::{AllocError, Global};

/// Draws rows in a room of the screen, the first one in its first row, and over each the hits of what is sought, if anything is. The style of a hit's
/// characters is overwritten with `style`. Each row is sought for itself. A row that is wider than its room isn't drawn. Nothing is flushed.
///
/// # Errors
///
/// A fault of the device, or out of memory. What went out by then is a beginning of the whole.
pub fn draw_own_rows<O: Out>(
    alloc: Global,
    out: &mut O,
    style: CompoundStyle,
    rows: &[StyledRow],
    room: RowRoom,
    sought: Option<&Regex>,
) -> Result<(), Error>
    requires { length rows.now < 2 ^ 16 }
    ensures { OnOk result (TookWith (O.seen out.old) (O.seen out.new) (AreRowsDrawn style room (option_map (λ regex. regex_pattern regex.now) sought.entry) 0 (map row_chars rows.now))) }
{
    let mut y: u16 = 0;
    for row in rows {
        draw_own_row(alloc, out, style, row.chars.as_slice(), room, y, sought)?;
        y += 1;
    }
    Ok(())
}

// Draws one, and its hits.
fn draw_own_row<O: Out>(
    alloc: Global,
    out: &mut O,
    style: CompoundStyle,
    row: &[StyledChar],
    room: RowRoom,
    y: u16,
    sought: Option<&Regex>,
) -> Result<(), Error>
    requires { y + 1 < 2 ^ 16 }
    ensures { OnOk result (TookWith (O.seen out.old) (O.seen out.new) (IsRowDrawn style room (option_map (λ regex. regex_pattern regex.now) sought.entry) y row.now)) }
{
    let left = usize::from(room.left);
    draw_chars(alloc, out, row, left, room.end, y)?;
    let hits = own_hits(alloc, row, sought)?;
    draw_each(alloc, out, hits.as_slice(), style, left, room.end, y)?;
    Ok(())
}

// The hits in a row, if anything is sought.
fn own_hits(
    alloc: Global,
    row: &[StyledChar],
    sought: Option<&Regex>,
) -> Result<Vec<Hit>, AllocError>
    ensures { IfOk result (λ hits. map marked_of hits.items ≡ own_hits (option_map (λ regex. regex_pattern regex.now) sought.entry) row.now) }
{
    match sought {
        Some(sought) => hits_of_row(alloc, row, sought),
        None => Ok(Vec::new(alloc)),
    }
}

// The hits in a row.
fn hits_of_row(alloc: Global, row: &[StyledChar], sought: &Regex) -> Result<Vec<Hit>, AllocError>
    ensures { IfOk result (λ hits. map marked_of hits.items ≡ hits_of_row (regex_pattern sought.now) row.now) }
{
    let mut hits = Vec::new(alloc);
    let text = own_text(alloc, row)?;
    let found = hits_in(alloc, sought, text.as_str())?;
    let own = (0, text.len());
    push_parts(
        alloc,
        &mut hits,
        row,
        text.as_str().as_bytes(),
        0,
        own,
        found.as_slice(),
    )?;
    Ok(hits)
}

// The text of a row: its characters without their styles.
fn own_text(alloc: Global, row: &[StyledChar]) -> Result<String, AllocError>
    ensures { IfOk result (λ text. string_bytes text ≡ own_text row.now) }
{
    let mut text = String::new(alloc);
    for c in row {
        text.push(c.nude_char())?;
    }
    Ok(text)
}
