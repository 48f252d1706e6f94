//! Hits, drawn over rows of a page that were drawn before: they begin behind the fronts' columns.

ghost use Rattle.std.specs.List.{range_with_len};
ghost use Rattle.std.specs.Prelude.{◌≡◌, ◌+◌, ◌-◌, ◌<◌, ◌^◌, OnOk, length, map, min};
ghost use Rattle.mad_term.specs.Draws.{Draws};
ghost use Rattle.mad_term.specs.Trace.{TookWith};
ghost use Rattle.regex.specs.Strings.{regex_pattern};
ghost use Rattle.mad_style.specs.StyledChars.{char_style};
ghost use Rattle.mad_term.specs.Styles.{IsStyle};
ghost use Rattle.mad_hits.specs.Drawn.{AreHitsShown, IsHitShown, hit_bytes, hits_bytes};
ghost use Rattle.mad_hits.specs.FrontHits.{AreRowsMarked, IsRowMarked, WritesRowHits, WritesRowsHits, hit_behind};
ghost use Rattle.mad_hits.specs.Hits.{marked_of};
ghost use Rattle.mad_page_rows.specs.FaceLaws.{fronts};
ghost use Rattle.mad_wrap.specs.WrapLines.{capped};

use crate::columns::columns_in_front;
use crate::hits::{Hit, columns_of, row_hits};
use crate::rooms::RowRoom;
use crate::styled::overlaid_chars;
use mad_draw::{Rows, draw_rows};
use mad_format::FmtLine;
use mad_measure::Area;
use mad_page_rows::columns_left;
use mad_page_rows::faces::line_skin;
use mad_pages::{Front, front_at};
use mad_rows::RowSkin;
use mad_sections::Gutter;
use mad_style::{CompoundStyle, StyledChar};
use mad_term::{Error, Out};
use regex::Regex;
use std::alloc::{AllocError, Global};

/// Draws the hits of what is sought over rows of a page that were drawn in an area, those from the row `top` on, as many as its height. The page
/// has the columns of its room. The style of a hit's characters is overwritten with `style`. Nothing is flushed.
///
/// Parts of what is shown begin in the rows `starts`, as [`mad_pages::PagedPage`] tells. What is sought is in the lines alone; a hit begins behind what
/// stands in front of its line. Of a hit in several rows that come of one line of the text, each row has its part, also where another one isn't in
/// the area.
///
/// # Errors
///
/// A fault of the device, or out of memory. What went out by then is the hits of the rows before, and a beginning of those of one row.
pub fn draw_row_hits<O: Out>(
    alloc: Global,
    out: &mut O,
    skin: &RowSkin,
    style: CompoundStyle,
    lines: &[FmtLine],
    fronts: &[Front],
    starts: &[usize],
    top: usize,
    room: RowRoom,
    height: u16,
    sought: &Regex,
) -> Result<(), Error>
    ensures writes { WritesRowsHits skin.now style room (regex_pattern sought.now) lines.now fronts.now starts.now 0 (range_with_len top (min height (length lines.now - top))) (O.seen out.old) result (O.seen out.new) }
    ensures shown { OnOk result (TookWith (O.seen out.old) (O.seen out.new) (AreRowsMarked skin.now style room (regex_pattern sought.now) lines.now fronts.now starts.now 0 (range_with_len top (min height (length lines.now - top))))) }
{
    let count = usize::from(height).min(lines.len().saturating_sub(top));
    let mut y: u16 = 0;
    'rows: while usize::from(y) < count {
        let row = top + usize::from(y);
        draw_row(
            alloc, out, skin, style, lines, fronts, starts, row, room, y, sought,
        )?;
        y += 1;
    }
    Ok(())
}

// Draws those of one row.
fn draw_row<O: Out>(
    alloc: Global,
    out: &mut O,
    skin: &RowSkin,
    style: CompoundStyle,
    lines: &[FmtLine],
    fronts: &[Front],
    starts: &[usize],
    row: usize,
    room: RowRoom,
    y: u16,
    sought: &Regex,
) -> Result<(), Error>
    requires low { y + 1 < 2 ^ 16 }
    requires within { row < length lines.now }
    ensures writes { WritesRowHits skin.now style room (regex_pattern sought.now) lines.now fronts.now starts.now y row (O.seen out.old) result (O.seen out.new) }
    ensures shown { OnOk result (TookWith (O.seen out.old) (O.seen out.new) (IsRowMarked skin.now style room (regex_pattern sought.now) lines.now fronts.now starts.now y row)) }
{
    let own = front_at(fronts, row);
    let gutters = own.gutters;
    let rest = columns_left(skin, gutters, usize::from(room.columns()));
    let hits = row_hits(
        alloc,
        &line_skin(skin, own),
        lines,
        starts,
        row,
        rest,
        sought,
    )?;
    let front = columns_before(skin, room, gutters);
    draw_each(alloc, out, hits.as_slice(), style, front, room.end, y)
}

/// The columns before a row's line: those before its room, and those of its front.
pub fn columns_before(skin: &RowSkin, room: RowRoom, gutters: &[Gutter]) -> usize
    ensures { result ≡ capped (room.left + fronts skin.now gutters.now) }
{
    columns_in_front(skin, gutters).saturating_add(usize::from(room.left))
}

/// Draws hits in their style, each where it is within the columns, behind so many.
pub(crate) fn draw_each<O: Out>(
    alloc: Global,
    out: &mut O,
    hits: &[Hit],
    style: CompoundStyle,
    front: usize,
    width: u16,
    y: u16,
) -> Result<(), Error>
    requires { y + 1 < 2 ^ 16 }
    ensures writes { Draws (O.seen out.old) (hits_bytes width y (map (hit_behind style front) (map marked_of hits.now))) result (O.seen out.new) }
    ensures shown { OnOk result (TookWith (O.seen out.old) (O.seen out.new) (AreHitsShown width y (map (hit_behind style front) (map marked_of hits.now)))) }
{
    for hit in hits {
        draw_hit(alloc, out, hit, style, front, width, y)?;
    }
    Ok(())
}

// Draws a hit in its style, where it is within the columns.
fn draw_hit<O: Out>(
    alloc: Global,
    out: &mut O,
    hit: &Hit,
    style: CompoundStyle,
    front: usize,
    width: u16,
    y: u16,
) -> Result<(), Error>
    requires { y + 1 < 2 ^ 16 }
    ensures writes { Draws (O.seen out.old) (hit_bytes width y (hit_behind style front (marked_of hit.now))) result (O.seen out.new) }
    ensures shown { OnOk result (TookWith (O.seen out.old) (O.seen out.new) (IsHitShown width y (hit_behind style front (marked_of hit.now)))) }
{
    let column = front.saturating_add(hit.column);
    let chars = overlaid_chars(alloc, style, hit.chars.as_slice())?;
    draw_chars(alloc, out, chars.as_slice(), column, width, y)
}

/// Draws characters in row y of the screen, from a column on, where they are within the columns. Nothing is flushed.
///
/// # Errors
///
/// A fault of the device, or out of memory. What went out by then is a beginning of the whole.
pub fn draw_chars<O: Out>(
    alloc: Global,
    out: &mut O,
    chars: &[StyledChar],
    column: usize,
    width: u16,
    y: u16,
) -> Result<(), Error>
    requires { y + 1 < 2 ^ 16 }
    ensures writes { Draws (O.seen out.old) (hit_bytes width y (record { column = column; chars = chars.now })) result (O.seen out.new) }
    ensures shown { OnOk result (TookWith (O.seen out.old) (O.seen out.new) (IsHitShown width y (record { column = column; chars = chars.now }))) }
{
    let columns = columns_of(chars);
    if column.saturating_add(columns) > usize::from(width) {
        return Ok(());
    }
    let area = Area {
        left: column as u16,
        top: y,
        width: columns as u16,
        height: 1,
    };
    draw_rows(alloc, out, &Chars { chars }, &area)
}

// Characters in a row, each in its style.
#[derive(Clone, Copy)]
struct Chars<'c> {
    chars: &'c [StyledChar],
}

impl Rows for Chars<'_> {
    ghost use Rattle.std.specs.Prelude.{map};
    ghost use Rattle.mad_draw.specs.Pieces.{char_piece};

    ghost pieces = { λ row _. map char_piece row.chars.now };

    fn push_row(&self, bytes: &mut String, _y: u16) -> Result<(), AllocError> {
        for c in self.chars {
            // Nothing is done: this only says that the colors of the character are known.
            know_char(*c);
            write!(bytes, "{c}")?;
        }
        Ok(())
    }
}

// The numbers of a character's colors are bytes. Nothing is done.
fn know_char(c: StyledChar)
    ensures { IsStyle (char_style c).object_style }
{}
