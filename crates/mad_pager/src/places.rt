//! Where the text, the status and what is typed are on a screen.

ghost use Rattle.std.specs.Prelude.{◌≡◌, ◌≤◌, ◌-◌, ◌*◌};
ghost use Rattle.mad_pager.specs.Rooms.{bounded, margin_at, room_on, room_width};
ghost use Rattle.mad_pager.specs.Sessions.{field_row, last_row, layout_width, prompt_cell, text_area};

use mad_hits::RowRoom;
use mad_measure::Area;
use mad_page_skin::TextRoom;

// The fewest columns that margins leave to a text.
const LEAST_BETWEEN: u32 = 55;

// The least bound of a text's columns.
const LEAST_BOUND: u16 = 20;

/// The area of a text on a screen: all rows but the last.
pub(crate) fn text_area(columns: u16, rows: u16) -> Area
    ensures { result ≡ text_area columns rows }
{
    Area {
        left: 0,
        top: 0,
        width: columns,
        height: rows.saturating_sub(1),
    }
}

/// The last row of a screen.
pub(crate) fn last_row(columns: u16, rows: u16) -> Area
    ensures { result ≡ last_row columns rows }
{
    Area {
        left: 0,
        top: rows.saturating_sub(1),
        width: columns,
        height: 1,
    }
}

/// Its first cell, where a slash stands before what is typed.
pub(crate) fn prompt_cell(rows: u16) -> Area
    ensures { result ≡ prompt_cell rows }
{
    Area {
        left: 0,
        top: rows.saturating_sub(1),
        width: 1,
        height: 1,
    }
}

/// The last row after it, where what is typed stands.
pub(crate) fn field_row(columns: u16, rows: u16) -> Area
    ensures { result ≡ field_row columns rows }
{
    Area {
        left: 1,
        top: rows.saturating_sub(1),
        width: columns.saturating_sub(1),
        height: 1,
    }
}

/// The width that a text is laid out at for a screen of these columns, also where there is no bar: that of its room beside one.
pub(crate) fn layout_width(room: TextRoom, columns: u16) -> usize
    ensures { result ≡ layout_width room columns }
{
    room_width(room, columns, usize::from(columns).saturating_sub(1))
}

/// The columns that rows have of those that the bar leaves of a screen.
pub(crate) fn room_on(room: TextRoom, columns: u16, left: u16) -> RowRoom
    ensures { result ≡ room_on room columns left }
{
    let margin = margin_at(room, columns);
    let width = room_width(room, columns, usize::from(left));
    RowRoom {
        left: margin,
        end: (usize::from(margin) + width) as u16,
    }
}

// The columns of a text, among so many that the bar leaves of a screen: no more than the bound, and the margins are free.
fn room_width(room: TextRoom, columns: u16, left: usize) -> usize
    ensures width { result ≡ room_width room columns left }
    ensures within { result ≤ left - 2 * margin_at room columns }
{
    let margins = 2 * usize::from(margin_at(room, columns));
    bounded(room.columns, left.saturating_sub(margins))
}

// The free columns on each side of a text, where that keeps enough of them.
fn margin_at(room: TextRoom, columns: u16) -> u16
    ensures { result ≡ margin_at room columns }
{
    if LEAST_BETWEEN + 2 * u32::from(room.margin) < u32::from(columns) {
        room.margin
    } else {
        0
    }
}

// Columns up to a bound, if there is one.
fn bounded(most: u16, columns: usize) -> usize
    ensures count { result ≡ bounded most columns }
    ensures within { result ≤ columns }
{
    if most == 0 {
        columns
    } else {
        columns.min(usize::from(most.max(LEAST_BOUND)))
    }
}
