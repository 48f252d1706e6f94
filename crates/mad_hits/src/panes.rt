//! Rows of a page beside a scroll bar.

ghost use Rattle.std.specs.Prelude.{◌≡◌, OnOk, drop};
ghost use Rattle.mad_term.specs.Draws.{Draws};
ghost use Rattle.mad_term.specs.Trace.{TookWith};
ghost use Rattle.mad_draw.specs.BesideBar.{columns_beside};
ghost use Rattle.mad_hits.specs.Panes.{ArePageRowsDrawn, page_rows_bytes};

use crate::rooms::RowRoom;
use crate::rows::FrontRows;
use mad_draw::scroll_bars::{ScrollBar, columns_beside, draw_rows_beside};
use mad_format::FmtLine;
use mad_measure::Area;
use mad_pages::Front;
use mad_rows::RowSkin;
use mad_term::{Error, Out};
use std::alloc::Global;

/// Draws rows of a page in so many columns and rows from the screen's first on, beside a scroll bar, if there is one. The first row is `top`. Each is
/// in its room of the columns that the bar leaves, and all others are blank. Nothing is flushed.
///
/// # Errors
///
/// A fault of the device, or out of memory. What went out by then is a beginning of the whole.
pub fn draw_page_rows<O: Out>(
    alloc: Global,
    out: &mut O,
    skin: &RowSkin,
    bar: Option<ScrollBar>,
    lines: &[FmtLine],
    fronts: &[Front],
    top: usize,
    room: RowRoom,
    width: u16,
    height: u16,
) -> Result<(), Error>
    ensures writes { Draws (O.seen out.old) (page_rows_bytes skin.now bar lines.now fronts.now top room width height) result (O.seen out.new) }
    ensures shown { OnOk result (TookWith (O.seen out.old) (O.seen out.new) (ArePageRowsDrawn skin.now bar lines.now fronts.now top room width height)) }
{
    let rows = FrontRows {
        skin,
        lines: from_line(lines, top),
        fronts: from_front(fronts, top),
        room,
        width: usize::from(left_columns(bar, width)),
    };
    let area = Area {
        left: 0,
        top: 0,
        width,
        height,
    };
    draw_rows_beside(alloc, out, &rows, bar, &area)
}

/// The columns that a bar leaves of so many, if there is one.
pub fn left_columns(bar: Option<ScrollBar>, width: u16) -> u16
    ensures { result ≡ columns_beside bar width }
{
    columns_beside(bar, usize::from(width)) as u16
}

// The lines from one on.
fn from_line<'a, 's>(lines: &'a [FmtLine<'s>], top: usize) -> &'a [FmtLine<'s>]
    ensures { result.now ≡ drop top lines.entry.now }
{
    &lines[top.min(lines.len())..]
}

// The fronts from one on.
fn from_front<'a, 's>(fronts: &'a [Front<'s>], top: usize) -> &'a [Front<'s>]
    ensures { result.now ≡ drop top fronts.entry.now }
{
    &fronts[top.min(fronts.len())..]
}
