//! Drawing a layout's rows in an area of the screen.

ghost use Rattle.std.specs.Prelude.{◌≡◌, OnOk, drop};
ghost use Rattle.mad_term.specs.Draws.{Draws};
ghost use Rattle.mad_measure.specs.Areas.{IsWithinLimits};
ghost use Rattle.mad_layout.specs.ShownBeside.{ShowsDrawableBeside, ShowsLayoutBeside, beside_bytes};
ghost use Rattle.mad_layout.specs.ShownLayouts.{ShowsDrawable, ShowsLayout, ShowsRowsFrom};
ghost use Rattle.mad_layout.specs.Shown.{area_bytes, text_bar};
ghost use Rattle.mad_layout.specs.RowSkins.{row_skin};

use crate::fmt_text::FmtText;
use mad_draw::{Rows, RowsBeside, ScrollBar, columns_beside, draw_rows, draw_rows_beside};
use mad_format::FmtLine;
use mad_measure::Area;
use mad_rows::{RowSkin, TextRows};
use mad_term::{Error, Out};
use std::alloc::Global;

/// Draws the rows of a text in an area, that of the line `scroll`, counted from 0, first. Past the last line there are spaces in the
/// paragraph's style. Where `bar` is set, and the text has more lines than the area has rows, the skin's scroll bar is in the area's last
/// column. Each row fills the area's width, or the columns that the bar leaves. Nothing is flushed.
///
/// The area's right and bottom have to fit a `u16`. The lines are drawn as they are: one that is wider than its row, as
/// one of a text that was laid out for a wider place, leaves it. Each row goes to the device in one put, as long as that takes all of it.
///
/// # Errors
///
/// A fault of the device, or out of memory. What went out by then is a beginning of the whole.
pub fn draw_text<O: Out>(
    alloc: Global,
    out: &mut O,
    text: &FmtText,
    area: &Area,
    scroll: usize,
    bar: bool,
) -> Result<(), Error>
    requires { IsWithinLimits area.now }
    ensures writes { Draws (O.seen out.old) (area_bytes (row_skin text.now.skin.now) (text_bar bar text.now area.now scroll) text.now.lines.items area.now scroll) result (O.seen out.new) }

    // What a plain terminal shows that reads it. Asked is of each line that has a row, as a layout left it: with its margins it fits the
    // columns that the bar leaves. No piece of it holds a control character or begins with a widthless one. Each character of a prefix, a
    // rule, a border and the bar takes one column.
    ensures shown { OnOk result (ShowsDrawable (row_skin text.now.skin.now) (text_bar bar text.now area.now scroll) text.now.lines.items area.now scroll (O.seen out.old) (O.seen out.new)) }

    // The same where the lines are a layout, at no more than those columns, of a text that keeps the premises.
    ensures shown_layout { OnOk result (ShowsLayout (row_skin text.now.skin.now) (text_bar bar text.now area.now scroll) text.now.lines.items area.now scroll (O.seen out.old) (O.seen out.new)) }

    // The same in the text's own characters, where the layout has three columns at least.
    ensures headline { OnOk result (ShowsRowsFrom (row_skin text.now.skin.now) (text_bar bar text.now area.now scroll) text.now.lines.items area.now scroll (O.seen out.old) (O.seen out.new)) }
{
    let skin = text.skin.row_skin();
    draw_text_in(alloc, out, &skin, text, area, scroll, bar)
}

/// Draws the rows of a text in an area, as [`draw_text`] does, but in the styles of another skin than the text's. The bar is that of the
/// text's skin. Nothing is flushed.
///
/// The area's right and bottom have to fit a `u16`.
///
/// # Errors
///
/// A fault of the device, or out of memory. What went out by then is a beginning of the whole.
pub fn draw_text_in<O: Out>(
    alloc: Global,
    out: &mut O,
    skin: &RowSkin,
    text: &FmtText,
    area: &Area,
    scroll: usize,
    bar: bool,
) -> Result<(), Error>
    requires { IsWithinLimits area.now }
    ensures writes { Draws (O.seen out.old) (area_bytes skin.now (text_bar bar text.now area.now scroll) text.now.lines.items area.now scroll) result (O.seen out.new) }
    ensures shown { OnOk result (ShowsDrawable skin.now (text_bar bar text.now area.now scroll) text.now.lines.items area.now scroll (O.seen out.old) (O.seen out.new)) }
    ensures shown_layout { OnOk result (ShowsLayout skin.now (text_bar bar text.now area.now scroll) text.now.lines.items area.now scroll (O.seen out.old) (O.seen out.new)) }
    ensures headline { OnOk result (ShowsRowsFrom skin.now (text_bar bar text.now area.now scroll) text.now.lines.items area.now scroll (O.seen out.old) (O.seen out.new)) }
{
    let shown_bar = text_bar(text, area, scroll, bar);
    let rows = TextRows {
        skin,
        lines: lines_from(text.lines.as_slice(), scroll),
        width: columns_beside(shown_bar, usize::from(area.width)),
    };
    let beside = RowsBeside {
        rows: &rows,
        bar: shown_bar,
    };
    draw_rows(alloc, out, &beside, area)
}

/// Draws the rows of a text in an area, as [`draw_text_in`] does, but the bar has moves of its own: it is drawn after all rows, each of its
/// characters after a move to its cell. So it stays in its column where a terminal gives a row's characters more or fewer columns than are counted
/// here. Nothing is flushed.
///
/// The area's right and bottom have to fit a `u16`. The right border of a table follows its row, and has no move of its own.
///
/// # Errors
///
/// A fault of the device, or out of memory. What went out by then is a beginning of the whole.
pub fn draw_text_beside<O: Out>(
    alloc: Global,
    out: &mut O,
    skin: &RowSkin,
    text: &FmtText,
    area: &Area,
    scroll: usize,
    bar: bool,
) -> Result<(), Error>
    requires { IsWithinLimits area.now }
    ensures writes { Draws (O.seen out.old) (beside_bytes skin.now (text_bar bar text.now area.now scroll) text.now.lines.items area.now scroll) result (O.seen out.new) }

    // What a plain terminal shows that reads it: the cells that `draw_text_in` shows.
    ensures shown { OnOk result (ShowsDrawableBeside skin.now (text_bar bar text.now area.now scroll) text.now.lines.items area.now scroll (O.seen out.old) (O.seen out.new)) }
    ensures shown_layout { OnOk result (ShowsLayoutBeside skin.now (text_bar bar text.now area.now scroll) text.now.lines.items area.now scroll (O.seen out.old) (O.seen out.new)) }
    ensures headline { OnOk result (ShowsRowsFrom skin.now (text_bar bar text.now area.now scroll) text.now.lines.items area.now scroll (O.seen out.old) (O.seen out.new)) }
{
    let shown_bar = text_bar(text, area, scroll, bar);
    let rows = TextRows {
        skin,
        lines: lines_from(text.lines.as_slice(), scroll),
        width: columns_beside(shown_bar, usize::from(area.width)),
    };
    draw_rows_beside(alloc, out, &rows, shown_bar, area)
}

// The scroll bar beside a text that is drawn in an area from line `scroll` on, where it is asked for.
fn text_bar(text: &FmtText, area: &Area, scroll: usize, asked: bool) -> Option<ScrollBar>
    ensures { result ≡ text_bar asked text.now area.now scroll }
{
    if !asked {
        return None;
    }
    ScrollBar::beside(area, scroll, text.lines.len(), text.skin.scrollbar)
}

// The lines from line `scroll` on; past the last one none.
fn lines_from<'a, 's>(lines: &'a [FmtLine<'s>], scroll: usize) -> &'a [FmtLine<'s>]
    ensures { result.now ≡ drop scroll lines.entry.now }
{
    &lines[scroll.min(lines.len())..]
}
