//! Drawing rows in an area of the screen.

ghost use Rattle.std.specs.Prelude.{◌≡◌, ℕ, List, ◌++◌, ◌+◌, ◌^◌, ◌<◌, OnOk, string_bytes};
ghost use Rattle.mad_term.specs.Commands.{move_to_bytes};
ghost use Rattle.mad_term.specs.Draws.{Draws};
ghost use Rattle.mad_term.specs.Trace.{TookWith};
ghost use Rattle.mad_measure.specs.Areas.{IsWithinLimits};
ghost use Rattle.mad_draw.specs.DrawnRows.{rows_bytes, FillArea, AreRowsShown};
ghost use Rattle.mad_draw.specs.Pieces.{RowPiece, AreKnown, pieces_bytes};

use mad_measure::Area;
use mad_term::{Error, Out, push_move, put_text};
use std::alloc::{AllocError, Global};

/// Rows of pieces that an area is to show.
pub trait Rows {
    /// The pieces of each row, by its number, counted from 0.
    ghost pieces: { Self → ℕ → List RowPiece };

    /// Appends what is written of the row of this number.
    ///
    /// # Errors
    ///
    /// Out of memory. What the text then ends with is open.
    fn push_row(&self, bytes: &mut String, y: u16) -> Result<(), AllocError>
        ensures writes { OnOk result (string_bytes bytes.new ≡ string_bytes bytes.old ++ pieces_bytes (pieces self.now y)) }

        // The numbers of its colors are bytes: what reading the row back needs to know.
        ensures known { OnOk result (AreKnown (pieces self.now y)) };
}

/// Draws rows in an area, the first one on top, each after a move to its position. Nothing is flushed.
///
/// The area's right and bottom have to fit a `u16`. Each row goes to the device in one put, as long as that takes all of it.
///
/// # Errors
///
/// A fault of the device, or out of memory. What went out by then is a beginning of the whole.
pub fn draw_rows<O: Out, R: Rows>(
    alloc: Global,
    out: &mut O,
    rows: &R,
    area: &Area,
) -> Result<(), Error>
    requires { IsWithinLimits area.now }
    ensures writes { Draws (O.seen out.old) (rows_bytes (R.pieces rows.now) area.now) result (O.seen out.new) }

    // What a plain terminal shows that reads it, where each row fills the area's width exactly. No piece of a row may hold a control
    // character or begin with a widthless one.
    ensures shown { OnOk result (FillArea (R.pieces rows.now) area.now → TookWith (O.seen out.old) (O.seen out.new) (AreRowsShown (R.pieces rows.now) area.now)) }
{
    let mut bytes = String::new(alloc);
    for y in 0..area.height {
        draw_row(out, &mut bytes, rows, area, y)?;
    }
    Ok(())
}

// Draws one row of the area. It is built in `bytes` first.
#[tactic(auto, using(mad_term::proofs::QueueExits::memory_first))]
fn draw_row<O: Out, R: Rows>(
    out: &mut O,
    bytes: &mut String,
    rows: &R,
    area: &Area,
    y: u16,
) -> Result<(), Error>
    requires { area.now.top + y < 2 ^ 16 }
    ensures writes { Draws (O.seen out.old) (move_to_bytes area.now.left (area.now.top + y) ++ pieces_bytes (R.pieces rows.now y)) result (O.seen out.new) }
    ensures known { OnOk result (AreKnown (R.pieces rows.now y)) }
{
    bytes.clear();
    push_move(bytes, area.left, area.top + y)?;
    rows.push_row(bytes, y)?;
    put_text(out, bytes)
}
