//! Drawing rows with links in an area of the screen.

ghost use Rattle.std.specs.Prelude.{◌≡◌, ℕ, List, Option, ◌++◌, ◌+◌, ◌^◌, ◌<◌, OnOk, map, slice_get, string_bytes};
ghost use Rattle.mad_term.specs.Draws.{Draws};
ghost use Rattle.mad_term.specs.Trace.{TookWith};
ghost use Rattle.mad_measure.specs.Areas.{IsWithinLimits};
ghost use Rattle.mad_draw.specs.DrawnRows.{FillArea};
ghost use Rattle.mad_draw.specs.Pieces.{AreKnown};
ghost use Rattle.mad_links.specs.Pieces.{piece_of};
ghost use Rattle.mad_links.specs.LinkRows.{AreAddresses, LinkedPiece, linked_bytes};
ghost use Rattle.mad_links.specs.AreaLaws.{IsShownWithoutLinks};
ghost use Rattle.mad_links.specs.LinkedAreas.{AreLinkedRowsShown, given_pieces, linked_rows_bytes, without_links};

use crate::addresses::LinkAddress;
use crate::rows::{LinkPiece, know_addresses, know_style, push_linked};
use mad_draw::{Parts, put_parts};
use mad_measure::Area;
use mad_term::{Error, Out, push_move};
use std::alloc::{AllocError, Global};

/// Rows of pieces with links that an area is to show.
pub trait LinkedRows {
    /// The pieces of each row, by its number, counted from 0.
    ghost pieces: { Self → ℕ → List LinkedPiece };

    /// The addresses of their links.
    ghost addresses: { Self → List (Option (List ℕ)) };

    /// Appends what is written of the row of this number.
    ///
    /// # Errors
    ///
    /// Out of memory. What the text then ends with is open.
    fn push_row(&self, bytes: &mut String, y: u16) -> Result<(), AllocError>
        ensures { OnOk result (string_bytes bytes.new ≡ string_bytes bytes.old ++ linked_bytes (addresses self.now) (pieces self.now y)) };

    /// Nothing is done: this only says that the numbers of the row's colors are bytes, and that the addresses can be written.
    fn know_row(&self, y: u16)
        ensures known { AreKnown (without_links (pieces self.now y)) }
        ensures writable { AreAddresses (addresses self.now) };
}

// The rows as parts, each after a move to its position.
#[derive(Drop)]
struct InArea<'r, R> {
    rows: &'r R,
    area: Area,
    ghost within: { area.top + area.height < 2 ^ 16 },
}

impl<R: LinkedRows> Parts for InArea<'_, R> {
    ghost use Rattle.mad_links.specs.LinkedAreas.{row_part};

    ghost count = { λ parts. parts.area.height };

    ghost part = { λ parts. row_part (R.pieces parts.rows.now) (R.addresses parts.rows.now) parts.area };

    fn count(&self) -> usize {
        usize::from(self.area.height)
    }

    fn push_part(&self, bytes: &mut String, number: usize) -> Result<(), AllocError> {
        let y = number as u16;
        push_move(bytes, self.area.left, self.area.top + y)?;
        self.rows.push_row(bytes, y)?;
        Ok(())
    }
}

/// Draws rows with links in an area, the first one on top, each after a move to its position. Each row ends its links. Nothing is flushed.
///
/// The area's right and bottom have to fit a `u16`. Each row goes to the device in one put, as long as that takes all of it.
///
/// # Errors
///
/// A fault of the device, or out of memory. What went out by then is a beginning of the whole.
pub fn draw_linked_rows<O: Out, R: LinkedRows>(
    alloc: Global,
    out: &mut O,
    rows: &R,
    area: &Area,
) -> Result<(), Error>
    requires { IsWithinLimits area.now }
    ensures writes { Draws (O.seen out.old) (linked_rows_bytes (R.pieces rows.now) (R.addresses rows.now) area.now) result (O.seen out.new) }

    // What a terminal with links shows that reads it, and where its cells lead, where each row fills the area's width exactly. No piece of a row may hold a
    // control character or begin with a widthless one.
    ensures shown { OnOk result (FillArea (λ y. without_links (R.pieces rows.now y)) area.now → TookWith (O.seen out.old) (O.seen out.new) (AreLinkedRowsShown (R.pieces rows.now) (R.addresses rows.now) area.now)) }

    // A terminal that passes over links shows what the plain one does of the rows without links.
    ensures same { OnOk result (FillArea (λ y. without_links (R.pieces rows.now y)) area.now → TookWith (O.seen out.old) (O.seen out.new) (IsShownWithoutLinks (R.pieces rows.now) area.now)) }
{
    know_rows(rows, area.height);
    put_rows(alloc, out, rows, area)?;
    Ok(())
}

fn put_rows<O: Out, R: LinkedRows>(
    alloc: Global,
    out: &mut O,
    rows: &R,
    area: &Area,
) -> Result<(), Error>
    requires { IsWithinLimits area.now }
    ensures { Draws (O.seen out.old) (linked_rows_bytes (R.pieces rows.now) (R.addresses rows.now) area.now) result (O.seen out.new) }
{
    let parts = InArea { rows, area: *area };
    put_parts(alloc, out, &parts)
}

// Nothing is done: this only says what each row says.
fn know_rows<R: LinkedRows>(rows: &R, count: u16)
    ensures known { (y : ℕ) → y < count → AreKnown (without_links (R.pieces rows.now y)) }
    ensures writable { AreAddresses (R.addresses rows.now) }
{
    rows.know_row(0);
    for y in 0..count {
        rows.know_row(y);
    }
}

/// Rows of pieces that are there, with the addresses of their links. Past the last one a row has no pieces.
#[derive(Clone, Copy)]
pub struct PieceRows<'a> {
    /// The pieces of each row.
    pub rows: &'a [&'a [LinkPiece<'a>]],
    /// The addresses of their links.
    pub addresses: &'a [Option<LinkAddress>],
}

impl LinkedRows for PieceRows<'_> {
    ghost use Rattle.mad_links.specs.LinkedAreas.{given_row};

    ghost pieces = { λ given y. given_row given.rows.now y };

    ghost addresses = { λ given. given.addresses.now };

    fn push_row(&self, bytes: &mut String, y: u16) -> Result<(), AllocError> {
        push_linked(bytes, row_at(self.rows, y), self.addresses)?;
        Ok(())
    }

    fn know_row(&self, y: u16) {
        know_styles(row_at(self.rows, y));
        know_addresses(self.addresses);
    }
}

// The row of this number; no pieces past the last.
fn row_at<'a>(rows: &[&'a [LinkPiece<'a>]], y: u16) -> &'a [LinkPiece<'a>]
    ensures { result.now ≡ given_pieces (slice_get rows.now y) }
{
    let at = usize::from(y);
    if at < rows.len() { rows[at] } else { &[] }
}

// Nothing is done: this only says that the numbers of the colors are bytes.
fn know_styles(pieces: &[LinkPiece])
    ensures { AreKnown (without_links (map piece_of pieces.now)) }
{
    for piece in pieces {
        know_style(piece.style);
    }
}
