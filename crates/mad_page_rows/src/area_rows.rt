//! The rows of a page in an area of the screen.

ghost use Rattle.std.specs.Prelude.{◌≡◌, ◌++◌, Some, true, OnOk, string_bytes, slice_get};
ghost use Rattle.std.specs.Option.{option_copied};
ghost use Rattle.mad_draw.specs.Pieces.{AreKnown, pieces_bytes};
ghost use Rattle.mad_pages.specs.Fronts.{front_content, row_behind};
ghost use Rattle.mad_page_rows.specs.AreaRows.{row_shown};
ghost use Rattle.mad_page_rows.specs.Faces.{behind_pieces, blanks, page_row_pieces};

use crate::faces::{blanks, columns_left, line_skin};
use crate::page_rows::PlacedFrontRow;
use mad_draw::Rows;
use mad_format::FmtLine;
use mad_pages::{Front, PageRow, front_of};
use mad_rows::{RowSkin, know_row, know_styles};
use std::alloc::AllocError;

/// The rows of a page in a place: each shows the row of its number, and past the last one spaces in the paragraph's style.
#[derive(Clone, Copy)]
pub struct PageTextRows<'a, 's> {
    /// The skin that they are drawn in.
    pub skin: &'a RowSkin,
    /// The rows.
    pub rows: &'a [PageRow<'s>],
    /// The columns of each row.
    pub width: usize,
}

impl Rows for PageTextRows<'_, '_> {
    ghost use Rattle.mad_page_rows.specs.AreaRows.{row_shown};

    ghost pieces = { λ rows y. row_shown rows.skin.now rows.width (slice_get rows.rows.now y) };

    fn push_row(&self, bytes: &mut String, y: u16) -> Result<(), AllocError> {
        push_shown(bytes, self.skin, row_at(self.rows, y), self.width)
    }
}

// The row of this number, if there is one.
fn row_at<'a, 's>(rows: &'a [PageRow<'s>], y: u16) -> Option<&'a PageRow<'s>>
    ensures { option_copied result ≡ slice_get rows.entry.now y }
{
    rows.get(usize::from(y))
}

// What a place of this width shows: a row, or past the last one spaces.
fn push_shown(
    bytes: &mut String,
    skin: &RowSkin,
    row: Option<&PageRow>,
    width: usize,
) -> Result<(), AllocError>
    ensures writes { OnOk result (string_bytes bytes.new ≡ string_bytes bytes.old ++ pieces_bytes (row_shown skin.now width (option_copied row.entry))) }
    ensures known { AreKnown (row_shown skin.now width (option_copied row.entry)) }
{
    match row {
        Some(row) => push_placed(bytes, skin, front_of(row), &row.line, width),
        None => push_blanks(bytes, skin, width),
    }
}

/// Puts a line behind its front, in a place of this width, after the bytes that are there.
pub fn push_placed(
    bytes: &mut String,
    skin: &RowSkin,
    front: Front,
    line: &FmtLine,
    width: usize,
) -> Result<(), AllocError>
    ensures writes { OnOk result (string_bytes bytes.new ≡ string_bytes bytes.old ++ pieces_bytes (page_row_pieces skin.now (Some width) true (row_behind (front_content front.entry) line.now))) }
    ensures known { AreKnown (page_row_pieces skin.now (Some width) true (row_behind (front_content front.entry) line.now)) }
{
    know_styles(skin);
    know_behind(skin, front, line, width);
    let placed = PlacedFrontRow {
        skin,
        front,
        line,
        outer: Some(width),
        filled: true,
    };
    write!(bytes, "{placed}")
}

/// Puts a row of blanks of this width after the bytes that are there.
pub fn push_blanks(bytes: &mut String, skin: &RowSkin, width: usize) -> Result<(), AllocError>
    ensures writes { OnOk result (string_bytes bytes.new ≡ string_bytes bytes.old ++ pieces_bytes (blanks skin.now width)) }
    ensures known { AreKnown (blanks skin.now width) }
{
    know_row(skin, None, width);
    let indent = blanks(skin, width);
    write!(bytes, "{indent}")
}

// The numbers of the colors of a row's line are bytes, behind its gutters.
fn know_behind(skin: &RowSkin, front: Front, line: &FmtLine, width: usize)
    ensures { AreKnown (behind_pieces skin.now (Some width) true (row_behind (front_content front.entry) line.now)) }
{
    know_styles(skin);
    let rest = columns_left(skin, front.gutters, width);
    know_row(&line_skin(skin, front), Some(line), rest);
}
