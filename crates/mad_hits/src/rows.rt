//! Rows of a page in an area of the screen, each a line and what stands in front of it.

ghost use Rattle.std.specs.Prelude.{◌≡◌, ◌++◌, OnOk, string_bytes, slice_get};
ghost use Rattle.std.specs.Option.{option_copied};
ghost use Rattle.mad_draw.specs.Pieces.{AreKnown, pieces_bytes};
ghost use Rattle.mad_pages.specs.Fronts.{front_content};
ghost use Rattle.mad_hits.specs.FrontRows.{row_shown};
ghost use Rattle.mad_hits.specs.Rooms.{in_room, room_columns};

use crate::rooms::RowRoom;
use mad_draw::Rows;
use mad_format::FmtLine;
use mad_page_rows::area_rows::{push_blanks, push_placed};
use mad_pages::{Front, front_at};
use mad_rows::RowSkin;
use std::alloc::AllocError;

/// Rows of a page in a place: each shows the line of its number behind the front of the same number, and past the last one spaces in the
/// paragraph's style. So are the columns beside their room.
#[derive(Clone, Copy)]
pub struct FrontRows<'a, 's> {
    /// The skin that they are drawn in.
    pub skin: &'a RowSkin,
    /// The lines.
    pub lines: &'a [FmtLine<'s>],
    /// What stands in front of each.
    pub fronts: &'a [Front<'s>],
    /// The columns that they have.
    pub room: RowRoom,
    /// The columns of the place.
    pub width: usize,
}

impl Rows for FrontRows<'_, '_> {
    ghost use Rattle.mad_hits.specs.FrontRows.{page_row};

    ghost pieces = { λ rows y. page_row rows.skin.now rows.room rows.width rows.lines.now rows.fronts.now y };

    fn push_row(&self, bytes: &mut String, y: u16) -> Result<(), AllocError> {
        let row = usize::from(y);
        push_in_room(
            bytes,
            self.skin,
            front_at(self.fronts, row),
            line_at(self.lines, row),
            self.room,
            self.width,
        )
    }
}

// The line of this number, if there is one.
fn line_at<'a, 's>(lines: &'a [FmtLine<'s>], row: usize) -> Option<&'a FmtLine<'s>>
    ensures { option_copied result ≡ slice_get lines.entry.now row }
{
    lines.get(row)
}

// What a place of this width shows: a row in its room, and blanks beside it.
fn push_in_room(
    bytes: &mut String,
    skin: &RowSkin,
    front: Front,
    line: Option<&FmtLine>,
    room: RowRoom,
    width: usize,
) -> Result<(), AllocError>
    ensures writes { OnOk result (string_bytes bytes.new ≡ string_bytes bytes.old ++ pieces_bytes (in_room skin.now room width (row_shown skin.now (room_columns room) (front_content front.entry) (option_copied line.entry)))) }
    ensures known { OnOk result (AreKnown (in_room skin.now room width (row_shown skin.now (room_columns room) (front_content front.entry) (option_copied line.entry)))) }
{
    push_blanks(bytes, skin, usize::from(room.left))?;
    push_shown(bytes, skin, front, line, usize::from(room.columns()))?;
    push_blanks(bytes, skin, width.saturating_sub(usize::from(room.end)))?;
    Ok(())
}

// What a place of this width shows: a row, or past the last one spaces.
fn push_shown(
    bytes: &mut String,
    skin: &RowSkin,
    front: Front,
    line: Option<&FmtLine>,
    width: usize,
) -> Result<(), AllocError>
    ensures writes { OnOk result (string_bytes bytes.new ≡ string_bytes bytes.old ++ pieces_bytes (row_shown skin.now width (front_content front.entry) (option_copied line.entry))) }
    ensures known { AreKnown (row_shown skin.now width (front_content front.entry) (option_copied line.entry)) }
{
    match line {
        Some(line) => push_placed(bytes, skin, front, line, width),
        None => push_blanks(bytes, skin, width),
    }
}
