//! A line as a displayed value.

ghost use Rattle.std.specs.Prelude.{◌≡◌, Some, false};
ghost use Rattle.mad_draw.specs.Pieces.{pieces_bytes};
ghost use Rattle.mad_rows.specs.Rows.{line_pieces};
ghost use Rattle.mad_layout.specs.RowSkins.{row_skin};

use crate::skin::MadSkin;
use mad_format::FmtLine;
use mad_rows::PlacedLine;
use std::fmt;

/// A line, displayed at a width if there is one: what is right of it isn't filled up, and no newline ends it.
#[derive(Clone, Copy, Debug)]
pub struct DisplayableLine<'a, 's> {
    /// The styles that it is displayed in.
    pub skin: &'a MadSkin,
    /// The line.
    pub line: &'a FmtLine<'s>,
    /// The columns that it is displayed in, if there is a width.
    pub width: Option<usize>,
}

impl<'a, 's> DisplayableLine<'a, 's> {
    /// A line, to be displayed at a width.
    pub fn new(skin: &'a MadSkin, line: &'a FmtLine<'s>, width: Option<usize>) -> Self
        ensures { result ≡ record { skin = skin.entry; line = line.entry; width = width } }
    {
        DisplayableLine { skin, line, width }
    }
}

impl fmt::Display for DisplayableLine<'_, '_> {
    ghost output = { λ l. Some (pieces_bytes (line_pieces (row_skin l.skin.now) l.width false l.line.now)) };

    fn fmt<W: fmt::Write>(&self, f: &mut fmt::Formatter<W>) -> fmt::Result {
        let placed = PlacedLine {
            skin: &self.skin.row_skin(),
            line: self.line,
            outer: self.width,
            filled: false,
        };
        write!(f, "{placed}")
    }
}
