//! Lines and rows as displayed values: piece by piece, without memory.

ghost use Rattle.std.specs.Prelude.{Some};
ghost use Rattle.mad_draw.specs.Pieces.{pieces_bytes};

use crate::composites::PlacedComposite;
use crate::row_skin::RowSkin;
use crate::tables::{PlacedTableRow, PlacedTableRule};
use mad_draw::CharRepeat;
use mad_format::FmtLine;
use std::fmt;

/// A line at an outer width, with its margins.
#[derive(Clone, Copy)]
pub struct PlacedLine<'a, 's> {
    /// The skin that it is drawn in.
    pub skin: &'a RowSkin,
    /// The line.
    pub line: &'a FmtLine<'s>,
    /// The columns that it has, if there is a width.
    pub outer: Option<usize>,
    /// Whether the columns right of it are filled up.
    pub filled: bool,
}

impl fmt::Display for PlacedLine<'_, '_> {
    ghost use Rattle.mad_rows.specs.Rows.{line_pieces};

    ghost output = { λ l. Some (pieces_bytes (line_pieces l.skin.now l.outer l.filled l.line.now)) };

    fn fmt<W: fmt::Write>(&self, f: &mut fmt::Formatter<W>) -> fmt::Result {
        match self.line {
            FmtLine::Normal(composite) => {
                PlacedComposite::at(self.skin, composite, self.outer, self.filled).fmt(f)
            }
            FmtLine::TableRow(row) => {
                let placed = PlacedTableRow {
                    skin: self.skin,
                    row,
                    outer: self.outer,
                    filled: self.filled,
                };
                placed.fmt(f)
            }
            FmtLine::TableRule(rule) => {
                let placed = PlacedTableRule {
                    skin: self.skin,
                    rule,
                    outer: self.outer,
                    filled: self.filled,
                };
                placed.fmt(f)
            }
            FmtLine::HorizontalRule => {
                let rule = CharRepeat {
                    c: self.skin.horizontal_rule,
                    count: self.outer.unwrap_or(0),
                };
                rule.fmt(f)
            }
        }
    }
}

/// What a row of `width` columns shows: a line, or past the last line spaces in the paragraph's style.
#[derive(Clone, Copy)]
pub struct PlacedRow<'a, 's> {
    /// The skin that it is drawn in.
    pub skin: &'a RowSkin,
    /// The line.
    pub line: Option<&'a FmtLine<'s>>,
    /// The columns of the row.
    pub width: usize,
}

impl fmt::Display for PlacedRow<'_, '_> {
    ghost use Rattle.std.specs.Option.{option_copied};
    ghost use Rattle.mad_rows.specs.Rows.{row_pieces};

    ghost output = { λ r. Some (pieces_bytes (row_pieces r.skin.now r.width (option_copied r.line))) };

    fn fmt<W: fmt::Write>(&self, f: &mut fmt::Formatter<W>) -> fmt::Result {
        match self.line {
            Some(line) => {
                let placed = PlacedLine {
                    skin: self.skin,
                    line,
                    outer: Some(self.width),
                    filled: true,
                };
                placed.fmt(f)
            }
            None => {
                let blanks = self.skin.blanks(self.width);
                blanks.fmt(f)
            }
        }
    }
}

/// Lines at an outer width, each ended by a newline.
#[derive(Clone, Copy)]
pub struct PlacedLines<'a, 's> {
    /// The skin that it is drawn in.
    pub skin: &'a RowSkin,
    /// The lines.
    pub lines: &'a [FmtLine<'s>],
    /// The columns of each line, if there is a width.
    pub outer: Option<usize>,
}

impl fmt::Display for PlacedLines<'_, '_> {
    ghost use Rattle.mad_rows.specs.Rows.{text_bytes};

    ghost output = { λ l. Some (text_bytes l.skin.now l.outer l.lines.now) };

    fn fmt<W: fmt::Write>(&self, f: &mut fmt::Formatter<W>) -> fmt::Result {
        for line in self.lines {
            let placed = PlacedLine {
                skin: self.skin,
                line,
                outer: self.outer,
                filled: false,
            };
            write!(f, "{placed}\n")?;
        }
        Ok(())
    }
}
