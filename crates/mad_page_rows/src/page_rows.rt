//! Rows of a page as displayed values: piece by piece, without memory.

ghost use Rattle.std.specs.Prelude.{Some};
ghost use Rattle.mad_draw.specs.Pieces.{pieces_bytes};

use crate::faces::{Faces, backs, columns_behind, has_ascii_boxes, is_filled, line_skin};
use mad_format::FmtLine;
use mad_mark_runs::MarkRun;
use mad_marked_rows::MarkedComposite;
use mad_pages::{Front, PageRow, front_of};
use mad_rows::{PlacedComposite, PlacedLine, RowSkin};
use mad_sections::Gutter;
use mad_style::CompoundStyle;
use std::fmt::{self, Display};

/// A line of a page at an outer width: the faces of what stands in front of it, the line behind them, and the other sides of boxes.
#[derive(Clone, Copy)]
pub struct PlacedFrontRow<'a, 's> {
    /// The skin that it is drawn in.
    pub skin: &'a RowSkin,
    /// What stands in front of its line.
    pub front: Front<'s>,
    /// The line.
    pub line: &'a FmtLine<'s>,
    /// The columns that it has, if there is a width.
    pub outer: Option<usize>,
    /// Whether the columns right of it are filled up.
    pub filled: bool,
}

impl fmt::Display for PlacedFrontRow<'_, '_> {
    ghost use Rattle.mad_pages.specs.Fronts.{front_content, row_behind};
    ghost use Rattle.mad_page_rows.specs.Faces.{page_row_pieces};

    ghost output = { λ r. Some (pieces_bytes (page_row_pieces r.skin.now r.outer r.filled (row_behind (front_content r.front) r.line.now))) };

    fn fmt<W: fmt::Write>(&self, f: &mut fmt::Formatter<W>) -> fmt::Result {
        let gutters = self.front.gutters;
        let others = gutters.len().saturating_sub(self.front.fresh);
        let (others, fresh) = gutters.split_at(others);
        let others = Faces {
            skin: self.skin,
            gutters: others,
            first: false,
        };
        let fresh = Faces {
            skin: self.skin,
            gutters: fresh,
            first: true,
        };
        let line = LineBehind {
            skin: self.skin,
            front: self.front,
            line: self.line,
            outer: self.outer,
            filled: self.filled,
        };
        let sides = Backs {
            skin: self.skin,
            gutters,
        };
        others.fmt(f)?;
        fresh.fmt(f)?;
        line.fmt(f)?;
        sides.fmt(f)
    }
}

// A row's line, in the columns that its gutters leave.
#[derive(Clone, Copy)]
struct LineBehind<'a, 's> {
    skin: &'a RowSkin,
    front: Front<'s>,
    line: &'a FmtLine<'s>,
    outer: Option<usize>,
    filled: bool,
}

impl fmt::Display for LineBehind<'_, '_> {
    ghost use Rattle.mad_pages.specs.Fronts.{front_content, row_behind};
    ghost use Rattle.mad_page_rows.specs.Faces.{behind_pieces};

    ghost output = { λ r. Some (pieces_bytes (behind_pieces r.skin.now r.outer r.filled (row_behind (front_content r.front) r.line.now))) };

    fn fmt<W: fmt::Write>(&self, f: &mut fmt::Formatter<W>) -> fmt::Result {
        let gutters = self.front.gutters;
        let skin = line_skin(self.skin, self.front);
        let line = TonedLine {
            skin: &skin,
            tones: self.skin.tone_styles(),
            marks: self.front.marks,
            number: self.front.number,
            line: self.line,
            outer: columns_behind(gutters, self.outer, has_ascii_boxes(self.skin)),
            filled: is_filled(self.skin, gutters, self.filled),
        };
        line.fmt(f)
    }
}

// A line with its marks.
#[derive(Clone, Copy)]
struct TonedLine<'a, 's> {
    skin: &'a RowSkin,
    tones: &'a [CompoundStyle],
    marks: &'a [MarkRun],
    number: usize,
    line: &'a FmtLine<'s>,
    outer: Option<usize>,
    filled: bool,
}

impl fmt::Display for TonedLine<'_, '_> {
    ghost use Rattle.mad_page_rows.specs.Faces.{toned_pieces};

    ghost output = { λ l. Some (pieces_bytes (toned_pieces l.marks.now l.tones.now l.number l.skin.now l.outer l.filled l.line.now)) };

    fn fmt<W: fmt::Write>(&self, f: &mut fmt::Formatter<W>) -> fmt::Result {
        let plain = PlacedLine {
            skin: self.skin,
            line: self.line,
            outer: self.outer,
            filled: self.filled,
        };
        match self.marks {
            [] => plain.fmt(f),
            [_, ..] => match self.tones {
                [] => plain.fmt(f),
                [_, ..] => match self.line {
                    FmtLine::Normal(composite) => {
                        let placed = PlacedComposite::at(
                            self.skin,
                            composite,
                            self.outer,
                            self.filled,
                        );
                        let marked = MarkedComposite {
                            skin: self.skin,
                            styles: self.tones,
                            runs: self.marks,
                            number: self.number,
                            composite,
                            place: placed.place,
                        };
                        marked.fmt(f)
                    }
                    FmtLine::TableRow(_) | FmtLine::TableRule(_) | FmtLine::HorizontalRule => {
                        plain.fmt(f)
                    }
                },
            },
        }
    }
}

// The other sides of boxes, behind a row.
#[derive(Clone, Copy)]
struct Backs<'a> {
    skin: &'a RowSkin,
    gutters: &'a [Gutter],
}

impl fmt::Display for Backs<'_> {
    ghost use Rattle.mad_page_rows.specs.Faces.{backs};

    ghost output = { λ b. Some (pieces_bytes (backs b.skin.now b.gutters.now)) };

    fn fmt<W: fmt::Write>(&self, f: &mut fmt::Formatter<W>) -> fmt::Result {
        let sides = backs(self.skin, self.gutters);
        sides.fmt(f)
    }
}

/// A row of a page at an outer width: the faces of its gutters, its line behind them, and the other sides of boxes.
#[derive(Clone, Copy)]
pub struct PlacedPageRow<'a, 's> {
    /// The skin that it is drawn in.
    pub skin: &'a RowSkin,
    /// The row.
    pub row: &'a PageRow<'s>,
    /// The columns that it has, if there is a width.
    pub outer: Option<usize>,
    /// Whether the columns right of it are filled up.
    pub filled: bool,
}

impl fmt::Display for PlacedPageRow<'_, '_> {
    ghost use Rattle.mad_pages.specs.PageRows.{row_content};
    ghost use Rattle.mad_page_rows.specs.Faces.{page_row_pieces};

    ghost output = { λ r. Some (pieces_bytes (page_row_pieces r.skin.now r.outer r.filled (row_content r.row.now))) };

    fn fmt<W: fmt::Write>(&self, f: &mut fmt::Formatter<W>) -> fmt::Result {
        let row = self.row;
        let placed = PlacedFrontRow {
            skin: self.skin,
            front: front_of(row),
            line: &row.line,
            outer: self.outer,
            filled: self.filled,
        };
        placed.fmt(f)
    }
}

/// Rows of a page at an outer width, each ended by a newline.
#[derive(Clone, Copy)]
pub struct PlacedPageRows<'a, 's> {
    /// The skin that they are drawn in.
    pub skin: &'a RowSkin,
    /// The rows.
    pub rows: &'a [PageRow<'s>],
    /// The columns of each row, if there is a width.
    pub outer: Option<usize>,
}

impl fmt::Display for PlacedPageRows<'_, '_> {
    ghost use Rattle.mad_page_rows.specs.Faces.{page_bytes};

    ghost output = { λ p. Some (page_bytes p.skin.now p.outer p.rows.now) };

    fn fmt<W: fmt::Write>(&self, f: &mut fmt::Formatter<W>) -> fmt::Result {
        for row in self.rows {
            let placed = PlacedPageRow {
                skin: self.skin,
                row,
                outer: self.outer,
                filled: false,
            };
            write!(f, "{placed}\n")?;
        }
        Ok(())
    }
}
