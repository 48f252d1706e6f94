//! The lines of a table as displayed values: piece by piece, without memory.

ghost use Rattle.std.specs.Prelude.{◌≡◌, ℕ, Some};
ghost use Rattle.mad_draw.specs.Pieces.{pieces_bytes};
ghost use Rattle.mad_rows.specs.Rows.{table_blanks};
ghost use Rattle.mad_wrap.specs.WrapLines.{capped};
ghost use Rattle.mad_style.specs.StyledChars.{styled_char};

use crate::composites::PlacedComposite;
use crate::row_skin::RowSkin;
use crate::rows::{RowPlace, cell_margins, row_columns, rule_chars, table_blanks};
use mad_draw::{RuleAcross, Spaces};
use mad_format::{FmtComposite, FmtTableRow, FmtTableRule, rule_columns};
use mad_style::StyledChar;
use std::fmt;

// The cells of a row of a table, a border before each.
#[derive(Clone, Copy)]
struct Cells<'a, 's> {
    skin: &'a RowSkin,
    cells: &'a [FmtComposite<'s>],
}

impl fmt::Display for Cells<'_, '_> {
    ghost use Rattle.std.specs.List.{flat_map};
    ghost use Rattle.mad_rows.specs.Rows.{cell_pieces};

    ghost output = { λ c. Some (pieces_bytes (flat_map (cell_pieces c.skin.now) c.cells.now)) };

    fn fmt<W: fmt::Write>(&self, f: &mut fmt::Formatter<W>) -> fmt::Result {
        let border = vertical(self.skin);
        let margins = cell_margins(self.skin);
        for composite in self.cells {
            let placed = PlacedComposite {
                skin: self.skin,
                composite,
                place: RowPlace {
                    outer: None,
                    margins,
                    filled: true,
                },
            };
            write!(f, "{border}{placed}")?;
        }
        Ok(())
    }
}

/// A vertical border.
pub fn vertical(skin: &RowSkin) -> StyledChar
    ensures { result ≡ styled_char skin.now.table.compound_style skin.now.table_border_chars.vertical }
{
    StyledChar::new(skin.table.compound_style, skin.table_border_chars.vertical)
}

/// The blanks left and right of a line of a table by its columns, at an outer width; those on its right only where they are
/// asked for.
pub fn spaces_beside(
    skin: &RowSkin,
    columns: usize,
    outer: Option<usize>,
    filled: bool,
) -> (Spaces, Spaces)
    ensures left { (n : ℕ) → columns ≡ capped n → result.0 ≡ record { style = skin.now.paragraph.compound_style; count = (table_blanks skin.now outer filled n).0 } }
    ensures right { (n : ℕ) → columns ≡ capped n → result.1 ≡ record { style = skin.now.paragraph.compound_style; count = (table_blanks skin.now outer filled n).1 } }
{
    let (left, right) = table_blanks(skin, columns, outer, filled);
    (skin.blanks(left), skin.blanks(right))
}

/// A row of a table at an outer width.
#[derive(Clone, Copy)]
pub(crate) struct PlacedTableRow<'a, 's> {
    pub skin: &'a RowSkin,
    pub row: &'a FmtTableRow<'s>,
    pub outer: Option<usize>,
    pub filled: bool,
}

impl fmt::Display for PlacedTableRow<'_, '_> {
    ghost use Rattle.mad_rows.specs.Rows.{table_row_pieces};

    ghost output = { λ r. Some (pieces_bytes (table_row_pieces r.skin.now r.outer r.filled r.row.now.cells.items)) };

    fn fmt<W: fmt::Write>(&self, f: &mut fmt::Formatter<W>) -> fmt::Result {
        let columns = row_columns(self.skin, &self.row.cells);
        let (left, right) = spaces_beside(self.skin, columns, self.outer, self.filled);
        let cells = Cells {
            skin: self.skin,
            cells: &self.row.cells,
        };
        let border = vertical(self.skin);
        write!(f, "{left}{cells}{border}{right}")
    }
}

/// A rule across a table at an outer width.
#[derive(Clone, Copy)]
pub(crate) struct PlacedTableRule<'a> {
    pub skin: &'a RowSkin,
    pub rule: &'a FmtTableRule,
    pub outer: Option<usize>,
    pub filled: bool,
}

impl fmt::Display for PlacedTableRule<'_> {
    ghost use Rattle.mad_rows.specs.Rows.{table_rule_pieces};

    ghost output = { λ r. Some (pieces_bytes (table_rule_pieces r.skin.now r.outer r.filled r.rule.now)) };

    fn fmt<W: fmt::Write>(&self, f: &mut fmt::Formatter<W>) -> fmt::Result {
        let columns = rule_columns(&self.rule.widths);
        let (left, right) = spaces_beside(self.skin, columns, self.outer, self.filled);
        let rule = RuleAcross {
            style: self.skin.table.compound_style,
            chars: rule_chars(&self.skin.table_border_chars, self.rule.position),
            widths: &self.rule.widths,
        };
        write!(f, "{left}{rule}{right}")
    }
}
