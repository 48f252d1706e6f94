//! Lines of a table: rows of cells, and rules across it.

ghost use Rattle.std.specs.Prelude.{◌≡◌, [], IfOk, map};
ghost use Rattle.mad_md.specs.Lines.{styled_runs};
ghost use Rattle.mad_format.specs.FmtLines.{AreCompositesRead};

use crate::composite::FmtComposite;
use crate::line_skin::LineSkin;
use mad_md::{Alignment, TableRow, TableRule};
use std::alloc::{AllocError, Global};

/// A row of a table.
#[derive(Debug, Drop)]
pub struct FmtTableRow<'s> {
    /// Its cells; once it is laid out, one for each kept column.
    pub cells: Vec<FmtComposite<'s>>,
}

impl<'s> FmtTableRow<'s> {
    /// A row as it was read, its cells measured in this skin. Only out of memory is an error.
    pub fn from<S: LineSkin>(alloc: Global, row: TableRow<'s>, skin: &S) -> Result<Self, AllocError>
        ensures { IfOk result (λ made. AreCompositesRead (S.rules skin.now) (map styled_runs row.entry.cells.items) made.cells.items) }
    {
        let mut cells = Vec::with_capacity(alloc, row.cells.len())?;
        for cell in row.cells {
            cells.push(FmtComposite::from(cell, skin))?;
        }
        Ok(FmtTableRow { cells })
    }
}

/// Where a rule is in its table, which decides how its ends look.
#[derive(Clone, Copy, Debug, PartialEq, Eq)]
pub enum RelativePosition {
    /// It is the table's first line.
    Top,
    /// It is between other lines.
    Other,
    /// It is the table's last line, and not the first.
    Bottom,
}

/// A rule across a table.
#[derive(Debug, Drop)]
pub struct FmtTableRule {
    /// Where it is in its table.
    pub position: RelativePosition,
    /// The columns' widths; none before the table is laid out.
    pub widths: Vec<usize>,
    /// The alignments that it gives to the columns of the rows below it.
    pub aligns: Vec<Alignment>,
}

impl FmtTableRule {
    ghost use Rattle.std.specs.Prelude.{OnErr, OnOk};
    ghost use Rattle.mad_md.specs.declared.alignment.Alignment.TheVariants.{Unspecified};
    ghost use Rattle.mad_format.specs.FmtLines.{resized};

    /// A rule as it was read, without widths.
    pub fn from(alloc: Global, rule: TableRule) -> Self
        ensures position { result.position ≡ RelativePosition.Other }
        ensures widths { result.widths.items ≡ [] }
        ensures aligns { result.aligns.items ≡ rule.cells.items }
    {
        FmtTableRule {
            position: RelativePosition::Other,
            widths: Vec::new(alloc),
            aligns: rule.cells,
        }
    }

    /// Cuts the rule's columns to `nbcols`, or fills them up: with the width 0, and the alignment Unspecified.
    ///
    /// Only out of memory is an error, which can leave the widths changed.
    pub fn set_nbcols(&mut self, nbcols: usize) -> Result<(), AllocError>
        ensures widths { OnOk result (self.new.widths.items ≡ resized nbcols 0 self.old.widths.items) }
        ensures aligns { OnOk result (self.new.aligns.items ≡ resized nbcols Unspecified self.old.aligns.items) }
        ensures err { OnErr result (self.new.aligns.items ≡ self.old.aligns.items) }
        ensures position { self.new.position ≡ self.old.position }
    {
        self.widths.resize(nbcols, 0)?;
        self.aligns.resize(nbcols, Alignment::Unspecified)
    }
}
