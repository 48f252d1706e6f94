//! Lines of a layout.

ghost use Rattle.std.specs.Prelude.{◌≡◌, ◌++◌, ◌∷◌, [], IfOk, OnOk};
ghost use Rattle.mad_md.specs.Lines.{content_of};
ghost use Rattle.mad_format.specs.FmtLines.{IsLineRead, cells_columns, rule_columns, bordered};
ghost use Rattle.mad_wrap.specs.WrapLines.{capped};

use crate::composite::FmtComposite;
use crate::line_skin::LineSkin;
use crate::table::{FmtTableRow, FmtTableRule};
use mad_md::Line;
use std::alloc::{AllocError, Global};

/// A line of a layout.
#[derive(Debug, Drop)]
pub enum FmtLine<'s> {
    /// A line of text.
    Normal(FmtComposite<'s>),
    /// A row of a table.
    TableRow(FmtTableRow<'s>),
    /// A rule across a table.
    TableRule(FmtTableRule),
    /// A rule across the page.
    HorizontalRule,
}

impl<'s> FmtLine<'s> {
    ghost use Rattle.mad_format.specs.FmtLines.{columns_of_line, is_table_line};

    /// A line as it was read, measured with the indent that it has in this skin. Only out of memory is an error.
    pub fn from<S: LineSkin>(alloc: Global, line: Line<'s>, skin: &S) -> Result<Self, AllocError>
        ensures { IfOk result (λ made. IsLineRead (S.rules skin.now) (content_of line.entry) made) }
    {
        match line {
            Line::Normal(composite) => Ok(FmtLine::Normal(FmtComposite::from(composite, skin))),
            Line::TableRow(row) => Ok(FmtLine::TableRow(FmtTableRow::from(alloc, row, skin)?)),
            Line::TableRule(rule) => Ok(FmtLine::TableRule(FmtTableRule::from(alloc, rule))),
            Line::HorizontalRule => Ok(FmtLine::HorizontalRule),
        }
    }

    /// Whether the line is a row of a table or a rule across one.
    pub fn is_table_line(&self) -> bool
        ensures { result ≡ is_table_line self.now }
    {
        matches!(self, FmtLine::TableRow(_) | FmtLine::TableRule(_))
    }

    /// The columns of the line, by its cached lengths. A row of a table counts its cells, without borders. A rule across one counts its
    /// columns and borders, and two without columns. A rule across the page counts none. Sums stay at `usize::MAX`.
    pub fn visible_length(&self) -> usize
        ensures { result ≡ columns_of_line self.now }
    {
        match self {
            FmtLine::Normal(composite) => composite.visible_length,
            FmtLine::TableRow(row) => cells_columns(&row.cells),
            FmtLine::TableRule(rule) => rule_columns(&rule.widths),
            FmtLine::HorizontalRule => 0,
        }
    }
}

/// Puts a line after the others. Only out of memory is an error.
pub fn put_line<'s>(lines: &mut Vec<FmtLine<'s>>, line: FmtLine<'s>) -> Result<(), AllocError>
    ensures { OnOk result (lines.new.items ≡ lines.old.items ++ line.entry ∷ []) }
{
    Ok(lines.push(line)?)
}

// The cached lengths of cells, added up.
fn cells_columns(cells: &[FmtComposite]) -> usize
    ensures { result ≡ capped (cells_columns cells.now) }
{
    let mut columns: usize = 0;
    for cell in cells {
        columns = columns.saturating_add(cell.visible_length);
    }
    columns
}

/// The columns of a rule across columns of these widths: its ends, the columns, and a junction between two of them. The sum stays at
/// `usize::MAX`.
pub fn rule_columns(widths: &[usize]) -> usize
    ensures { result ≡ capped (rule_columns widths.now) }
{
    if widths.is_empty() {
        return 2;
    }
    bordered(widths).saturating_add(1)
}

// The columns of columns with a border after each.
fn bordered(widths: &[usize]) -> usize
    ensures { result ≡ capped (bordered widths.now) }
{
    let mut columns: usize = 0;
    for width in widths {
        columns = columns.saturating_add(*width).saturating_add(1);
    }
    columns
}
