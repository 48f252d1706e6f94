//! Layout of tables, in one pass from front to back.

ghost use Rattle.std.specs.Prelude.{◌≡◌, ◌≤◌, ◌<◌, ◌+◌, ◌++◌, true, List, map, length, take, drop, IfOk, IsTrue, OnOk};
ghost use Rattle.std.specs.Vec.Iter.{into_iter_items};
ghost use Rattle.mad_format.specs.CompositeWraps.{IsCompositeWrap};
ghost use Rattle.mad_blocks.specs.LayoutParts.{AreTablesLaidOut};
ghost use Rattle.std.specs.List.{AllByRecursion};
ghost use Rattle.mad_blocks.specs.FittingRows.{AllFit, ArePlaced};
ghost use Rattle.mad_format.specs.Wraps.{IsMeasured};
ghost use Rattle.mad_format.specs.declared.table.FmtTableRow.{FmtTableRow};
ghost use Rattle.mad_blocks.specs.Tables.{centered, columns_count, position_at, rule_width, table_rules, IsRuleLaidOut, IsRowLaidOutBy, IsTableLineBy, AreTableLinesBy, IsTableLaidOutBy};
ghost use Rattle.mad_format.specs.WrappedLines.{AllMeasured, IsLineMeasured};
ghost use Rattle.mad_format.specs.declared.line.FmtLine.{FmtLine};
ghost use Rattle.mad_format.specs.declared.line.FmtLine.TheVariants.{TableRow};

use crate::table_columns::{centered, columns_count, columns_from, kept_widths};
use crate::table_rows::lay_row_in;
use mad_format::{
    FmtComposite, FmtLine, FmtTableRow, FmtTableRule, LineSkin, RelativePosition, put_line,
};
use mad_measure::Spacing;
use mad_sections::table_rooms::TableRules;
use std::alloc::{AllocError, Global};
use std::mem;
use std::vec::IntoIter;

/// A run of a text's lines that are rows of a table and rules across it.
#[derive(Debug, Drop)]
pub struct Table {
    /// The index of its first line, from 0.
    pub start: usize,
    /// The count of its lines.
    pub height: usize,
    /// The count of its columns.
    pub nbcols: usize,
}

impl Table {
    /// Lays the table out at a width, in columns: its lines are replaced by those that they become, and its height is then
    /// the count of these. The other lines stay. Without columns or without width nothing changes.
    ///
    /// Its lines have to be there, and their cached lengths have to be right. Without lines it may begin anywhere. All lines are taken once
    /// from front to back. Only out of memory is an error, and leaves some of the lines.
    pub fn fix_columns<'s, S: LineSkin>(
        &mut self,
        alloc: Global,
        lines: &mut Vec<FmtLine<'s>>,
        width: usize,
        skin: &S,
    ) -> Result<(), AllocError>
        requires there { 0 < self.old.height → self.old.start + self.old.height ≤ length lines.old.items }
        requires measured { AllMeasured (S.rules skin.now) (take self.old.height (drop self.old.start lines.old.items)) }
        ensures lines { OnOk result ((own : List FmtLine)
            × (lines.new.items ≡ take self.old.start lines.old.items ++ (own ++ drop (self.old.start + self.old.height) lines.old.items))
            × IsTableLaidOutBy IsCompositeWrap (S.rules skin.now) self.old.nbcols width
            (take self.old.height (drop self.old.start lines.old.items)) own
            × (self.new.height ≡ length own)) }
        ensures start { self.new.start ≡ self.old.start }
        ensures nbcols { self.new.nbcols ≡ self.old.nbcols }
    {
        let mut rest = mem::replace(lines, Vec::new(alloc)).into_iter();
        move_lines(&mut rest, lines, self.start)?;
        let mut table = Vec::new(alloc);
        move_lines(&mut rest, &mut table, self.height)?;
        let before = lines.len();
        push_table(alloc, lines, table, self.nbcols, width, skin)?;
        self.height = lines.len() - before;
        push_rest(lines, rest)
    }
}

// Moves the next `count` lines after the others, or all where there are fewer.
fn move_lines<'s>(
    rest: &mut IntoIter<FmtLine<'s>>,
    lines: &mut Vec<FmtLine<'s>>,
    count: usize,
) -> Result<(), AllocError>
    ensures moved { OnOk result (lines.new.items ≡ lines.old.items ++ take count (into_iter_items rest.old)) }
    ensures left { OnOk result (into_iter_items rest.new ≡ drop count (into_iter_items rest.old)) }
{
    for _done in 0..count {
        let Some(line) = rest.next() else {
            return Ok(());
        };
        put_line(lines, line)?;
    }
    Ok(())
}

// Puts all lines after the others.
fn push_rest<'s>(
    lines: &mut Vec<FmtLine<'s>>,
    rest: IntoIter<FmtLine<'s>>,
) -> Result<(), AllocError>
    ensures { OnOk result (lines.new.items ≡ lines.old.items ++ into_iter_items rest.entry) }
{
    for line in rest {
        put_line(lines, line)?;
    }
    Ok(())
}

/// Lays out each table among the lines at a width, in columns; every other line stays. A table is a run of rows and rules, as
/// long as can be, with as many columns as its widest line has.
///
/// The cached lengths of all lines have to be right. The lines are taken once from front to back. Only out of memory is an error, and
/// leaves some of the lines.
pub fn fix_all_tables<'s, S: LineSkin>(
    alloc: Global,
    lines: &mut Vec<FmtLine<'s>>,
    width: usize,
    skin: &S,
) -> Result<(), AllocError>
    requires { AllMeasured (S.rules skin.now) lines.old.items }
    ensures { OnOk result (AreTablesLaidOut IsCompositeWrap (S.rules skin.now) width lines.old.items lines.new.items) }
{
    let read = mem::replace(lines, Vec::new(alloc));
    let mut table = Vec::new(alloc);
    for line in read {
        if line.is_table_line() {
            table.push(line)?;
            continue;
        }
        let whole = mem::replace(&mut table, Vec::new(alloc));
        push_whole_table(alloc, lines, whole, width, skin)?;
        lines.push(line)?;
    }
    push_whole_table(alloc, lines, table, width, skin)
}

// Puts what a table becomes after the lines that are there, with as many columns as its widest line has.
fn push_whole_table<'s, S: LineSkin>(
    alloc: Global,
    lines: &mut Vec<FmtLine<'s>>,
    table: Vec<FmtLine<'s>>,
    width: usize,
    skin: &S,
) -> Result<(), AllocError>
    requires { AllMeasured (S.rules skin.now) table.items }
    ensures { OnOk result ((own : List FmtLine) × (lines.new.items ≡ lines.old.items ++ own) × IsTableLaidOutBy IsCompositeWrap (S.rules skin.now) (columns_count table.entry.items) width table.entry.items own) }
{
    let nbcols = columns_count(&table);
    push_table(alloc, lines, table, nbcols, width, skin)
}

// Puts what a table of `nbcols` columns becomes after the lines that are there.
fn push_table<'s, S: LineSkin>(
    alloc: Global,
    lines: &mut Vec<FmtLine<'s>>,
    table: Vec<FmtLine<'s>>,
    nbcols: usize,
    width: usize,
    skin: &S,
) -> Result<(), AllocError>
    requires { AllMeasured (S.rules skin.now) table.items }
    ensures { OnOk result ((own : List FmtLine) × (lines.new.items ≡ lines.old.items ++ own) × IsTableLaidOutBy IsCompositeWrap (S.rules skin.now) nbcols width table.entry.items own) }
{
    if nbcols == 0 || width == 0 {
        return push_rest(lines, table.into_iter());
    }
    let widths = kept_widths(alloc, &table, nbcols, width, table_rules(skin))?;
    push_table_lines(alloc, lines, table, &widths, skin)
}

// Puts what the lines of a table become, in columns of these widths.
fn push_table_lines<'s, S: LineSkin>(
    alloc: Global,
    lines: &mut Vec<FmtLine<'s>>,
    table: Vec<FmtLine<'s>>,
    widths: &[usize],
    skin: &S,
) -> Result<(), AllocError>
    requires { AllMeasured (S.rules skin.now) table.items }
    ensures { OnOk result ((own : List FmtLine) × (lines.new.items ≡ lines.old.items ++ own) × AreTableLinesBy IsCompositeWrap (S.rules skin.now) widths.now (centered widths.now) true table.entry.items own) }
{
    let mut columns = centered(alloc, widths)?;
    let mut first = true;
    let mut rest = table.into_iter();
    while let Some(line) = rest.next() {
        columns = columns_from(alloc, widths, columns, &line)?;
        let position = position_at(first, rest.len() == 0);
        push_table_line(alloc, lines, line, &columns, position, skin)?;
        first = false;
    }
    Ok(())
}

/// Where a line of a table is.
pub(crate) fn position_at(first: bool, last: bool) -> RelativePosition
    ensures { result ≡ position_at first last }
{
    if first {
        RelativePosition::Top
    } else if last {
        RelativePosition::Bottom
    } else {
        RelativePosition::Other
    }
}

/// Puts what a line of a table becomes in these columns, which is at this position in its table.
pub(crate) fn push_table_line<'s, S: LineSkin>(
    alloc: Global,
    lines: &mut Vec<FmtLine<'s>>,
    line: FmtLine<'s>,
    columns: &[Spacing],
    position: RelativePosition,
    skin: &S,
) -> Result<(), AllocError>
    requires { IsLineMeasured (S.rules skin.now) line }
    ensures { OnOk result ((own : List FmtLine) × (lines.new.items ≡ lines.old.items ++ own) × IsTableLineBy IsCompositeWrap (S.rules skin.now) columns.now position line.entry own) }
{
    match line {
        FmtLine::TableRow(row) => push_row(alloc, lines, row, columns, skin),
        FmtLine::TableRule(_) => {
            let rule = rule_across(alloc, columns, position, skin.cell_blanks())?;
            put_line(lines, FmtLine::TableRule(rule))
        }
        other => put_line(lines, other),
    }
}

// Puts the rows that a row becomes in these columns. One whose cells all fit stays, with their places.
fn push_row<'s, S: LineSkin>(
    alloc: Global,
    lines: &mut Vec<FmtLine<'s>>,
    row: FmtTableRow<'s>,
    columns: &[Spacing],
    skin: &S,
) -> Result<(), AllocError>
    requires { AllByRecursion (IsMeasured (S.rules skin.now)) row.cells.items }
    ensures { OnOk result ((rows : List FmtTableRow) × (lines.new.items ≡ lines.old.items ++ map TableRow rows) × IsRowLaidOutBy IsCompositeWrap (S.rules skin.now) columns.now row.entry.cells.items rows) }
{
    if all_fit(&row.cells, columns) {
        return put_line(lines, FmtLine::TableRow(placed(row, columns)));
    }
    push_rows(lines, lay_row_in(alloc, row, columns, skin)?)
}

// Whether there is a cell for each column and no other, and each is as wide as its column at most.
fn all_fit(cells: &[FmtComposite], columns: &[Spacing]) -> bool
    ensures { IsTrue result → AllFit columns.now cells.now }
{
    if cells.len() != columns.len() {
        return false;
    }
    let mut i = 0;
    while i < columns.len() {
        if columns[i].width < cells[i].visible_length {
            return false;
        }
        i += 1;
    }
    true
}

// The row with each cell at its place in its column.
fn placed<'s>(row: FmtTableRow<'s>, columns: &[Spacing]) -> FmtTableRow<'s>
    requires { length row.cells.items ≡ length columns.now }
    ensures { ArePlaced columns.now row.entry.cells.items result.cells.items }
{
    let mut cells = row.cells;
    let mut i = 0;
    while i < columns.len() {
        cells[i].spacing = Some(columns[i]);
        i += 1;
    }
    FmtTableRow { cells }
}

fn push_rows<'s>(lines: &mut Vec<FmtLine<'s>>, rows: Vec<FmtTableRow<'s>>) -> Result<(), AllocError>
    ensures { OnOk result (lines.new.items ≡ lines.old.items ++ map TableRow rows.entry.items) }
{
    for row in rows {
        put_line(lines, FmtLine::TableRow(row))?;
    }
    Ok(())
}

/// What laying out a table asks of a skin.
pub fn table_rules<S: LineSkin>(skin: &S) -> TableRules
    ensures { result ≡ table_rules (S.rules skin.now) }
{
    TableRules {
        whole_words: skin.whole_words(),
        cell_blanks: skin.cell_blanks(),
    }
}

// The columns of a rule across a column of this width, and its blanks.
fn rule_width(cell_blanks: bool, width: usize) -> usize
    ensures { result ≡ rule_width cell_blanks width }
{
    if cell_blanks {
        width.saturating_add(2)
    } else {
        width
    }
}

// A rule across these columns and their blanks, with their alignments.
fn rule_across(
    alloc: Global,
    columns: &[Spacing],
    position: RelativePosition,
    cell_blanks: bool,
) -> Result<FmtTableRule, AllocError>
    ensures { IfOk result (λ rule. IsRuleLaidOut cell_blanks position columns.now rule) }
{
    let mut widths = Vec::with_capacity(alloc, columns.len())?;
    let mut aligns = Vec::with_capacity(alloc, columns.len())?;
    for column in columns {
        widths.push(rule_width(cell_blanks, column.width))?;
        aligns.push(column.align)?;
    }
    Ok(FmtTableRule {
        position,
        widths,
        aligns,
    })
}
