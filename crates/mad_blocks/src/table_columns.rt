//! Columns of a table: their widths, and how cells are aligned in them.

ghost use Rattle.std.specs.Prelude.{◌≡◌, ◌<◌, ◌≤◌, ◌*◌, ◌+◌, ◌++◌, [], ◌∷◌, ℕ, List, IfOk, map, slice_get, unwrap_or};
ghost use Rattle.mad_md.specs.Lines.{content_of, styled_runs};
ghost use Rattle.mad_md.specs.declared.alignment.Alignment.TheVariants.{Unspecified};
ghost use Rattle.mad_widths.specs.SeenCells.{TableHasSeen};
ghost use Rattle.mad_blocks.specs.Tables.{columns_with, centered, columns_from, columns_count, columns_in, rows_among, measure_of, measures_in, most_columns, without_blanks, AreKeptWidths, AreSetWidths};
ghost use Rattle.mad_blocks.specs.Layouts.{AreRead};
ghost use Rattle.mad_blocks.specs.TextParts.{columns_among, count_in};
ghost use Rattle.mad_format.specs.FmtLines.{AreCompositesRead, IsCompositeRead};
ghost use Rattle.mad_format.specs.declared.composite.FmtComposite.{FmtComposite};
ghost use Rattle.mad_format.specs.declared.line.FmtLine.{FmtLine};

use mad_format::{FmtComposite, FmtLine, LineSkin, composite_columns};
use mad_md::{Alignment, Composite, Line};
use mad_measure::Spacing;
use mad_sections::cell_words::longest_word;
use mad_sections::table_rooms::TableRules;
use mad_style::CompositeKind;
use mad_widths::TblFit;
use std::alloc::{AllocError, Global};

/// The widths of the columns that a table of `nbcols` columns keeps at a width, from the cached lengths of its cells, and where words
/// stay whole from their longest words too. Blanks beside cells come off the width first.
pub(crate) fn kept_widths(
    alloc: Global,
    table: &[FmtLine],
    nbcols: usize,
    width: usize,
    rules: TableRules,
) -> Result<Vec<usize>, AllocError>
    requires { 0 < width }
    ensures { IfOk result (λ widths. AreSetWidths rules.whole_words rules.cell_blanks nbcols width table.now widths.items) }
{
    let most = most_columns(rules.cell_blanks, width);
    if most < nbcols {
        return vec![in alloc; 3; most];
    }
    let room = without_blanks(rules.cell_blanks, nbcols, width);
    fitted_widths(alloc, table, nbcols, room, rules.whole_words)
}

// The most columns that have room at a width, for three and their blanks each.
fn most_columns(cell_blanks: bool, width: usize) -> usize
    requires { 0 < width }
    ensures { result ≡ most_columns cell_blanks width }
{
    if cell_blanks {
        (width - 1) / 6
    } else {
        (width - 1) / 4
    }
}

// What is left of a width beside the blanks of the columns.
fn without_blanks(cell_blanks: bool, nbcols: usize, width: usize) -> usize
    requires { nbcols ≤ most_columns cell_blanks width }
    ensures { result ≡ without_blanks cell_blanks nbcols width }
{
    if cell_blanks {
        width - 2 * nbcols
    } else {
        width
    }
}

// The widths of columns without blanks, each of which has room for three.
fn fitted_widths(
    alloc: Global,
    table: &[FmtLine],
    nbcols: usize,
    width: usize,
    whole_words: bool,
) -> Result<Vec<usize>, AllocError>
    requires { 4 * nbcols + 1 ≤ width }
    ensures { IfOk result (λ widths. AreKeptWidths whole_words nbcols width table.now widths.items) }
{
    let cells = seen_table(alloc, table, nbcols, width, false)?;
    if whole_words {
        let words = seen_table(alloc, table, nbcols, width, true)?;
        return Ok(cells.fit_words(alloc, &words)?.col_widths);
    }
    Ok(cells.fit(alloc)?.col_widths)
}

// The cells of a table of `nbcols` columns, by their longest words or by their lengths.
fn seen_table(
    alloc: Global,
    table: &[FmtLine],
    nbcols: usize,
    width: usize,
    by_word: bool,
) -> Result<TblFit, AllocError>
    requires { 4 * nbcols + 1 ≤ width }
    ensures { IfOk result (λ fit. TableHasSeen fit width (measures_in by_word nbcols (rows_among table.now))) }
{
    let mut fit = TblFit::with_room(alloc, nbcols, width)?;
    see_rows(&mut fit, table, by_word);
    Ok(fit)
}

// Sees the cells of each row.
fn see_rows(fit: &mut TblFit, table: &[FmtLine], by_word: bool)
    ensures { (width n : ℕ) (rows : List (List FmtComposite)) → TableHasSeen fit.old width (measures_in by_word n rows) → TableHasSeen fit.new width (measures_in by_word n (rows ++ rows_among table.now)) }
{
    for line in table {
        if let FmtLine::TableRow(row) = line {
            see_row(fit, &row.cells, by_word);
        }
    }
}

// Sees the cells of a row, one for each column.
fn see_row(fit: &mut TblFit, cells: &[FmtComposite], by_word: bool)
    ensures { (width n : ℕ) (rows : List (List FmtComposite)) → TableHasSeen fit.old width (measures_in by_word n rows) → TableHasSeen fit.new width (measures_in by_word n (rows ++ cells.now ∷ [])) }
{
    for (column, cell) in cells.iter().enumerate() {
        fit.see_cell(column, measure_of(cell, by_word));
    }
}

// The columns of a cell, by its longest word or by its cached length.
fn measure_of(cell: &FmtComposite, by_word: bool) -> usize
    ensures { result ≡ measure_of by_word cell.now }
{
    if by_word {
        longest_word(&cell.compounds)
    } else {
        cell.visible_length
    }
}

/// The widths that [`kept_widths`] has of a table, from its lines as they were read.
pub(crate) fn read_widths<S: LineSkin>(
    alloc: Global,
    table: &[Line],
    nbcols: usize,
    width: usize,
    skin: &S,
) -> Result<Vec<usize>, AllocError>
    requires { 0 < width }
    ensures { IfOk result (λ widths. (read : List FmtLine) → AreRead (S.rules skin.now) (map content_of table.now) read → AreSetWidths (S.rules skin.now).whole_words (S.rules skin.now).cell_blanks nbcols width read widths.items) }
{
    let most = most_columns(skin.cell_blanks(), width);
    if most < nbcols {
        return vec![in alloc; 3; most];
    }
    let room = without_blanks(skin.cell_blanks(), nbcols, width);
    fitted_lines(alloc, table, nbcols, room, skin)
}

// What [`fitted_widths`] has of a table, from its lines as they were read.
fn fitted_lines<S: LineSkin>(
    alloc: Global,
    table: &[Line],
    nbcols: usize,
    width: usize,
    skin: &S,
) -> Result<Vec<usize>, AllocError>
    requires { 4 * nbcols + 1 ≤ width }
    ensures { IfOk result (λ widths. (read : List FmtLine) → AreRead (S.rules skin.now) (map content_of table.now) read → AreKeptWidths (S.rules skin.now).whole_words nbcols width read widths.items) }
{
    let cells = seen_lines(alloc, table, nbcols, width, false, skin)?;
    if skin.whole_words() {
        let words = seen_lines(alloc, table, nbcols, width, true, skin)?;
        return Ok(cells.fit_words(alloc, &words)?.col_widths);
    }
    Ok(cells.fit(alloc)?.col_widths)
}

// What [`seen_table`] has seen of a table, from its lines as they were read.
fn seen_lines<S: LineSkin>(
    alloc: Global,
    table: &[Line],
    nbcols: usize,
    width: usize,
    by_word: bool,
    skin: &S,
) -> Result<TblFit, AllocError>
    requires { 4 * nbcols + 1 ≤ width }
    ensures { IfOk result (λ fit. (read : List FmtLine) → AreRead (S.rules skin.now) (map content_of table.now) read → TableHasSeen fit width (measures_in by_word nbcols (rows_among read))) }
{
    let mut fit = TblFit::with_room(alloc, nbcols, width)?;
    see_lines(&mut fit, table, by_word, skin);
    Ok(fit)
}

// Sees the cells of each row that was read.
fn see_lines<S: LineSkin>(fit: &mut TblFit, table: &[Line], by_word: bool, skin: &S)
    ensures { (read : List FmtLine) → AreRead (S.rules skin.now) (map content_of table.now) read
        → (width n : ℕ) (rows : List (List FmtComposite)) → TableHasSeen fit.old width (measures_in by_word n rows) → TableHasSeen fit.new width (measures_in by_word n (rows ++ rows_among read)) }
{
    for line in table {
        if let Line::TableRow(row) = line {
            see_cells(fit, &row.cells, by_word, skin);
        }
    }
}

// Sees the cells of a row that was read, one for each column.
fn see_cells<S: LineSkin>(fit: &mut TblFit, cells: &[Composite], by_word: bool, skin: &S)
    ensures { (read : List FmtComposite) → AreCompositesRead (S.rules skin.now) (map styled_runs cells.now) read
        → (width n : ℕ) (rows : List (List FmtComposite)) → TableHasSeen fit.old width (measures_in by_word n rows) → TableHasSeen fit.new width (measures_in by_word n (rows ++ read ∷ [])) }
{
    for (column, cell) in cells.iter().enumerate() {
        fit.see_cell(column, measure_of_read(cell, by_word, skin));
    }
}

// The columns of a cell that was read, by its longest word or by its length.
fn measure_of_read<S: LineSkin>(cell: &Composite, by_word: bool, skin: &S) -> usize
    ensures { (read : FmtComposite) → IsCompositeRead (S.rules skin.now) (styled_runs cell.now) read → result ≡ measure_of by_word read }
{
    if by_word {
        longest_word(&cell.compounds)
    } else {
        let kind = CompositeKind::from(cell.style);
        composite_columns(skin.items_indentation(), kind, &cell.compounds)
    }
}

/// The greatest count of cells or alignments of lines that were read.
pub(crate) fn columns_among(table: &[Line]) -> usize
    ensures { result ≡ columns_among (map content_of table.now) }
{
    let mut count: usize = 0;
    for line in table {
        count = count_in(line).max(count);
    }
    count
}

fn count_in(line: &Line) -> usize
    ensures { result ≡ count_in (content_of line.now) }
{
    match line {
        Line::TableRow(row) => row.cells.len(),
        Line::TableRule(rule) => rule.cells.len(),
        Line::Normal(_) | Line::HorizontalRule => 0,
    }
}

/// The greatest count of cells or alignments of a table's lines.
pub(crate) fn columns_count(table: &[FmtLine]) -> usize
    ensures { result ≡ columns_count table.now }
{
    let mut count: usize = 0;
    for line in table {
        count = columns_in(line).max(count);
    }
    count
}

fn columns_in(line: &FmtLine) -> usize
    ensures { result ≡ columns_in line.now }
{
    match line {
        FmtLine::TableRow(row) => row.cells.len(),
        FmtLine::TableRule(rule) => rule.aligns.len(),
        FmtLine::Normal(_) | FmtLine::HorizontalRule => 0,
    }
}

/// The columns of these widths with these alignments; a column without one has none.
pub(crate) fn columns_with(
    alloc: Global,
    widths: &[usize],
    aligns: &[Alignment],
) -> Result<Vec<Spacing>, AllocError>
    ensures { IfOk result (λ columns. columns.items ≡ columns_with widths.now aligns.now) }
{
    let mut columns = Vec::with_capacity(alloc, widths.len())?;
    for i in 0..widths.len() {
        columns.push(Spacing {
            width: widths[i],
            align: align_at(aligns, i),
        })?;
    }
    Ok(columns)
}

// The alignment of this number, Unspecified where there are less.
fn align_at(aligns: &[Alignment], i: usize) -> Alignment
    ensures { result ≡ unwrap_or (slice_get aligns.now i) Unspecified }
{
    aligns.get(i).copied().unwrap_or(Alignment::Unspecified)
}

/// Columns of these widths, centered.
pub(crate) fn centered(alloc: Global, widths: &[usize]) -> Result<Vec<Spacing>, AllocError>
    ensures { IfOk result (λ columns. columns.items ≡ centered widths.now) }
{
    let mut columns = Vec::with_capacity(alloc, widths.len())?;
    for width in widths {
        columns.push(Spacing {
            width: *width,
            align: Alignment::Center,
        })?;
    }
    Ok(columns)
}

/// The columns from a line of a table on, where they were these above it.
pub(crate) fn columns_from(
    alloc: Global,
    widths: &[usize],
    columns: Vec<Spacing>,
    line: &FmtLine,
) -> Result<Vec<Spacing>, AllocError>
    ensures { IfOk result (λ from. from.items ≡ columns_from widths.now columns.items line.now) }
{
    match line {
        FmtLine::TableRule(rule) => columns_with(alloc, widths, &rule.aligns),
        FmtLine::Normal(_) | FmtLine::TableRow(_) | FmtLine::HorizontalRule => Ok(columns),
    }
}
