//! Rows: where a line is in its row, the columns that no text fills, and that a row's colors are bytes.

ghost use Rattle.std.specs.Prelude.{◌≡◌, ◌<◌, ◌+◌, ◌^◌, ℕ};
ghost use Rattle.std.specs.Option.{option_copied};
ghost use Rattle.mad_draw.specs.Pieces.{AreKnown};
ghost use Rattle.std.specs.List.{AllByRecursion, sum_by};
ghost use Rattle.mad_rows.specs.Rows.{row_pieces, inner_blanks, inner_columns, outer_blanks, blanks_beside, margins_of, row_blanks, line_blanks, composite_blanks, table_blanks, own_blanks, cell_blanks, cell_columns, cell_margins, row_columns, rule_chars};
ghost use Rattle.mad_rows.specs.RowStyles.{AreKnownParts, AreKnownSigns, AreKnownStyles, AreKnownTitles, IsKnownItem, IsKnownLine, IsKnownTone};
ghost use Rattle.mad_wrap.specs.WrapLines.{capped};

use crate::page_styles::{PageStyles, TitleStyles};
use crate::row_skin::RowSkin;
use mad_draw::RuleChars;
use mad_format::{FmtComposite, FmtLine, RelativePosition, around_cell, beside_cell, rule_columns};
use mad_md::Alignment;
use mad_measure::Spacing;
use mad_style::{CompoundStyle, LineStyle, OrderedItemStyle, TableBorderChars};

/// Where a composite is in a row, in columns.
#[derive(Clone, Copy)]
pub struct RowPlace {
    /// The columns of the row, if it has a width.
    pub outer: Option<usize>,
    /// The margins left and right.
    pub margins: (usize, usize),
    /// Whether the columns on the right are filled up.
    pub filled: bool,
}

/// The blank columns left and right of a composite in its own place.
pub fn inner_blanks(composite: &FmtComposite) -> (usize, usize)
    ensures { result ≡ inner_blanks composite.now }
{
    composite.completions()
}

/// The columns of a composite: those of its own place, or where it has none those of its text.
pub fn inner_columns(composite: &FmtComposite) -> usize
    ensures { result ≡ inner_columns composite.now }
{
    match &composite.spacing {
        Some(spacing) => spacing.width,
        None => composite.visible_length,
    }
}

/// The blank columns left and right of a composite's own place in a row; those on its right only where the row is filled up.
pub(crate) fn blanks_beside(
    composite: &FmtComposite,
    align: Alignment,
    place: RowPlace,
) -> (usize, usize)
    ensures { result ≡ blanks_beside align place.outer place.margins place.filled composite.now }
{
    let (left, right) = outer_blanks(composite, align, place);
    (left, if place.filled { right } else { 0 })
}

/// The blank columns left and right of a composite's own place at the outer width, with the margins.
pub fn outer_blanks(composite: &FmtComposite, align: Alignment, place: RowPlace) -> (usize, usize)
    ensures { result ≡ outer_blanks align place.outer place.margins composite.now }
{
    let inner = inner_columns(composite);
    let (left_margin, right_margin) = place.margins;
    let columns = inner
        .saturating_add(left_margin)
        .saturating_add(right_margin);
    let (left, right) = Spacing::optional_completions(align, columns, place.outer);
    (left + left_margin, right + right_margin)
}

/// The margins of a composite: those of its layout, or where it has none those of its style at the outer width.
pub fn margins_of(skin: &RowSkin, composite: &FmtComposite, outer: Option<usize>) -> (usize, usize)
    ensures { result ≡ margins_of skin.now outer composite.now }
{
    match composite.margins {
        Some(margins) => margins,
        None => skin.line_style(composite.kind).margins_in(outer),
    }
}

/// The blank columns left and right of a cell of a table.
pub fn cell_margins(skin: &RowSkin) -> (usize, usize)
    ensures { result ≡ cell_margins skin.now }
{
    let beside = beside_cell(skin.cell_blanks);
    (beside, beside)
}

/// The columns of a cell in its row: those of its own place, and its blanks. Sums stay at `usize::MAX`.
pub fn cell_columns(skin: &RowSkin, cell: &FmtComposite) -> usize
    ensures { result ≡ capped (cell_columns skin.now cell.now) }
{
    inner_columns(cell).saturating_add(around_cell(skin.cell_blanks))
}

/// The columns of a row of cells: each has a border before it, and one more is the last.
pub fn row_columns(skin: &RowSkin, cells: &[FmtComposite]) -> usize
    ensures { result ≡ capped (row_columns skin.now cells.now) }
{
    let mut columns: usize = 0;
    for cell in cells {
        columns = columns
            .saturating_add(cell_columns(skin, cell))
            .saturating_add(1);
    }
    columns.saturating_add(1)
}

/// The characters of a rule at this position in its table.
pub(crate) fn rule_chars(borders: &TableBorderChars, position: RelativePosition) -> RuleChars
    ensures { result ≡ rule_chars borders.now position }
{
    let (left, between, right) = match position {
        RelativePosition::Top => (
            borders.top_left_corner,
            borders.top_junction,
            borders.top_right_corner,
        ),
        RelativePosition::Other => (borders.left_junction, borders.cross, borders.right_junction),
        RelativePosition::Bottom => (
            borders.bottom_left_corner,
            borders.bottom_junction,
            borders.bottom_right_corner,
        ),
    };
    RuleChars {
        left,
        horizontal: borders.horizontal,
        between,
        right,
    }
}

/// The columns of a row that no text fills: those of the line's blanks and rules; past the last line, the whole width. Sums stay at
/// `usize::MAX`.
pub fn row_blanks(skin: &RowSkin, line: Option<&FmtLine>, width: usize) -> usize
    ensures { result ≡ capped (row_blanks skin.now width (option_copied line.entry)) }
{
    match line {
        Some(line) => line_blanks(skin, line, Some(width), true),
        None => width,
    }
}

/// The columns of a line that no text fills, at an outer width: those of its blanks and rules. The blanks right of it count only where
/// they are asked for. Sums stay at `usize::MAX`.
pub fn line_blanks(skin: &RowSkin, line: &FmtLine, outer: Option<usize>, filled: bool) -> usize
    ensures { result ≡ capped (line_blanks skin.now outer filled line.now) }
{
    match line {
        FmtLine::Normal(composite) => {
            let place = RowPlace {
                outer,
                margins: margins_of(skin, composite, outer),
                filled,
            };
            composite_blanks(skin, composite, place)
        }
        FmtLine::TableRow(row) => {
            let (left, right) = table_blanks(skin, row_columns(skin, &row.cells), outer, filled);
            cells_blanks(skin, &row.cells).saturating_add(left + right)
        }
        FmtLine::TableRule(rule) => {
            let columns = rule_columns(&rule.widths);
            let (left, right) = table_blanks(skin, columns, outer, filled);
            columns.saturating_add(left + right)
        }
        FmtLine::HorizontalRule => outer.unwrap_or(0),
    }
}

/// The blank columns of a composite in a row, in its own place and beside it. Sums stay at `usize::MAX`.
pub fn composite_blanks(skin: &RowSkin, composite: &FmtComposite, place: RowPlace) -> usize
    ensures { result ≡ capped (composite_blanks skin.now place.outer place.margins place.filled composite.now) }
{
    let align = skin.line_style(composite.kind).align;
    let (left, right) = blanks_beside(composite, align, place);
    own_blanks(composite)
        .saturating_add(left)
        .saturating_add(right)
}

/// The blank columns left and right of a line of a table by its columns, at an outer width; those on its right only where they are asked
/// for.
pub(crate) fn table_blanks(
    skin: &RowSkin,
    columns: usize,
    outer: Option<usize>,
    filled: bool,
) -> (usize, usize)
    ensures beside { (n : ℕ) → columns ≡ capped n → result ≡ table_blanks skin.now outer filled n }
    ensures fits { result.0 + result.1 < 2 ^ 64 }
{
    let (before, after) = Spacing::optional_completions(skin.table.align, columns, outer);
    (before, if filled { after } else { 0 })
}

// The blank columns of a composite in its own place.
fn own_blanks(composite: &FmtComposite) -> usize
    ensures { result ≡ capped (own_blanks composite.now) }
{
    let (left, right) = inner_blanks(composite);
    left.saturating_add(right)
}

// The blank columns of a cell, in its own place and beside it.
fn cell_blanks(skin: &RowSkin, cell: &FmtComposite) -> usize
    ensures { result ≡ capped (cell_blanks skin.now cell.now) }
{
    own_blanks(cell).saturating_add(around_cell(skin.cell_blanks))
}

// The same of all cells of a row.
fn cells_blanks(skin: &RowSkin, cells: &[FmtComposite]) -> usize
    ensures { result ≡ capped (sum_by (cell_blanks skin.now) cells.now) }
{
    let mut columns: usize = 0;
    for cell in cells {
        columns = columns.saturating_add(cell_blanks(skin, cell));
    }
    columns
}

/// What reading a row back needs to know: the numbers of its colors are bytes. Nothing is done.
#[tactic(auto, using(crate::proofs::KnownLemmas::row_known))]
pub fn know_row(skin: &RowSkin, line: Option<&FmtLine>, width: usize)
    ensures { AreKnown (row_pieces skin.now width (option_copied line.entry)) }
{
    know_styles(skin);
}

/// The numbers of the colors in a skin's styles are bytes. Nothing is done.
pub fn know_styles(skin: &RowSkin)
    ensures { AreKnownStyles skin.now }
{
    know_parts(*skin);
    know_all(&skin.headers);
    know_all(&skin.ordered_item_styles);
    know_all(skin.tone_styles());
}

// So they are in the styles of its parts.
fn know_parts(skin: RowSkin)
    ensures { AreKnownParts skin }
{
    know_signs(skin.page);
    know_titles(skin.titles);
}

// So they are in the styles of what a page shows beside its text.
fn know_signs(page: PageStyles)
    ensures { AreKnownSigns page }
{}

// So they are in the styles of the titles of alerts.
fn know_titles(titles: TitleStyles)
    ensures { AreKnownTitles titles }
{}

// A part of a skin in whose styles the numbers of colors are bytes.
trait KnownStyle: Copy {
    ghost known: { Self → Type 0 };

    fn know(self)
        ensures { known self };
}

impl KnownStyle for LineStyle {
    ghost known = { λ style. IsKnownLine style };

    fn know(self) {}
}

impl KnownStyle for OrderedItemStyle {
    ghost known = { λ style. IsKnownItem style };

    fn know(self) {}
}

impl KnownStyle for CompoundStyle {
    ghost known = { λ style. IsKnownTone style };

    fn know(self) {}
}

// So they are in those of several.
fn know_all<S: KnownStyle>(styles: &[S])
    ensures { AllByRecursion S.known styles.now }
{
    for style in styles {
        style.know();
    }
}
