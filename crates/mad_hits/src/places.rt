//! Where the texts of a row begin.

ghost use Rattle.std.specs.Prelude.{◌≡◌, ◌+◌, ℕ, Some, None};
ghost use Rattle.mad_wrap.specs.WrapLines.{capped};
ghost use Rattle.mad_rows.specs.Rows.{cell_margins, inner_blanks, left_of_place, margins_of, row_columns};
ghost use Rattle.mad_format.specs.Indents.{indent};
ghost use Rattle.mad_hits.specs.Hits.{text_column};

use mad_format::{FmtComposite, indent_of};
use mad_md::Alignment;
use mad_measure::Spacing;
use mad_rows::{
    RowPlace, RowSkin, cell_margins, inner_blanks, margins_of, outer_blanks, row_columns,
};

/// The column in which the text of a line begins in a row of `width` columns, after its blanks and its prefix.
pub fn column_in_row(skin: &RowSkin, composite: &FmtComposite, width: usize) -> usize
    ensures { result ≡ capped (text_column skin.now (Some width) (margins_of skin.now (Some width) composite.now) composite.now) }
{
    let place = RowPlace {
        outer: Some(width),
        margins: margins_of(skin, composite, Some(width)),
        filled: false,
    };
    let align = skin.line_style(composite.kind).align;
    let (outer, _) = outer_blanks(composite, align, place);
    outer.saturating_add(column_in_place(skin, composite))
}

/// The column in which the text of a cell begins, after its border.
pub(crate) fn column_in_cell(skin: &RowSkin, cell: &FmtComposite) -> usize
    ensures { result ≡ capped (text_column skin.now None (cell_margins skin.now) cell.now) }
{
    let place = RowPlace {
        outer: None,
        margins: cell_margins(skin),
        filled: false,
    };
    let align = skin.line_style(cell.kind).align;
    let (outer, _) = outer_blanks(cell, align, place);
    outer.saturating_add(column_in_place(skin, cell))
}

/// The column of the first border of a row of cells, in a row of `width` columns.
pub(crate) fn table_column(skin: &RowSkin, cells: &[FmtComposite], width: usize) -> usize
    ensures { result ≡ left_of_place skin.now.table.align (row_columns skin.now cells.now) (Some width) }
{
    left_blank(skin.table.align, row_columns(skin, cells), Some(width))
}

// The columns before the text of a composite in its own place: blanks, and its prefix.
fn column_in_place(skin: &RowSkin, composite: &FmtComposite) -> usize
    ensures { result ≡ capped ((inner_blanks composite.now).0 + indent skin.now.list_items_indentation_mode composite.now.kind) }
{
    let (blanks, _) = inner_blanks(composite);
    let prefix = indent_of(composite.kind, skin.list_items_indentation_mode);
    blanks.saturating_add(prefix)
}

// The blank columns left of so many in a place, if there is one.
fn left_blank(align: Alignment, columns: usize, place: Option<usize>) -> usize
    ensures { (n : ℕ) → columns ≡ capped n → result ≡ left_of_place align n place }
{
    let (left, _) = Spacing::optional_completions(align, columns, place);
    left
}
