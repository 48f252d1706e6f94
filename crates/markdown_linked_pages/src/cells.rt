//! Rows of tables with their links, put after a string.

ghost use Rattle.std.specs.Prelude.{◌≡◌, ◌++◌, None, true, OnOk, string_bytes};
ghost use Rattle.mad_links.specs.LinkRows.{linked_bytes};
ghost use Rattle.mad_marked_rows.specs.LinkedRows.{linked_cells, linked_composite, linked_table_row};
ghost use Rattle.mad_marked_rows.specs.Paints.{paint_by};
ghost use Rattle.mad_marks.specs.LineMarks.{has_mark};
ghost use Rattle.mad_marks.specs.RowNumbers.{firsts_of};
ghost use Rattle.mad_rows.specs.Rows.{cell_margins};

use crate::open_composites::append_open_composite;
use mad_format::FmtComposite;
use mad_links::push_end;
use mad_mark_runs::next_start;
use mad_marked_rows::{MarkCursor, MarkedSkin};
use mad_marks::count_in;
use mad_rows::{RowPlace, cell_margins, row_columns, spaces_beside, vertical};
use std::alloc::AllocError;

/// Where a row of a table is.
#[derive(Clone, Copy)]
pub(crate) struct TablePlace {
    /// How many counted characters of the text stand before its first cell.
    pub number: usize,
    /// The columns of the row around it, if there is a width.
    pub outer: Option<usize>,
    /// Whether what is right of it is filled up.
    pub filled: bool,
}

/// Puts a row of a table with its links, at its place, after the rows that are there. No link is open at its end.
///
/// # Errors
///
/// Out of memory. What the rows then end with is open.
pub(crate) fn append_linked_table_row(
    rows: &mut String,
    cells: &[FmtComposite],
    place: TablePlace,
    skin: MarkedSkin<'_>,
) -> Result<(), AllocError>
    ensures { OnOk result (string_bytes rows.new ≡ string_bytes rows.old ++ linked_bytes skin.entry.addresses.now (linked_table_row (paint_by skin.entry.paint.styles.now) has_mark skin.entry.runs.now skin.entry.skin.now place.outer place.filled (firsts_of has_mark place.number cells.now) cells.now)) }
{
    let columns = row_columns(skin.skin, cells);
    let (left, right) = spaces_beside(skin.skin, columns, place.outer, place.filled);
    let border = vertical(skin.skin);
    write!(rows, "{left}")?;
    append_linked_cells(rows, cells, place.number, skin)?;
    write!(rows, "{border}")?;
    write!(rows, "{right}")?;
    Ok(())
}

// Its cells, a border before each.
fn append_linked_cells(
    rows: &mut String,
    cells: &[FmtComposite],
    number: usize,
    skin: MarkedSkin<'_>,
) -> Result<(), AllocError>
    ensures { OnOk result (string_bytes rows.new ≡ string_bytes rows.old ++ linked_bytes skin.entry.addresses.now (linked_cells (paint_by skin.entry.paint.styles.now) has_mark skin.entry.runs.now skin.entry.skin.now (firsts_of has_mark number cells.now) cells.now)) }
{
    let mut cursor = MarkCursor {
        runs: skin.runs,
        number,
    };
    for cell in cells {
        let border = vertical(skin.skin);
        write!(rows, "{border}")?;
        append_linked_cell(rows, cell, cursor, skin)?;
        cursor.pass(count_in(cell)?)?;
        cursor.runs = next_start(cursor.runs, cursor.number.saturating_sub(1));
    }
    Ok(())
}

// A cell, whose first character is that of the cursor.
fn append_linked_cell(
    rows: &mut String,
    cell: &FmtComposite,
    cursor: MarkCursor<'_>,
    skin: MarkedSkin<'_>,
) -> Result<(), AllocError>
    ensures { OnOk result (string_bytes rows.new ≡ string_bytes rows.old ++ linked_bytes skin.entry.addresses.now (linked_composite (paint_by skin.entry.paint.styles.now) has_mark cursor.entry.runs.now skin.entry.skin.now None (cell_margins skin.entry.skin.now) true cursor.entry.number cell.now)) }
{
    let place = RowPlace {
        outer: None,
        margins: cell_margins(skin.skin),
        filled: true,
    };
    let marked = MarkedSkin {
        skin: skin.skin,
        paint: skin.paint,
        runs: cursor.runs,
        addresses: skin.addresses,
    };
    let link = append_open_composite(rows, cell, cursor.number, place, marked)?;
    push_end(rows, skin.addresses, link)?;
    Ok(())
}
