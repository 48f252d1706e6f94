//! Lines with marks, put after a string.

ghost use Rattle.std.specs.Prelude.{◌≡◌, ◌++◌, OnOk, drop, slice_index, string_bytes};
ghost use Rattle.mad_links.specs.LinkRows.{linked_bytes};
ghost use Rattle.mad_marked_rows.specs.LinkedRows.{linked_cells, linked_line, linked_table_row};
ghost use Rattle.mad_marked_rows.specs.Paints.{paint_by};
ghost use Rattle.mad_mark_runs.specs.Values.{AreRising};
ghost use Rattle.mad_marks.specs.LineMarks.{has_mark};

use crate::composites::append_composite;
use crate::paints::Paint;
use mad_format::{FmtComposite, FmtLine};
use mad_links::LinkAddress;
use mad_mark_runs::MarkRun;
use mad_rows::{
    PlacedComposite, PlacedLine, RowPlace, RowSkin, cell_margins, line_blanks, row_columns,
    spaces_beside, vertical,
};
use std::alloc::AllocError;

/// What rows with marks are drawn in.
#[derive(Clone, Copy)]
pub struct MarkedSkin<'a> {
    /// The skin without marks.
    pub skin: &'a RowSkin,
    /// What marks make of a style.
    pub paint: Paint<'a>,
    /// The marks of the text's counted characters.
    pub runs: &'a [MarkRun],
    /// The addresses of the text's links: the first is that of the mark 9. With none, nothing is written of links.
    pub addresses: &'a [Option<LinkAddress>],
}

/// Puts a line with its marks after the rows that are there, at a width in columns, if there is one: each part is in the style and in the link of its mark.
/// No link is open at its end. For each of its composites a number says how
/// many counted characters of the text stand before it.
///
/// # Errors
///
/// Out of memory is the only error. What the rows then end with is open.
pub fn append_marked_line(
    rows: &mut String,
    line: &FmtLine,
    numbers: &[usize],
    outer: Option<usize>,
    filled: bool,
    skin: MarkedSkin<'_>,
) -> Result<(), AllocError>
    requires { AreRising 0 skin.runs.now }
    ensures { OnOk result (string_bytes rows.new ≡ string_bytes rows.old ++ linked_bytes skin.entry.addresses.now (linked_line (paint_by skin.entry.paint.styles.now) has_mark skin.entry.runs.now skin.entry.skin.now outer filled numbers.now line.now)) }
{
    rows.reserve(line_blanks(skin.skin, line, outer, filled))?;
    match line {
        FmtLine::Normal(composite) => {
            let placed = PlacedComposite::at(skin.skin, composite, outer, filled);
            append_composite(rows, composite, first(numbers), placed.place, skin)
        }
        FmtLine::TableRow(row) => append_row(rows, &row.cells, numbers, outer, filled, skin),
        line => {
            let placed = PlacedLine {
                skin: skin.skin,
                line,
                outer,
                filled,
            };
            write!(rows, "{placed}")?;
            Ok(())
        }
    }
}

// The first of numbers, 0 where there is none.
fn first(numbers: &[usize]) -> usize
    ensures { result ≡ slice_index numbers.now 0 }
{
    if numbers.is_empty() { 0 } else { numbers[0] }
}

// Those behind it.
fn tail(numbers: &[usize]) -> &[usize]
    ensures { result.now ≡ drop 1 numbers.now }
{
    if numbers.is_empty() {
        numbers
    } else {
        &numbers[1..]
    }
}

// The cells of a row of a table, a border before each.
fn append_cells(
    rows: &mut String,
    cells: &[FmtComposite],
    numbers: &[usize],
    skin: MarkedSkin<'_>,
) -> Result<(), AllocError>
    requires { AreRising 0 skin.runs.now }
    ensures { OnOk result (string_bytes rows.new ≡ string_bytes rows.old ++ linked_bytes skin.entry.addresses.now (linked_cells (paint_by skin.entry.paint.styles.now) has_mark skin.entry.runs.now skin.entry.skin.now numbers.now cells.now)) }
{
    let margins = cell_margins(skin.skin);
    let place = RowPlace {
        outer: None,
        margins,
        filled: true,
    };
    let mut left = numbers;
    for cell in cells {
        let border = vertical(skin.skin);
        write!(rows, "{border}")?;
        append_composite(rows, cell, first(left), place, skin)?;
        left = tail(left);
    }
    Ok(())
}

// A row of a table at an outer width.
fn append_row(
    rows: &mut String,
    cells: &[FmtComposite],
    numbers: &[usize],
    outer: Option<usize>,
    filled: bool,
    skin: MarkedSkin<'_>,
) -> Result<(), AllocError>
    requires { AreRising 0 skin.runs.now }
    ensures { OnOk result (string_bytes rows.new ≡ string_bytes rows.old ++ linked_bytes skin.entry.addresses.now (linked_table_row (paint_by skin.entry.paint.styles.now) has_mark skin.entry.runs.now skin.entry.skin.now outer filled numbers.now cells.now)) }
{
    let columns = row_columns(skin.skin, cells);
    let (left, right) = spaces_beside(skin.skin, columns, outer, filled);
    let border = vertical(skin.skin);
    write!(rows, "{left}")?;
    append_cells(rows, cells, numbers, skin)?;
    write!(rows, "{border}")?;
    write!(rows, "{right}")?;
    Ok(())
}
