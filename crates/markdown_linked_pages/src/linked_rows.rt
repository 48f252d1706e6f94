//! Rows of a page with links, put after a string.

ghost use Rattle.std.specs.Prelude.{◌≡◌, ◌++◌, [], IfOk, OnOk, map, string_bytes};
ghost use Rattle.mad_draw.specs.Pieces.{pieces_bytes};
ghost use Rattle.mad_links.specs.LinkRows.{begun_bytes};
ghost use Rattle.mad_links.specs.LinkedAreas.{in_no_link};
ghost use Rattle.mad_marked_rows.specs.LinkedRows.{linked_composite, linked_table_row};
ghost use Rattle.mad_marked_rows.specs.LinkedTexts.{pieces_on};
ghost use Rattle.mad_marked_rows.specs.Paints.{paint_by};
ghost use Rattle.mad_marks.specs.LineMarks.{has_mark};
ghost use Rattle.mad_marks.specs.RowNumbers.{firsts_of};
ghost use Rattle.mad_rows.specs.Rows.{line_pieces};
ghost use Rattle.mad_pages.specs.Fronts.{front_of};
ghost use Rattle.mad_pages.specs.PageRows.{row_content};
ghost use Rattle.mad_page_rows.specs.Faces.{backs, faces, line_skin};
ghost use Rattle.markdown_linked_pages.specs.LinkedPageRows.{lead, linked_behind, linked_row_pieces};

use crate::cells::{TablePlace, append_linked_table_row};
use crate::open_composites::append_open_composite;
use mad_format::{FmtComposite, FmtLine};
use mad_links::{LinkAddress, push_end};
use mad_mark_runs::MarkRun;
use mad_marked_rows::{MarkedSkin, Paint};
use mad_page_rows::faces::{backs, is_filled, line_skin};
use mad_page_rows::{Faces, columns_behind, has_ascii_boxes};
use mad_pages::{PageRow, front_of};
use mad_rows::{PlacedLine, RowPlace, RowSkin, margins_of};
use mad_sections::Gutter;
use std::alloc::AllocError;

/// What rows of a page with links are drawn in.
#[derive(Clone, Copy)]
pub struct LinkedSkin<'a> {
    /// The skin.
    pub skin: &'a RowSkin,
    /// The addresses of the text's links: the first is that of the mark 9. A link without one is written as its text alone.
    pub addresses: &'a [Option<LinkAddress>],
}

/// Whether the marks of a row are those of links.
pub fn lead(marks: &[MarkRun]) -> bool
    ensures { result ≡ lead marks.now }
{
    match marks {
        [first, ..] => first.value > 8,
        [] => false,
    }
}

// The faces of gutters, the last so many their first ones.
fn append_faces(
    rows: &mut String,
    skin: &RowSkin,
    gutters: &[Gutter],
    fresh: usize,
) -> Result<(), AllocError>
    ensures { OnOk result (string_bytes rows.new ≡ string_bytes rows.old ++ pieces_bytes (faces skin.now gutters.now fresh)) }
{
    let (others, firsts) = gutters.split_at(gutters.len().saturating_sub(fresh));
    let others = Faces {
        skin,
        gutters: others,
        first: false,
    };
    let firsts = Faces {
        skin,
        gutters: firsts,
        first: true,
    };
    write!(rows, "{others}{firsts}")
}

/// Puts a row of a page with its links after the rows that are there, at an outer width, if there is one. No newline follows. It answers which link is
/// open behind the row: where blanks or the side of a box follow its text, none is.
///
/// # Errors
///
/// Out of memory. What the rows then end with is open.
pub fn append_linked_row(
    rows: &mut String,
    row: &PageRow,
    outer: Option<usize>,
    filled: bool,
    skin: LinkedSkin<'_>,
) -> Result<Option<usize>, AllocError>
    ensures writes { OnOk result (string_bytes rows.new ≡ string_bytes rows.old ++ (begun_bytes skin.entry.addresses.now None (linked_row_pieces skin.entry.skin.now outer filled (row_content row.now))).0) }
    ensures opens { IfOk result (λ now. now ≡ (begun_bytes skin.entry.addresses.now None (linked_row_pieces skin.entry.skin.now outer filled (row_content row.now))).1) }
{
    append_faces(rows, skin.skin, row.gutters, row.fresh)?;
    let link = append_linked_line(rows, row, outer, filled, skin)?;
    let open = append_backs(rows, row.gutters, link, skin)?;
    Ok(open)
}

// The skin of a row's line.
fn skin_of_line(skin: &RowSkin, row: &PageRow) -> RowSkin
    ensures { result ≡ line_skin skin.now (front_of (row_content row.now)) }
{
    line_skin(skin, front_of(row))
}

// The line of a row, in the columns that its gutters leave.
fn append_linked_line(
    rows: &mut String,
    row: &PageRow,
    outer: Option<usize>,
    filled: bool,
    skin: LinkedSkin<'_>,
) -> Result<Option<usize>, AllocError>
    ensures { IfOk result (λ now. pieces_on skin.entry.addresses.now (string_bytes rows.old, None) (linked_behind skin.entry.skin.now outer filled (row_content row.now)) ≡ (string_bytes rows.new, now)) }
{
    let inner = skin_of_line(skin.skin, row);
    let columns = columns_behind(row.gutters, outer, has_ascii_boxes(skin.skin));
    let filled = is_filled(skin.skin, row.gutters, filled);
    match &row.line {
        FmtLine::Normal(composite) => {
            let margins = margins_of(&inner, composite, columns);
            let place = RowPlace {
                outer: columns,
                margins,
                filled,
            };
            append_linked_composite(
                rows,
                composite,
                row.number,
                place,
                &inner,
                row.marks,
                skin.addresses,
            )
        }
        FmtLine::TableRow(table) => {
            let place = TablePlace {
                number: row.number,
                outer: columns,
                filled,
            };
            append_cells(rows, &table.cells, place, &inner, row.marks, skin.addresses)?;
            Ok(None)
        }
        line => {
            append_plain_line(rows, line, columns, filled, &inner)?;
            Ok(None)
        }
    }
}

// Marks make nothing of a style.
fn no_tones<'x>() -> Paint<'x>
    ensures { result.styles.now ≡ [] }
{
    Paint::new(&[])
}

// A composite with its links, in a skin that its gutters may have changed.
fn append_linked_composite<'x>(
    rows: &mut String,
    composite: &FmtComposite,
    number: usize,
    place: RowPlace,
    skin: &'x RowSkin,
    runs: &'x [MarkRun],
    addresses: &'x [Option<LinkAddress>],
) -> Result<Option<usize>, AllocError>
    ensures { IfOk result (λ now. pieces_on addresses.entry.now (string_bytes rows.old, None) (linked_composite (paint_by []) has_mark runs.entry.now skin.entry.now place.outer place.margins place.filled number composite.now) ≡ (string_bytes rows.new, now)) }
{
    let paint = no_tones();
    let marked = MarkedSkin {
        skin,
        paint,
        runs,
        addresses,
    };
    append_open_composite(rows, composite, number, place, marked)
}

// A row of a table with its links, in such a skin.
fn append_cells<'x>(
    rows: &mut String,
    cells: &[FmtComposite],
    place: TablePlace,
    skin: &'x RowSkin,
    runs: &'x [MarkRun],
    addresses: &'x [Option<LinkAddress>],
) -> Result<(), AllocError>
    ensures { OnOk result (pieces_on addresses.entry.now (string_bytes rows.old, None) (linked_table_row (paint_by []) has_mark runs.entry.now skin.entry.now place.outer place.filled (firsts_of has_mark place.number cells.now) cells.now) ≡ (string_bytes rows.new, None)) }
{
    let paint = no_tones();
    let marked = MarkedSkin {
        skin,
        paint,
        runs,
        addresses,
    };
    append_linked_table_row(rows, cells, place, marked)?;
    Ok(())
}

// A line without links.
fn append_plain_line<'x>(
    rows: &mut String,
    line: &'x FmtLine,
    outer: Option<usize>,
    filled: bool,
    skin: &'x RowSkin,
) -> Result<(), AllocError>
    ensures { OnOk result (string_bytes rows.new ≡ string_bytes rows.old ++ pieces_bytes (line_pieces skin.entry.now outer filled line.entry.now)) }
{
    let placed = PlacedLine {
        skin,
        line,
        outer,
        filled,
    };
    write!(rows, "{placed}")
}

// The other sides of boxes, behind a row in which that link is open.
fn append_backs(
    rows: &mut String,
    gutters: &[Gutter],
    link: Option<usize>,
    skin: LinkedSkin<'_>,
) -> Result<Option<usize>, AllocError>
    ensures { IfOk result (λ now. pieces_on skin.entry.addresses.now (string_bytes rows.old, link) (map in_no_link (backs skin.entry.skin.now gutters.now)) ≡ (string_bytes rows.new, now)) }
{
    let sides = backs(skin.skin, gutters);
    if sides.count == 0 {
        return Ok(link);
    }
    push_end(rows, skin.addresses, link)?;
    write!(rows, "{sides}")?;
    Ok(None)
}
