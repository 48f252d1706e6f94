//! Composites and rows of tables as text at the end of a string: the same bytes as their displayed values.

ghost use Rattle.std.specs.Prelude.{◌≡◌, ◌++◌, false, OnOk, string_bytes};
ghost use Rattle.std.specs.List.{flat_map};
ghost use Rattle.mad_draw.specs.Pieces.{char_piece, pieces_bytes, spaces};
ghost use Rattle.mad_rows.specs.Rows.{cell_pieces, composite_pieces, prefix_pieces, table_row_pieces};
ghost use Rattle.mad_term.specs.Styles.{piece_bytes};

use crate::composites::{CompositeEnd, CompositeFront, PlacedComposite, Prefix};
use crate::row_skin::RowSkin;
use crate::row_writing::append_compounds;
use crate::rows::{RowPlace, cell_margins, row_columns};
use crate::style_commands::StyleCommands;
use crate::tables::{spaces_beside, vertical};
use mad_draw::Spaces;
use mad_format::FmtComposite;
use mad_style::{CompositeKind, StyledChar};
use std::alloc::AllocError;

// Spaces in a style.
fn append_blanks(rows: &mut String, blanks: Spaces) -> Result<(), AllocError>
    ensures { OnOk result (string_bytes rows.new ≡ string_bytes rows.old ++ pieces_bytes (spaces blanks.style blanks.count)) }
{
    if !blanks.style.object_style.is_unstyled() {
        write!(rows, "{blanks}")?;
        return Ok(());
    }
    for _done in 0..blanks.count {
        rows.push_str(" ")?;
    }
    Ok(())
}

// A character in its style.
fn append_char(rows: &mut String, c: StyledChar) -> Result<(), AllocError>
    ensures { OnOk result (string_bytes rows.new ≡ string_bytes rows.old ++ piece_bytes (char_piece c).style (char_piece c).text) }
{
    if c.compound_style().object_style.is_unstyled() {
        rows.push(c.nude_char())?;
        return Ok(());
    }
    write!(rows, "{c}")?;
    Ok(())
}

// The prefix of a line of this kind.
fn append_prefix(rows: &mut String, kind: CompositeKind, skin: &RowSkin) -> Result<(), AllocError>
    ensures { OnOk result (string_bytes rows.new ≡ string_bytes rows.old ++ pieces_bytes (prefix_pieces skin.now kind)) }
{
    match kind {
        CompositeKind::Paragraph | CompositeKind::Header(_) | CompositeKind::Code => Ok(()),
        kind => {
            let prefix = Prefix { skin, kind };
            write!(rows, "{prefix}")
        }
    }
}

// What is in front of a composite's text.
fn append_front(rows: &mut String, front: CompositeFront) -> Result<(), AllocError>
    ensures { OnOk result (string_bytes rows.new ≡ string_bytes rows.old ++ pieces_bytes (spaces front.entry.skin.now.paragraph.compound_style front.entry.outer ++ (spaces front.entry.style.now.compound_style front.entry.inner ++ prefix_pieces front.entry.skin.now front.entry.kind))) }
{
    let inner = Spaces {
        style: front.style.compound_style,
        count: front.inner,
    };
    append_blanks(rows, front.skin.blanks(front.outer))?;
    append_blanks(rows, inner)?;
    append_prefix(rows, front.kind, front.skin)?;
    Ok(())
}

// What is after it.
fn append_end(rows: &mut String, end: CompositeEnd) -> Result<(), AllocError>
    ensures { OnOk result (string_bytes rows.new ≡ string_bytes rows.old ++ pieces_bytes (spaces end.entry.style.now.compound_style end.entry.inner ++ spaces end.entry.skin.now.paragraph.compound_style end.entry.outer)) }
{
    let inner = Spaces {
        style: end.style.compound_style,
        count: end.inner,
    };
    append_blanks(rows, inner)?;
    append_blanks(rows, end.skin.blanks(end.outer))?;
    Ok(())
}

/// Puts a composite at its place after the rows that are there.
///
/// # Errors
///
/// Out of memory. What the rows then end with is open.
pub(crate) fn append_placed(
    rows: &mut String,
    placed: PlacedComposite,
    commands: &mut StyleCommands,
) -> Result<(), AllocError>
    ensures { OnOk result (string_bytes rows.new ≡ string_bytes rows.old ++ pieces_bytes (composite_pieces placed.entry.skin.now placed.entry.place.outer placed.entry.place.margins placed.entry.place.filled placed.entry.composite.now)) }
{
    let style = placed.skin.line_style(placed.composite.kind);
    let (front, end) = placed.ends(style);
    rows.reserve(front.columns().saturating_add(end.columns()))?;
    append_front(rows, front)?;
    append_compounds(
        rows,
        &placed.composite.compounds,
        style,
        placed.skin,
        commands,
    )?;
    append_end(rows, end)
}

// The cells of a row of a table, a border before each.
fn append_cells(
    rows: &mut String,
    cells: &[FmtComposite],
    skin: &RowSkin,
    commands: &mut StyleCommands,
) -> Result<(), AllocError>
    ensures { OnOk result (string_bytes rows.new ≡ string_bytes rows.old ++ pieces_bytes (flat_map (cell_pieces skin.now) cells.now)) }
{
    let border = vertical(skin);
    let margins = cell_margins(skin);
    let place = RowPlace {
        outer: None,
        margins,
        filled: true,
    };
    for cell in cells {
        append_char(rows, border)?;
        let placed = PlacedComposite {
            skin,
            composite: cell,
            place,
        };
        append_placed(rows, placed, commands)?;
    }
    Ok(())
}

/// Puts a row of a table after the rows that are there, at a width in columns, if there is one, without the blanks on its right.
///
/// # Errors
///
/// Out of memory. What the rows then end with is open.
pub(crate) fn append_table_row(
    rows: &mut String,
    cells: &[FmtComposite],
    width: Option<usize>,
    skin: &RowSkin,
    commands: &mut StyleCommands,
) -> Result<(), AllocError>
    ensures { OnOk result (string_bytes rows.new ≡ string_bytes rows.old ++ pieces_bytes (table_row_pieces skin.now width false cells.now)) }
{
    let columns = row_columns(skin, cells);
    let (left, right) = spaces_beside(skin, columns, width, false);
    let border = vertical(skin);
    append_blanks(rows, left)?;
    append_cells(rows, cells, skin, commands)?;
    append_char(rows, border)?;
    append_blanks(rows, right)?;
    Ok(())
}
