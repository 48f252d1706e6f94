//! Rows of pages as text at the end of a string: the same bytes as their displayed values.

ghost use Rattle.std.specs.Prelude.{◌≡◌, ◌++◌, false, List, OnOk, is_some, map, string_bytes};
ghost use Rattle.mad_draw.specs.Pieces.{pieces_bytes};
ghost use Rattle.mad_rows.specs.Rows.{line_bytes};
ghost use Rattle.mad_rows.specs.RowStyles.{line_rules};
ghost use Rattle.mad_sections.specs.Sections.{section_content};
ghost use Rattle.mad_pages.specs.Fronts.{front_of};
ghost use Rattle.mad_pages.specs.PageLayouts.{BecomesAt};
ghost use Rattle.mad_pages.specs.PageRows.{RowContent, row_content};
ghost use Rattle.mad_page_rows.specs.Faces.{alert_titled, columns_behind, faces, has_ascii_boxes, page_row_bytes};
ghost use Rattle.markdown_layout.specs.Looks.{change_look, changes_look, looks_otherwise};
ghost use Rattle.markdown_layout.specs.WrittenPages.{row_bytes, rows_bytes};

use crate::row_ends::end_row;
use mad_page_rows::faces::{alert_titled, has_boxes};
use mad_page_rows::{Faces, PlacedPageRow, columns_behind, has_ascii_boxes};
use mad_pages::{PageRow, front_of, push_section};
use mad_rows::{RowSkin, StyleCommands, append_line};
use mad_sections::{Gutter, Section};
use std::alloc::{AllocError, Global};

// The faces of gutters, the last so many their first ones.
fn append_faces(
    rows: &mut String,
    skin: &RowSkin,
    gutters: &[Gutter],
    fresh: usize,
) -> Result<(), AllocError>
    ensures { OnOk result (string_bytes rows.new ≡ string_bytes rows.old ++ pieces_bytes (faces skin.now gutters.now fresh)) }
{
    let (others, firsts) = gutters.split_at(gutters.len().saturating_sub(fresh));
    let others = Faces {
        skin,
        gutters: others,
        first: false,
    };
    let firsts = Faces {
        skin,
        gutters: firsts,
        first: true,
    };
    write!(rows, "{others}{firsts}")
}

// Whether a gutter changes how the line behind it looks: code, or what is in front of the rule below a heading.
fn changes_look(gutter: Gutter) -> bool
    ensures { result ≡ changes_look gutter }
{
    matches!(gutter, Gutter::Code | Gutter::Below(_))
}

// Whether one of these gutters does.
fn change_look(gutters: &[Gutter]) -> bool
    ensures { result ≡ change_look gutters.now }
{
    let mut rest = gutters;
    while let [gutter, next @ ..] = rest {
        if changes_look(*gutter) {
            return true;
        }
        rest = next;
    }
    false
}

// Whether a row is the title of an alert.
fn is_title(row: &PageRow) -> bool
    ensures { result ≡ is_some (alert_titled (front_of (row_content row.now))) }
{
    alert_titled(front_of(row)).is_some()
}

// Whether the line of a row may look otherwise than elsewhere: behind such a gutter, with marks, as the head of a table, or as the title of an alert.
fn looks_otherwise(row: &PageRow) -> bool
    ensures { result ≡ looks_otherwise (row_content row.now) }
{
    change_look(row.gutters) || !row.marks.is_empty() || row.head || is_title(row)
}

// A row whose line looks as elsewhere: the faces of its gutters, and its line.
fn append_open_row(
    rows: &mut String,
    row: &PageRow,
    width: Option<usize>,
    skin: &RowSkin,
    commands: &mut StyleCommands,
) -> Result<(), AllocError>
    ensures { OnOk result (string_bytes rows.new ≡ string_bytes rows.old ++ (pieces_bytes (faces skin.now row.now.gutters.now row.now.fresh) ++ line_bytes skin.now (columns_behind (has_ascii_boxes skin.now) width row.now.gutters.now) row.now.line)) }
{
    append_faces(rows, skin, row.gutters, row.fresh)?;
    let columns = columns_behind(row.gutters, width, has_ascii_boxes(skin));
    append_line(rows, &row.line, columns, skin, commands)
}

// Room for what a box fills.
fn reserve_box(rows: &mut String, width: Option<usize>, skin: &RowSkin) -> Result<(), AllocError>
    ensures { OnOk result (string_bytes rows.new ≡ string_bytes rows.old) }
{
    match width {
        Some(width) if has_boxes(skin) => rows.reserve(width),
        _ => Ok(()),
    }
}

// A row whose line may look otherwise.
fn append_placed_row(
    rows: &mut String,
    row: &PageRow,
    width: Option<usize>,
    skin: &RowSkin,
) -> Result<(), AllocError>
    ensures { OnOk result (string_bytes rows.new ≡ string_bytes rows.old ++ page_row_bytes skin.now width (row_content row.now)) }
{
    reserve_box(rows, width, skin)?;
    let placed = PlacedPageRow {
        skin,
        row,
        outer: width,
        filled: false,
    };
    write!(rows, "{placed}\n")
}

// A row, and a newline.
fn append_whole_row(
    rows: &mut String,
    row: &PageRow,
    width: Option<usize>,
    skin: &RowSkin,
    commands: &mut StyleCommands,
) -> Result<(), AllocError>
    ensures { OnOk result (string_bytes rows.new ≡ string_bytes rows.old ++ page_row_bytes skin.now width (row_content row.now)) }
{
    if looks_otherwise(row) {
        append_placed_row(rows, row, width, skin)
    } else {
        append_open_row(rows, row, width, skin, commands)
    }
}

/// Puts a row of a page and a newline after the rows that are there, at a width in columns, if there is one. It ends in no blank that no style
/// shows.
///
/// # Errors
///
/// Out of memory. What the rows then end with is open.
#[tactic(auto, using(crate::proofs::EndLemmas::row_ended))]
pub fn append_page_row(
    rows: &mut String,
    row: &PageRow,
    width: Option<usize>,
    skin: &RowSkin,
    commands: &mut StyleCommands,
) -> Result<(), AllocError>
    ensures { OnOk result (string_bytes rows.new ≡ string_bytes rows.old ++ row_bytes skin.now width (row_content row.now)) }
{
    let start = rows.len();
    append_whole_row(rows, row, width, skin, commands)?;
    end_row(rows, start)?;
    Ok(())
}

// Rows of a page, each with a newline.
fn append_page_rows(
    rows: &mut String,
    page_rows: &[PageRow],
    width: Option<usize>,
    skin: &RowSkin,
    commands: &mut StyleCommands,
) -> Result<(), AllocError>
    ensures { OnOk result (string_bytes rows.new ≡ string_bytes rows.old ++ rows_bytes skin.now width (map row_content page_rows.now)) }
{
    let mut rest = page_rows;
    while let [row, next @ ..] = rest {
        append_page_row(rows, row, width, skin, commands)?;
        rest = next;
    }
    Ok(())
}

/// Puts the rows of a section, each with a newline, after the rows that are there, at a width in columns, if there is one.
///
/// # Errors
///
/// Out of memory. What the rows then end with is open.
pub fn append_section(
    alloc: Global,
    rows: &mut String,
    section: Section<'_>,
    width: Option<usize>,
    skin: &RowSkin,
    commands: &mut StyleCommands,
) -> Result<(), AllocError>
    ensures { OnOk result ((own : List RowContent) × BecomesAt (line_rules skin.now) (has_ascii_boxes skin.now) width (section_content section.entry) own × (string_bytes rows.new ≡ string_bytes rows.old ++ rows_bytes skin.now width own)) }
{
    let mut page_rows = Vec::new(alloc);
    push_section(
        alloc,
        &mut page_rows,
        section,
        width,
        has_ascii_boxes(skin),
        skin,
    )?;
    append_page_rows(rows, page_rows.as_slice(), width, skin, commands)
}
