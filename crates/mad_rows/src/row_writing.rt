//! Lines and rows as text at the end of a string: the same bytes as their displayed values. In lines, bare compounds are put there at once.

ghost use Rattle.std.specs.Prelude.{◌≡◌, ◌++◌, false, map, slice_get, OnOk, string_bytes};
ghost use Rattle.std.specs.Option.{option_copied};
ghost use Rattle.mad_draw.specs.Pieces.{pieces_bytes};
ghost use Rattle.mad_rows.specs.Rows.{compound_piece, composite_pieces, line_bytes, margins_of, text_bytes};

use crate::composites::PlacedComposite;
use crate::lines::{PlacedLine, PlacedRow};
use crate::placed_writing::{append_placed, append_table_row};
use crate::row_skin::{RowSkin, is_bare};
use crate::rows::{know_row, line_blanks, row_blanks};
use crate::style_commands::StyleCommands;
use mad_draw::Rows;
use mad_format::{FmtComposite, FmtLine};
use mad_md::Compound;
use mad_style::LineStyle;
use std::alloc::AllocError;

/// Puts lines after the rows that are there, each with a newline, at a width in columns, if there is one.
///
/// # Errors
///
/// Out of memory. What the rows then end with is open.
pub fn append_lines(
    rows: &mut String,
    lines: &[FmtLine],
    width: Option<usize>,
    skin: &RowSkin,
    commands: &mut StyleCommands,
) -> Result<(), AllocError>
    ensures { OnOk result (string_bytes rows.new ≡ string_bytes rows.old ++ text_bytes skin.now width lines.now) }
{
    for line in lines {
        append_line(rows, line, width, skin, commands)?;
    }
    Ok(())
}

/// Puts a line and a newline after the rows that are there, at a width in columns, if there is one.
///
/// # Errors
///
/// Out of memory: for blanks that no memory has room for before anything is put. Else what the rows then end with is open.
pub fn append_line(
    rows: &mut String,
    line: &FmtLine,
    width: Option<usize>,
    skin: &RowSkin,
    commands: &mut StyleCommands,
) -> Result<(), AllocError>
    ensures { OnOk result (string_bytes rows.new ≡ string_bytes rows.old ++ line_bytes skin.now width line.now) }
{
    match line {
        FmtLine::Normal(composite) => append_composite(rows, composite, width, skin, commands)?,
        FmtLine::TableRow(row) => {
            rows.reserve(line_blanks(skin, line, width, false))?;
            append_table_row(rows, &row.cells, width, skin, commands)?;
        }
        line => {
            rows.reserve(line_blanks(skin, line, width, false))?;
            let placed = PlacedLine {
                skin,
                line,
                outer: width,
                filled: false,
            };
            write!(rows, "{placed}")?;
        }
    }
    rows.push_str("\n")
}

// A composite at its place, without the blanks on its right.
fn append_composite(
    rows: &mut String,
    composite: &FmtComposite,
    width: Option<usize>,
    skin: &RowSkin,
    commands: &mut StyleCommands,
) -> Result<(), AllocError>
    ensures { OnOk result (string_bytes rows.new ≡ string_bytes rows.old ++ pieces_bytes (composite_pieces skin.now width (margins_of skin.now width composite.now) false composite.now)) }
{
    let placed = PlacedComposite::at(skin, composite, width, false);
    append_placed(rows, placed, commands)
}

/// Puts the compounds of a line of that style after the rows that are there.
///
/// # Errors
///
/// Out of memory.
pub fn append_compounds(
    rows: &mut String,
    compounds: &[Compound],
    style: &LineStyle,
    skin: &RowSkin,
    commands: &mut StyleCommands,
) -> Result<(), AllocError>
    ensures { OnOk result (string_bytes rows.new ≡ string_bytes rows.old ++ pieces_bytes (map (compound_piece skin.now style.now) compounds.now)) }
{
    // Most compounds have no style, and need no commands.
    let unstyled = style.compound_style.object_style.is_unstyled();
    for compound in compounds {
        if unstyled && is_bare(compound) {
            rows.push_str(compound.src)?;
            continue;
        }
        let own = skin.compound_style(style, compound).object_style;
        commands.append(rows, own, compound.src)?;
    }
    Ok(())
}

/// The rows of lines in a place: each row shows the line of its number, and past the last line spaces in the paragraph's style.
#[derive(Clone, Copy)]
pub struct TextRows<'a, 's> {
    /// The skin that they are drawn in.
    pub skin: &'a RowSkin,
    /// The lines.
    pub lines: &'a [FmtLine<'s>],
    /// The columns of each row.
    pub width: usize,
}

impl Rows for TextRows<'_, '_> {
    ghost use Rattle.mad_rows.specs.Rows.{row_pieces};

    ghost pieces = { λ rows y. row_pieces rows.skin.now rows.width (slice_get rows.lines.now y) };

    fn push_row(&self, bytes: &mut String, y: u16) -> Result<(), AllocError> {
        let line = line_at(self.lines, y);
        // Nothing is done: this only says that the colors of the row are known.
        know_row(self.skin, line, self.width);
        // Blanks that no memory has room for are refused before anything is written of the row.
        bytes.reserve(row_blanks(self.skin, line, self.width))?;
        let shown = PlacedRow {
            skin: self.skin,
            line,
            width: self.width,
        };
        write!(bytes, "{shown}")
    }
}

// The line of this number, if there is one.
fn line_at<'a, 's>(lines: &'a [FmtLine<'s>], y: u16) -> Option<&'a FmtLine<'s>>
    ensures { option_copied result ≡ slice_get lines.entry.now y }
{
    lines.get(usize::from(y))
}
