//! What is drawn once more of a row: the characters of each hit, and where they stand.

ghost use Rattle.std.specs.Prelude.{◌≡◌, ◌++◌, ◌+◌, ◌-◌, ◌<◌, ◌≤◌, ℕ, IfOk, OnOk, length, map, min};
ghost use Rattle.regex.specs.Strings.{regex_pattern};
ghost use Rattle.mad_wrap.specs.WrapLines.{capped};
ghost use Rattle.mad_measure.specs.TextColumns.{columns};
ghost use Rattle.mad_style.specs.StyledChars.{char_alone};
ghost use Rattle.mad_patterns.specs.Breaks.{line_rows, line_start};
ghost use Rattle.mad_hits.specs.Hits.{marked_at, marked_of, placed_cell, placed_cells, placed_line, span, widthless};
ghost use Rattle.mad_hits.specs.Parts.{text_hits, texts_hits, AreRowHits};

use crate::parts::push_parts;
use crate::places::{column_in_cell, column_in_row, table_column};
use crate::styled::styled_text;
use mad_characters::char_columns;
use mad_format::{FmtComposite, FmtLine};
use mad_patterns::{composite_text, found_line, hits_in};
use mad_rows::{RowSkin, cell_columns};
use mad_style::StyledChar;
use regex::Regex;
use std::alloc::{AllocError, Global};

/// Characters of a row that are drawn once more.
#[derive(Drop)]
pub struct Hit {
    /// The column of the first, counted from 0.
    pub column: usize,
    /// The characters, as they stand there.
    pub chars: Vec<StyledChar>,
}

/// What is drawn once more of the row of an index, of `width` columns: of each hit the part that is in it, with the characters without columns behind it.
/// Parts of the text begin in the rows `starts`. Each cell of a table is sought for itself. Past the last row there is nothing.
///
/// # Errors
///
/// Out of memory is the only error.
pub fn row_hits(
    alloc: Global,
    skin: &RowSkin,
    lines: &[FmtLine],
    starts: &[usize],
    row: usize,
    width: usize,
    sought: &Regex,
) -> Result<Vec<Hit>, AllocError>
    ensures { IfOk result (λ hits. row < length lines.now → AreRowHits skin.now width (regex_pattern sought.now) lines.now starts.now row (map marked_of hits.items)) }
{
    let mut hits = Vec::new(alloc);
    let Some(line) = lines.get(row) else {
        return Ok(hits);
    };
    match line {
        FmtLine::Normal(composite) => {
            push_line_hits(
                alloc, &mut hits, skin, composite, lines, starts, row, width, sought,
            )?;
            Ok(hits)
        }
        FmtLine::TableRow(table) => {
            let cells = table.cells.as_slice();
            let left = table_column(skin, cells, width);
            push_cells_hits(alloc, &mut hits, skin, cells, left, sought)?;
            Ok(hits)
        }
        FmtLine::TableRule(_) | FmtLine::HorizontalRule => Ok(hits),
    }
}

// Puts the parts of hits in a line of text after others, which is the row of this index.
fn push_line_hits(
    alloc: Global,
    hits: &mut Vec<Hit>,
    skin: &RowSkin,
    composite: &FmtComposite,
    lines: &[FmtLine],
    starts: &[usize],
    row: usize,
    width: usize,
    sought: &Regex,
) -> Result<(), AllocError>
    requires { row < length lines.now }
    ensures { OnOk result (map marked_of hits.new.items ≡ map marked_of hits.old.items ++ text_hits skin.now (placed_line skin.now (regex_pattern sought.now) width (line_rows lines.now starts.now row) (row - line_start lines.now starts.now row) composite.now)) }
{
    let found = found_line(alloc, lines, starts, sought, row)?;
    let own = found.place(row - found.start);
    let column = column_in_row(skin, composite, width);
    push_hits(
        alloc,
        hits,
        skin,
        composite,
        column,
        own,
        found.hits.as_slice(),
    )?;
    Ok(())
}

// Puts the hits in cells after others; a border is before each cell, the first one in that column.
fn push_cells_hits(
    alloc: Global,
    hits: &mut Vec<Hit>,
    skin: &RowSkin,
    cells: &[FmtComposite],
    left: usize,
    sought: &Regex,
) -> Result<(), AllocError>
    ensures { OnOk result ((column : ℕ) → left ≡ capped column → map marked_of hits.new.items ≡ map marked_of hits.old.items ++ texts_hits skin.now (placed_cells skin.now (regex_pattern sought.now) column cells.now)) }
{
    let mut column = left;
    for cell in cells {
        push_cell_hits(alloc, hits, skin, cell, column, sought)?;
        column = column
            .saturating_add(1)
            .saturating_add(cell_columns(skin, cell));
    }
    Ok(())
}

// Puts those in a cell after others, behind its border in that column.
fn push_cell_hits(
    alloc: Global,
    hits: &mut Vec<Hit>,
    skin: &RowSkin,
    cell: &FmtComposite,
    border: usize,
    sought: &Regex,
) -> Result<(), AllocError>
    ensures { OnOk result ((column : ℕ) → border ≡ capped column → map marked_of hits.new.items ≡ map marked_of hits.old.items ++ text_hits skin.now (placed_cell skin.now (regex_pattern sought.now) column cell.now)) }
{
    let text = composite_text(alloc, cell)?;
    let found = hits_in(alloc, sought, text.as_str())?;
    let own = (0, text.len());
    let column = border
        .saturating_add(1)
        .saturating_add(column_in_cell(skin, cell));
    push_hits(alloc, hits, skin, cell, column, own, found.as_slice())?;
    Ok(())
}

// Puts the parts after others that hits have in a composite, whose text begins in that column and stands there in that in which was sought.
fn push_hits(
    alloc: Global,
    hits: &mut Vec<Hit>,
    skin: &RowSkin,
    composite: &FmtComposite,
    column: usize,
    own: (usize, usize),
    found: &[(usize, usize)],
) -> Result<(), AllocError>
    ensures { OnOk result ((n : ℕ) → column ≡ capped n → map marked_of hits.new.items ≡ map marked_of hits.old.items ++ text_hits skin.now (record { column = n; text = composite.now; own = own; hits = found.now })) }
{
    let text = styled_text(alloc, skin, composite)?;
    let bytes = composite_text(alloc, composite)?;
    push_parts(
        alloc,
        hits,
        text.as_slice(),
        bytes.as_str().as_bytes(),
        column,
        own,
        found,
    )?;
    Ok(())
}

/// The hit that begins at an index of a text, which begins in that column, of so many characters.
pub(crate) fn hit_at(
    alloc: Global,
    text: &[StyledChar],
    column: usize,
    start: usize,
    count: usize,
) -> Result<Hit, AllocError>
    ensures { IfOk result (λ hit. (n : ℕ) → column ≡ capped n → marked_of hit ≡ marked_at n text.now count start) }
{
    let before = &text[..start.min(text.len())];
    let after = &text[start.min(text.len())..];
    let end = span(after, count);
    let chars = Vec::from_slice(alloc, &after[..end])?;
    Ok(Hit {
        column: column.saturating_add(columns_of(before)),
        chars,
    })
}

// How many characters a hit at the start of a text has: so many, and those without columns after them.
fn span(text: &[StyledChar], count: usize) -> usize
    ensures { result ≡ min (length text.now) (span count (map char_alone text.now)) }
{
    let end = count.min(text.len());
    end + widthless(&text[end..])
}

// How many characters without columns come first.
fn widthless(text: &[StyledChar]) -> usize
    ensures count { result ≡ widthless (map char_alone text.now) }
    ensures few { result ≤ length text.now }
{
    let mut count: usize = 0;
    for c in text {
        if char_columns(c.nude_char()) > 0 {
            return count;
        }
        count += 1;
    }
    count
}

/// The columns that characters take.
pub(crate) fn columns_of(text: &[StyledChar]) -> usize
    ensures { result ≡ capped (columns (map char_alone text.now)) }
{
    let mut columns: usize = 0;
    for c in text {
        columns = columns.saturating_add(char_columns(c.nude_char()));
    }
    columns
}
