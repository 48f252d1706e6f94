//! What the items of a list say that stands for a table.

ghost use Rattle.std.specs.Prelude.{◌≡◌, ◌++◌, ◌∷◌, [], ◌+◌, ◌<◌, map, drop, chars, nat_lt, IfOk, OnOk, MatchOption};
ghost use Rattle.mad_md.specs.Flagged.{run_of};
ghost use Rattle.mad_md.specs.Lines.{content_of, styled_runs};
ghost use Rattle.mad_sections.specs.Items.{are_short, cell_lines, item_lines, label, or_blank, paragraph, runs_length, text_length};
ghost use Rattle.mad_sections.specs.Shown.{rows_said, says_heads_of};
ghost use Rattle.mad_sections.specs.TableTexts.{rows_in};

use mad_characters::char_columns;
use mad_md::{Composite, CompositeStyle, Compound, Line, TableRow};
use std::alloc::{AllocError, Global};

// What stands between a head and its cell.
const COLON: &str = ": ";

/// The rows of a table, the head first. Only out of memory is an error.
pub fn rows_in<'s>(alloc: Global, lines: Vec<Line<'s>>) -> Result<Vec<TableRow<'s>>, AllocError>
    ensures { IfOk result (λ rows. rows_said rows.items ≡ rows_in (map content_of lines.entry.items)) }
{
    let mut rows = Vec::new(alloc);
    for line in lines {
        if let Line::TableRow(row) = line {
            rows.push(row)?;
        }
    }
    Ok(rows)
}

/// Whether heads are said in front of their cells: there are rows below them, and none is longer than half of the room.
pub fn says_heads(rows: &[TableRow], room: usize) -> bool
    ensures { result ≡ says_heads_of room (rows_said rows.now) }
{
    match rows {
        [heads, _, ..] => are_short(&heads.cells, room),
        _ => false,
    }
}

// Whether no head is longer than half of the room.
fn are_short(heads: &[Composite], room: usize) -> bool
    ensures { result ≡ are_short room (map styled_runs heads.now) }
{
    let mut rest = heads;
    while let [head, next @ ..] = rest {
        if is_longer(&head.compounds, room / 2) {
            return false;
        }
        rest = next;
    }
    true
}

// Whether runs are longer than this: their columns, where each character counts as one at least.
fn is_longer(compounds: &[Compound], most: usize) -> bool
    ensures { result ≡ nat_lt most (runs_length (map run_of compounds.now)) }
{
    let mut left = most;
    for compound in compounds {
        match left_after(compound.src, left) {
            Some(rest) => left = rest,
            None => return true,
        }
    }
    false
}

// What a text leaves of a length, if it isn't longer.
fn left_after(text: &str, most: usize) -> Option<usize>
    ensures { MatchOption result (most < text_length (chars text.now)) (λ left. left + text_length (chars text.now) ≡ most) }
{
    let mut left = most;
    for c in text.chars() {
        let columns = char_columns(c).max(1);
        left = left.checked_sub(columns)?;
    }
    Some(left)
}

/// The lines of a row's item: its cells that aren't empty, each a paragraph behind its head. Only out of memory is an error.
pub fn item_lines<'s>(
    alloc: Global,
    heads: &[Composite<'s>],
    row: TableRow<'s>,
) -> Result<Vec<Line<'s>>, AllocError>
    ensures { IfOk result (λ lines. map content_of lines.items ≡ item_lines (map styled_runs heads.now) (map styled_runs row.entry.cells.items)) }
{
    let mut lines = Vec::new(alloc);
    let mut left = heads;
    for cell in row.cells {
        push_cell(alloc, &mut lines, left, cell)?;
        left = rest_of(left);
    }
    or_blank(alloc, lines)
}

// All but the first.
fn rest_of<'h, 's>(heads: &'h [Composite<'s>]) -> &'h [Composite<'s>]
    ensures { result.now ≡ drop 1 heads.now }
{
    match heads {
        [_, rest @ ..] => rest,
        [] => heads,
    }
}

// Puts a cell's paragraph behind the lines that are there: behind its label, that of the first head. An empty cell has none.
fn push_cell<'s>(
    alloc: Global,
    lines: &mut Vec<Line<'s>>,
    heads: &[Composite<'s>],
    cell: Composite<'s>,
) -> Result<(), AllocError>
    ensures { OnOk result (map content_of lines.new.items ≡ map content_of lines.old.items ++ cell_lines (label (map styled_runs heads.now)) (styled_runs cell.entry)) }
{
    if cell.compounds.is_empty() {
        return Ok(());
    }
    let mut compounds = label(alloc, heads)?;
    compounds.extend_from_slice(&cell.compounds)?;
    push_paragraph(lines, compounds)
}

// Puts a paragraph behind the lines that are there.
fn push_paragraph<'s>(
    lines: &mut Vec<Line<'s>>,
    compounds: Vec<Compound<'s>>,
) -> Result<(), AllocError>
    ensures { OnOk result (map content_of lines.new.items ≡ map content_of lines.old.items ++ paragraph (map run_of compounds.entry.items) ∷ []) }
{
    lines.push(Line::Normal(Composite {
        style: CompositeStyle::Paragraph,
        compounds,
    }))?;
    Ok(())
}

// What is said of the first head in front of its cell: its text, a colon and a blank; nothing where it is empty or there is none.
fn label<'s>(alloc: Global, heads: &[Composite<'s>]) -> Result<Vec<Compound<'s>>, AllocError>
    ensures { IfOk result (λ compounds. map run_of compounds.items ≡ label (map styled_runs heads.now)) }
{
    match heads {
        [] => Ok(Vec::new(alloc)),
        [head, ..] => {
            let mut compounds = head.compounds.as_slice().to_vec(alloc)?;
            if !compounds.is_empty() {
                compounds.push(Compound::raw_str(COLON))?;
            }
            Ok(compounds)
        }
    }
}

// These lines, or where there is none an empty paragraph.
fn or_blank<'s>(alloc: Global, lines: Vec<Line<'s>>) -> Result<Vec<Line<'s>>, AllocError>
    ensures { IfOk result (λ all. map content_of all.items ≡ or_blank (map content_of lines.entry.items)) }
{
    let mut lines = lines;
    if lines.is_empty() {
        push_paragraph(&mut lines, Vec::new(alloc))?;
    }
    Ok(lines)
}
