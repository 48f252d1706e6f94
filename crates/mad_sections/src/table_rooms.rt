//! Whether a table has room.

ghost use Rattle.std.specs.Prelude.{◌≡◌, ◌==◌, ◌∷◌, [], not, map, length, take, drop};
ghost use Rattle.std.specs.List.{flat_map};
ghost use Rattle.mad_md.specs.Lines.{content_of};
ghost use Rattle.mad_sections.specs.CellWords.{capped};
ghost use Rattle.mad_sections.specs.TableTexts.{are_table, columns_count, columns_in, has_room, least_text, least_width, longest_in, rows_in};
ghost use Rattle.mad_sections.specs.Unfolded.{lacks_room};

use crate::cell_words::longest_word;
use mad_md::Line;

/// The least width of a column.
pub const LEAST_COLUMN: usize = 3;

/// How the cells of a table are laid out.
#[derive(Clone, Copy, PartialEq, Debug)]
pub struct TableRules {
    /// Whether words stay whole, so that a column has room for its longest.
    pub whole_words: bool,
    /// Whether a blank is at both sides of each cell.
    pub cell_blanks: bool,
}

/// Whether lines are a table of some rows that has no room: its columns don't fit side by side where each has three, or where words stay
/// whole its longest word, and beside these its blanks.
///
/// As many columns are looked at as have room, and each in one pass over the lines.
pub fn lacks_room(lines: &[Line], room: usize, rules: TableRules) -> bool
    ensures { result ≡ lacks_room rules room (map content_of lines.now) }
{
    are_table(lines) && has_row(lines) && !has_room(lines, room, rules)
}

// Whether all lines are of a table.
fn are_table(lines: &[Line]) -> bool
    ensures { result ≡ are_table (map content_of lines.now) }
{
    let mut rest = lines;
    while let [line, next @ ..] = rest {
        match line {
            Line::TableRow(_) | Line::TableRule(_) => rest = next,
            Line::Normal(_) | Line::HorizontalRule => return false,
        }
    }
    true
}

// Whether one of the lines is a row.
fn has_row(lines: &[Line]) -> bool
    ensures { result ≡ not (length (rows_in (map content_of lines.now)) == 0) }
{
    let mut rest = lines;
    while let [line, next @ ..] = rest {
        if let Line::TableRow(_) = line {
            return true;
        }
        rest = next;
    }
    false
}

// Whether the columns fit side by side at their least widths.
fn has_room(lines: &[Line], room: usize, rules: TableRules) -> bool
    ensures { result ≡ has_room rules room (map content_of lines.now) }
{
    let count = columns_count(lines);
    if room == 0 {
        return false;
    }
    let mut left = room - 1;
    for column in 0..count {
        let width = least_width(lines, column, rules);
        if left <= width {
            return false;
        }
        left -= width + 1;
    }
    true
}

// The greatest count of cells or alignments of the lines.
fn columns_count(lines: &[Line]) -> usize
    ensures { result ≡ columns_count (map content_of lines.now) }
{
    let mut count: usize = 0;
    for line in lines {
        count = count.max(columns_in(line));
    }
    count
}

fn columns_in(line: &Line) -> usize
    ensures { result ≡ columns_in (content_of line.now) }
{
    match line {
        Line::TableRow(row) => row.cells.len(),
        Line::TableRule(rule) => rule.cells.len(),
        Line::Normal(_) | Line::HorizontalRule => 0,
    }
}

// The least width of the column of this number, with its blanks.
fn least_width(lines: &[Line], column: usize, rules: TableRules) -> usize
    ensures { result ≡ capped (least_width rules (flat_map (take 1) (map (drop column) (rows_in (map content_of lines.now))))) }
{
    let text = least_text(lines, column, rules.whole_words);
    if rules.cell_blanks {
        text.saturating_add(2)
    } else {
        text
    }
}

// The same without them.
fn least_text(lines: &[Line], column: usize, whole_words: bool) -> usize
    ensures { result ≡ capped (least_text whole_words (flat_map (take 1) (map (drop column) (rows_in (map content_of lines.now))))) }
{
    if whole_words {
        LEAST_COLUMN.max(longest_in(lines, column))
    } else {
        LEAST_COLUMN
    }
}

// The columns of the longest word of the column of this number.
fn longest_in(lines: &[Line], column: usize) -> usize
    ensures { result ≡ capped (longest_in (flat_map (take 1) (map (drop column) (rows_in (map content_of lines.now))))) }
{
    let mut longest: usize = 0;
    for line in lines {
        longest = longest.max(word_in(line, column));
    }
    longest
}

// The columns of the longest word of a line's cell of this number, 0 where it has none.
fn word_in(line: &Line, column: usize) -> usize
    ensures { result ≡ capped (longest_in (flat_map (take 1) (map (drop column) (rows_in (content_of line.now ∷ []))))) }
{
    match line {
        Line::TableRow(row) if column < row.cells.len() => longest_word(
            &row.cells[column].compounds,
        ),
        _ => 0,
    }
}
