//! Which row of a laid out text has a hit.

ghost use Rattle.std.specs.Prelude.{◌≡◌, ◌-◌, IfOk, OnOk, IsTrue, ◌↔◌, MatchOption, option_map, length, ◌<◌, ◌≤◌};
ghost use Rattle.regex.specs.Strings.{matcher_pattern, regex_pattern};
ghost use Rattle.mad_patterns.specs.Breaks.{line_rows, line_start};
ghost use Rattle.mad_patterns.specs.Searches.{line_has_hit, row_has_hit, table_cells, HasHit, IsFirstFrom, IsKnown, IsLastBefore, IsNextRowIn, IsPreviousRowIn, NoneBetween, NoneFrom};

use crate::breaks::{Starts, line_of};
use crate::found::{FoundLine, cells_have_hit, know_line};
use mad_format::{FmtComposite, FmtLine};
use regex::{Matcher, Regex};
use std::alloc::{AllocError, Global};

/// The row in which a hit begins, and which comes next from the one of this index on, around the end of the text. None, where none begins in any.
///
/// Parts of the text begin in the rows `starts`. The rows of one line of the text are sought as one text, with a
/// blank for each break: so words are found also where the row breaks between them, and a word that is broken itself isn't. Each cell of a table is
/// sought for itself.
///
/// # Errors
///
/// Out of memory is the only error.
pub fn next_row_in(
    alloc: Global,
    lines: &[FmtLine],
    starts: &[usize],
    sought: &Regex,
    from: usize,
) -> Result<Option<usize>, AllocError>
    ensures { IfOk result (IsNextRowIn (regex_pattern sought.now) lines.now starts.now from) }
{
    let starts = Starts::looked_over(starts);
    let after = first_row(alloc, lines, starts, sought, from)?;
    if let Some(found) = after {
        return Ok(Some(found));
    }
    let around = first_row(alloc, lines, starts, sought, 0)?;
    Ok(around)
}

/// The row in which a hit begins, and which comes next before the one of this index, around the start of the text. None, where none begins in any.
/// See [`next_row_in`].
///
/// # Errors
///
/// Out of memory is the only error.
pub fn previous_row_in(
    alloc: Global,
    lines: &[FmtLine],
    starts: &[usize],
    sought: &Regex,
    end: usize,
) -> Result<Option<usize>, AllocError>
    ensures { IfOk result (IsPreviousRowIn (regex_pattern sought.now) lines.now starts.now end) }
{
    let starts = Starts::looked_over(starts);
    let before = last_row(alloc, lines, starts, sought, end.min(lines.len()))?;
    if let Some(found) = before {
        return Ok(Some(found));
    }
    let around = last_row(alloc, lines, starts, sought, lines.len())?;
    Ok(around)
}

// The first row from this index on in which a hit begins.
fn first_row(
    alloc: Global,
    lines: &[FmtLine],
    starts: Starts,
    sought: &Regex,
    from: usize,
) -> Result<Option<usize>, AllocError>
    ensures { IfOk result (λ found. MatchOption found (NoneFrom (regex_pattern sought.now) lines.now starts.entry.rows.now from) (IsFirstFrom (regex_pattern sought.now) lines.now starts.entry.rows.now from)) }
{
    let mut matcher = sought.matcher(alloc)?;
    let mut known = FoundLine::new(alloc);
    for row in from..lines.len() {
        let has = has_hit(alloc, lines, starts, sought, &mut matcher, &mut known, row)?;
        if has {
            return Ok(Some(row));
        }
    }
    Ok(None)
}

// The last row before this index in which one begins.
fn last_row(
    alloc: Global,
    lines: &[FmtLine],
    starts: Starts,
    sought: &Regex,
    end: usize,
) -> Result<Option<usize>, AllocError>
    requires { end ≤ length lines.now }
    ensures { IfOk result (λ found. MatchOption found (NoneBetween (regex_pattern sought.now) lines.now starts.entry.rows.now 0 end) (IsLastBefore (regex_pattern sought.now) lines.now starts.entry.rows.now end)) }
{
    let mut matcher = sought.matcher(alloc)?;
    let mut known = FoundLine::new(alloc);
    let mut row = end;
    'rows: while row > 0 {
        row -= 1;
        let has = has_hit(alloc, lines, starts, sought, &mut matcher, &mut known, row)?;
        if has {
            return Ok(Some(row));
        }
    }
    Ok(None)
}

// Whether a hit begins in the row of an index. What was found in the last line is known, and so the rows of one line are read once. Past the last
// row none begins.
fn has_hit(
    alloc: Global,
    lines: &[FmtLine],
    starts: Starts,
    sought: &Regex,
    matcher: &mut Matcher<'_>,
    known: &mut FoundLine,
    row: usize,
) -> Result<bool, AllocError>
    requires same { matcher_pattern matcher.old ≡ regex_pattern sought.now }
    requires known { IsKnown (regex_pattern sought.now) lines.now known.old }
    ensures has { IfOk result (λ has. IsTrue has ↔ HasHit (regex_pattern sought.now) lines.now starts.entry.rows.now row) }
    ensures same { OnOk result (matcher_pattern matcher.new ≡ regex_pattern sought.now) }
    ensures known { OnOk result (IsKnown (regex_pattern sought.now) lines.now known.new) }
{
    match lines.get(row) {
        Some(line) => line_has_hit(alloc, lines, starts, sought, matcher, known, row, line),
        None => Ok(false),
    }
}

// Whether one begins in the row of an index, which shows this line.
fn line_has_hit(
    alloc: Global,
    lines: &[FmtLine],
    starts: Starts,
    sought: &Regex,
    matcher: &mut Matcher<'_>,
    known: &mut FoundLine,
    row: usize,
    line: &FmtLine,
) -> Result<bool, AllocError>
    requires within { row < length lines.now }
    requires same { matcher_pattern matcher.old ≡ regex_pattern sought.now }
    requires known { IsKnown (regex_pattern sought.now) lines.now known.old }
    ensures has { IfOk result (λ has. has ≡ line_has_hit (regex_pattern sought.now) lines.now starts.entry.rows.now row line.now) }
    ensures same { OnOk result (matcher_pattern matcher.new ≡ regex_pattern sought.now) }
    ensures known { OnOk result (IsKnown (regex_pattern sought.now) lines.now known.new) }
{
    match table_cells(line) {
        Some(cells) => cells_have_hit(alloc, sought, matcher, cells),
        None => row_has_hit(alloc, lines, starts, sought, matcher, known, row),
    }
}

// The cells of a row of a table; of another line there are none.
fn table_cells<'l, 's>(line: &'l FmtLine<'s>) -> Option<&'l [FmtComposite<'s>]>
    ensures { option_map (λ cells. cells.now) result ≡ table_cells line.now }
{
    match line {
        FmtLine::TableRow(table) => Some(table.cells.as_slice()),
        FmtLine::Normal(_) | FmtLine::TableRule(_) | FmtLine::HorizontalRule => None,
    }
}

// Whether one begins in the row of an index, by the text of its line.
fn row_has_hit(
    alloc: Global,
    lines: &[FmtLine],
    starts: Starts,
    sought: &Regex,
    matcher: &mut Matcher<'_>,
    known: &mut FoundLine,
    row: usize,
) -> Result<bool, AllocError>
    requires within { row < length lines.now }
    requires same { matcher_pattern matcher.old ≡ regex_pattern sought.now }
    requires known { IsKnown (regex_pattern sought.now) lines.now known.old }
    ensures has { IfOk result (λ has. has ≡ row_has_hit (regex_pattern sought.now) (line_rows lines.now starts.entry.rows.now row) (row - line_start lines.now starts.entry.rows.now row)) }
    ensures same { OnOk result (matcher_pattern matcher.new ≡ regex_pattern sought.now) }
    ensures known { OnOk result (IsKnown (regex_pattern sought.now) lines.now known.new) }
{
    let (start, end) = line_of(lines, starts, row);
    know_line(alloc, lines, sought, matcher, known, start, end)?;
    Ok(known.has_hit_in(row - start))
}
