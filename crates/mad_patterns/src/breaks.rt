//! Rows that come of one line of the text.

ghost use Rattle.std.specs.List.Sorted.{IsNonDecreasing};
ghost use Rattle.std.specs.Prelude.{◌≡◌, ◌+◌, ◌^◌, ◌<◌, ◌≤◌, find, length, nat_le, reverse, slice_get, slice_index_or, slice_range, take, true};
ghost use Rattle.mad_patterns.specs.Breaks.{is_text_row, line_end, line_start, part_end, part_start};

use mad_format::FmtLine;
use mad_style::CompositeKind;

/// Rows in which parts of a text begin. Where they are known to be in order, one of them is found by halving.
#[derive(Clone, Copy)]
pub(crate) struct Starts<'a> {
    pub(crate) rows: &'a [usize],
    pub(crate) in_order: bool,
    pub(crate) ghost order: { in_order ≡ true → IsNonDecreasing rows.now },
}

impl<'a> Starts<'a> {
    /// These rows, of whose order nothing is known.
    pub(crate) fn new(rows: &'a [usize]) -> Self
        ensures { result.rows ≡ rows.entry }
    {
        Starts {
            rows,
            in_order: false,
        }
    }

    /// These rows, which are looked over once for their order: for a search through many rows.
    pub(crate) fn looked_over(rows: &'a [usize]) -> Self
        ensures { result.rows ≡ rows.entry }
    {
        Starts {
            rows,
            in_order: rows.is_sorted(),
        }
    }

    // The first of them below this row; where none is, the next row.
    fn part_end(self, row: usize) -> usize
        requires { row + 1 < 2 ^ 64 }
        ensures { result ≡ part_end self.entry.rows.now row }
    {
        if self.in_order {
            return part_end_in_order(self.rows, row);
        }
        part_end(self.rows, row)
    }

    // The last of them that isn't below this row; where none is, this row.
    fn part_start(self, row: usize) -> usize
        ensures start { result ≡ part_start self.entry.rows.now row }
        ensures above { result ≤ row }
    {
        if self.in_order {
            return part_start_in_order(self.rows, row);
        }
        part_start(self.rows, row)
    }
}

/// The row in which the line begins that a row is of, and the row behind its last one. Of code, tables and rules each row is a line: the rows of
/// one line of code can't be told from those of the next.
pub(crate) fn line_of(lines: &[FmtLine], starts: Starts, row: usize) -> (usize, usize)
    requires { row < length lines.now }
    ensures start { result.0 ≡ line_start lines.now starts.entry.rows.now row }
    ensures end { result.1 ≡ line_end lines.now starts.entry.rows.now row }
    ensures above { result.0 ≤ row }
    ensures below { row < result.1 }
{
    let is_text = is_text_row(lines, row);
    if !is_text {
        return (row, row + 1);
    }
    (starts.part_start(row), starts.part_end(row))
}

/// The rows from one on, up to another.
pub(crate) fn rows_between<'a, 's>(
    lines: &'a [FmtLine<'s>],
    start: usize,
    end: usize,
) -> &'a [FmtLine<'s>]
    ensures { result.now ≡ slice_range lines.now start end }
{
    let below = &lines[start.min(lines.len())..];
    let count = end.saturating_sub(start);
    &below[..count.min(below.len())]
}

// Whether the row of an index is one of text that isn't code. Past the last row none is.
fn is_text_row(lines: &[FmtLine], row: usize) -> bool
    ensures is { result ≡ is_text_row (slice_get lines.now row) }
    ensures within { result ≡ true → row < length lines.now }
{
    match lines.get(row) {
        Some(FmtLine::Normal(composite)) => !matches!(composite.kind, CompositeKind::Code),
        _ => false,
    }
}

// Of rows in which parts begin, the first below this one; where none is, the next row.
fn part_end(starts: &[usize], row: usize) -> usize
    requires { row + 1 < 2 ^ 64 }
    ensures { result ≡ part_end starts.now row }
{
    for start in starts {
        if row < *start {
            return *start;
        }
    }
    row + 1
}

// The same of rows that are in order.
fn part_end_in_order(starts: &[usize], row: usize) -> usize
    requires next { row + 1 < 2 ^ 64 }
    requires order { IsNonDecreasing starts.now }
    ensures { result ≡ part_end starts.now row }
{
    let at = starts.partition_point(|start| *start <= row);
    start_or(starts, at, row + 1)
}

// The row in which the part of an index begins; where there is no such part, the row that is given.
fn start_or(starts: &[usize], part: usize, row: usize) -> usize
    ensures { result ≡ slice_index_or starts.now part row }
{
    starts.get(part).copied().unwrap_or(row)
}

// Of these rows the last one that isn't below this one; where none is, this row.
fn part_start(starts: &[usize], row: usize) -> usize
    ensures start { result ≡ part_start starts.now row }
    ensures above { result ≤ row }
{
    last_start(starts, row, starts.len())
}

// The same of rows that are in order: those below this one are behind the others.
fn part_start_in_order(starts: &[usize], row: usize) -> usize
    requires { IsNonDecreasing starts.now }
    ensures start { result ≡ part_start starts.now row }
    ensures above { result ≤ row }
{
    let end = starts.partition_point(|start| *start <= row);
    last_start(starts, row, end)
}

// The same, where it is among so many.
fn last_start(starts: &[usize], row: usize, end: usize) -> usize
    requires within { end ≤ length starts.now }
    requires found { find (λ start. nat_le start row) (reverse (take end starts.now)) ≡ find (λ start. nat_le start row) (reverse starts.now) }
    ensures start { result ≡ part_start starts.now row }
    ensures above { result ≤ row }
{
    let mut left = end;
    'starts: while left > 0 {
        left -= 1;
        let start = starts[left];
        if start <= row {
            return start;
        }
    }
    row
}
