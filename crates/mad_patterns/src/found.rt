//! The hits in a text, and in a line of the text that is laid out in rows.

ghost use Rattle.std.specs.List.{list_any};
ghost use Rattle.std.specs.Prelude.{◌≡◌, ◌++◌, ◌∷◌, [], ◌<◌, ◌≤◌, IfOk, OnOk, if◌then◌else◌, length, nat_lt, slice_index_or, string_bytes};
ghost use Rattle.regex.specs.Strings.{matcher_pattern, regex_pattern};
ghost use Rattle.mad_patterns.specs.Breaks.{line_end, line_start};
ghost use Rattle.mad_patterns.specs.Searches.{begins_in, cell_has_hit, composite_text, hits, joined, line_text, places, row_text, row_texts, IsFoundLine, IsKnown};

use crate::breaks::{Starts, line_of, rows_between};
use mad_format::{FmtComposite, FmtLine};
use regex::{Matcher, Regex};
use std::alloc::{AllocError, Global};

/// What was found in a line of the text that is laid out in rows.
#[derive(Drop)]
pub struct FoundLine {
    /// Its first row.
    pub start: usize,
    /// The row behind its last one.
    pub end: usize,
    /// Where the text of each row stands in that of the line: its first byte, and the one behind it.
    pub places: Vec<(usize, usize)>,
    /// The hits in the text of the line, in order: the first byte of each, and the one behind it.
    pub hits: Vec<(usize, usize)>,
}

impl FoundLine {
    // What is known before any line was looked at.
    pub(crate) fn new(alloc: Global) -> Self
        ensures { (sought : _) (lines : _) → IsKnown sought lines result }
    {
        FoundLine {
            start: 0,
            end: 0,
            places: Vec::new(alloc),
            hits: Vec::new(alloc),
        }
    }

    // Whether a hit begins in the row of this number among those of the line.
    pub(crate) fn has_hit_in(&self, row: usize) -> bool
        ensures { result ≡ list_any (begins_in (slice_index_or self.now.places.items row (0, 0))) self.now.hits.items }
    {
        let own = self.place(row);
        self.hits.as_slice().iter().any(|hit| begins_in(own, *hit))
    }

    /// Where the text of the row of this number stands in that of the line.
    pub fn place(&self, row: usize) -> (usize, usize)
        ensures { result ≡ slice_index_or self.now.places.items row (0, 0) }
    {
        match self.places.get(row) {
            Some(own) => *own,
            None => (0, 0),
        }
    }
}

// Whether a hit begins in a row whose text stands there. The blank of the break behind it is of that row.
fn begins_in(own: (usize, usize), hit: (usize, usize)) -> bool
    ensures { result ≡ begins_in own hit }
{
    own.0 <= hit.0 && hit.0 <= own.1
}

/// The hits in the line of the text that the row of an index is of. Parts of the text begin in the rows `starts`. The texts of the line's rows are
/// joined: a blank stands for each break, and for the blanks before it.
///
/// # Errors
///
/// Out of memory is the only error.
pub fn found_line(
    alloc: Global,
    lines: &[FmtLine],
    starts: &[usize],
    sought: &Regex,
    row: usize,
) -> Result<FoundLine, AllocError>
    requires { row < length lines.now }
    ensures start { IfOk result (λ found. found.start ≡ line_start lines.now starts.now row) }
    ensures end { IfOk result (λ found. found.end ≡ line_end lines.now starts.now row) }
    ensures above { IfOk result (λ found. found.start ≤ row) }
    ensures found { IfOk result (IsFoundLine (regex_pattern sought.now) lines.now) }
{
    let (start, end) = line_of(lines, Starts::new(starts), row);
    let mut matcher = sought.matcher(alloc)?;
    let found = find_line(alloc, lines, sought, &mut matcher, start, end)?;
    Ok(found)
}

/// The hits in a text, in order: the matches from the left on that don't overlap, without the empty ones. Each is its first byte, and the one behind it.
///
/// # Errors
///
/// Out of memory is the only error.
pub fn hits_in(alloc: Global, sought: &Regex, text: &str) -> Result<Vec<(usize, usize)>, AllocError>
    ensures { IfOk result (λ found. found.items ≡ hits (regex_pattern sought.now) text.now) }
{
    let mut matcher = sought.matcher(alloc)?;
    let mut found = Vec::new(alloc);
    for hit in matcher.find_iter(text) {
        push_hit(&mut found, hit.start(), hit.end())?;
    }
    Ok(found)
}

// Puts a match after hits, if it isn't empty.
fn push_hit(found: &mut Vec<(usize, usize)>, start: usize, end: usize) -> Result<(), AllocError>
    ensures { OnOk result (found.new.items ≡ found.old.items ++ (if nat_lt start end then (start, end) ∷ [] else [])) }
{
    if start < end {
        found.push((start, end))?;
        return Ok(());
    }
    Ok(())
}

// The hits in a text by a matcher of the same. Most texts have none, which it tells at once.
fn hits_by(
    alloc: Global,
    sought: &Regex,
    matcher: &mut Matcher<'_>,
    text: &str,
) -> Result<Vec<(usize, usize)>, AllocError>
    requires { matcher_pattern matcher.old ≡ regex_pattern sought.now }
    ensures hits { IfOk result (λ found. found.items ≡ hits (regex_pattern sought.now) text.now) }
    ensures same { matcher_pattern matcher.new ≡ matcher_pattern matcher.old }
{
    if !matcher.is_match(text) {
        return Ok(Vec::new(alloc));
    }
    let found = hits_in(alloc, sought, text)?;
    Ok(found)
}

// What is found in the line of the rows from one on, up to another.
fn find_line(
    alloc: Global,
    lines: &[FmtLine],
    sought: &Regex,
    matcher: &mut Matcher<'_>,
    start: usize,
    end: usize,
) -> Result<FoundLine, AllocError>
    requires { matcher_pattern matcher.old ≡ regex_pattern sought.now }
    ensures start { IfOk result (λ found. found.start ≡ start) }
    ensures end { IfOk result (λ found. found.end ≡ end) }
    ensures found { IfOk result (IsFoundLine (regex_pattern sought.now) lines.now) }
    ensures same { matcher_pattern matcher.new ≡ matcher_pattern matcher.old }
{
    let (text, places) = joined(alloc, rows_between(lines, start, end))?;
    let hits = hits_by(alloc, sought, matcher, text.as_str())?;
    Ok(FoundLine {
        start,
        end,
        places,
        hits,
    })
}

// Knows what is found in the line of these rows, which is looked for if another line is known.
pub(crate) fn know_line(
    alloc: Global,
    lines: &[FmtLine],
    sought: &Regex,
    matcher: &mut Matcher<'_>,
    known: &mut FoundLine,
    start: usize,
    end: usize,
) -> Result<(), AllocError>
    requires some { start < end }
    requires same { matcher_pattern matcher.old ≡ regex_pattern sought.now }
    requires known { IsKnown (regex_pattern sought.now) lines.now known.old }
    ensures start { OnOk result (known.new.start ≡ start) }
    ensures end { OnOk result (known.new.end ≡ end) }
    ensures found { OnOk result (IsFoundLine (regex_pattern sought.now) lines.now known.new) }
    ensures same { matcher_pattern matcher.new ≡ matcher_pattern matcher.old }
{
    if known.start == start && known.end == end {
        return Ok(());
    }
    let found = find_line(alloc, lines, sought, matcher, start, end)?;
    *known = found;
    Ok(())
}

// Whether a hit is in one of these cells.
pub(crate) fn cells_have_hit(
    alloc: Global,
    sought: &Regex,
    matcher: &mut Matcher<'_>,
    cells: &[FmtComposite],
) -> Result<bool, AllocError>
    requires { matcher_pattern matcher.old ≡ regex_pattern sought.now }
    ensures has { IfOk result (λ has. has ≡ list_any (cell_has_hit (regex_pattern sought.now)) cells.now) }
    ensures same { matcher_pattern matcher.new ≡ matcher_pattern matcher.old }
{
    for cell in cells {
        let has = cell_has_hit(alloc, sought, matcher, cell)?;
        if has {
            return Ok(true);
        }
    }
    Ok(false)
}

// Whether one is in a cell.
fn cell_has_hit(
    alloc: Global,
    sought: &Regex,
    matcher: &mut Matcher<'_>,
    cell: &FmtComposite,
) -> Result<bool, AllocError>
    requires { matcher_pattern matcher.old ≡ regex_pattern sought.now }
    ensures has { IfOk result (λ has. has ≡ cell_has_hit (regex_pattern sought.now) cell.now) }
    ensures same { matcher_pattern matcher.new ≡ matcher_pattern matcher.old }
{
    let text = composite_text(alloc, cell)?;
    let found = hits_by(alloc, sought, matcher, text.as_str())?;
    Ok(!found.as_slice().is_empty())
}

// The texts of rows that come of one line, joined, and where each of them stands.
fn joined(alloc: Global, rows: &[FmtLine]) -> Result<(String, Vec<(usize, usize)>), AllocError>
    ensures text { IfOk result (λ both. string_bytes both.0 ≡ joined (row_texts rows.now)) }
    ensures places { IfOk result (λ both. both.1.items ≡ places 0 (row_texts rows.now)) }
{
    let mut text = String::new(alloc);
    let mut places = Vec::new(alloc);
    for index in 0..rows.len() {
        push_break(&mut text, index)?;
        let start = text.len();
        push_row(alloc, &mut text, &rows[index], index + 1 == rows.len())?;
        places.push((start, text.len()))?;
    }
    Ok((text, places))
}

// Puts the blank of a break after a text, but before the first row.
fn push_break(text: &mut String, index: usize) -> Result<(), AllocError>
    ensures { OnOk result (string_bytes text.new ≡ string_bytes text.old ++ (if nat_lt 0 index then 32 ∷ [] else [])) }
{
    if index > 0 {
        text.push(' ')?;
        return Ok(());
    }
    Ok(())
}

// Puts the text of a row after a text. Where it isn't the last of its line, the blanks at its end don't count.
fn push_row(
    alloc: Global,
    text: &mut String,
    row: &FmtLine,
    is_last: bool,
) -> Result<(), AllocError>
    ensures { OnOk result (string_bytes text.new ≡ string_bytes text.old ++ row_text is_last row.now) }
{
    let own = line_text(alloc, row)?;
    if is_last {
        text.push_str(own.as_str())?;
        return Ok(());
    }
    text.push_str(own.as_str().trim_end())?;
    Ok(())
}

// The text of a row; of one of a table and of a rule none.
fn line_text(alloc: Global, row: &FmtLine) -> Result<String, AllocError>
    ensures { IfOk result (λ text. string_bytes text ≡ line_text row.now) }
{
    match row {
        FmtLine::Normal(composite) => composite_text(alloc, composite),
        FmtLine::TableRow(_) | FmtLine::TableRule(_) | FmtLine::HorizontalRule => {
            Ok(String::new(alloc))
        }
    }
}

/// The text of a composite.
///
/// # Errors
///
/// Out of memory is the only error.
pub fn composite_text(alloc: Global, composite: &FmtComposite) -> Result<String, AllocError>
    ensures { IfOk result (λ text. string_bytes text ≡ composite_text composite.now) }
{
    let mut text = String::new(alloc);
    for compound in &composite.compounds {
        text.push_str(compound.src)?;
    }
    Ok(text)
}
