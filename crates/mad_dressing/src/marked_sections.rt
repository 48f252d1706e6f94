//! Sections with marks at their words.

ghost use Rattle.std.specs.Prelude.{◌≡◌, ◌++◌, ◌∷◌, [], map, IfOk, OnOk};
ghost use Rattle.mad_md.specs.Flagged.{unflagged};
ghost use Rattle.mad_md.specs.Lines.{content_of, contents, styled_runs};
ghost use Rattle.mad_sections.specs.Sections.{section_content};
ghost use Rattle.mad_dressing.specs.WordFlags.{flags_said};
ghost use Rattle.mad_dressing.specs.WordMarks.{begin_code, begin_table, begins_strong, end_flags, end_in_alert, is_alert, is_code, is_of_table, is_rule, line_flags, marked_line, marked_lines, marked_text, start_flags, worded};

use crate::word_marks::{WordFlags, first_flags, last_flags, marked_composite, no_flags};
use mad_md::{Composite, CompositeStyle, Line, TableRow, TableRule, Text};
use mad_sections::{Gutter, Section};
use std::alloc::{AllocError, Global};

/// A section with marks at its words, or as it is. None of its text changes.
///
/// # Errors
///
/// Out of memory is the only error.
pub(crate) fn worded<'s>(
    alloc: Global,
    section: Section<'s>,
    words: bool,
) -> Result<Section<'s>, AllocError>
    ensures { IfOk result (λ own. section_content own ≡ worded words (section_content section.entry)) }
{
    if !words || begin_code(&section.text.lines) {
        return Ok(section);
    }
    let strong = begins_strong(&section);
    let lines = marked_lines(alloc, &section.text.lines, strong)?;
    Ok(Section {
        text: Text { lines },
        ..section
    })
}

// Whether the first line of a section is bold as a whole: the head of a table, or the word with which an alert begins.
fn begins_strong(section: &Section<'_>) -> bool
    ensures { result ≡ begins_strong (section_content section.now) }
{
    begin_table(&section.text.lines) || (section.fresh > 0 && end_in_alert(section.gutters))
}

/// Whether lines begin with one of code.
pub(crate) fn begin_code(lines: &[Line<'_>]) -> bool
    ensures { result ≡ begin_code (map content_of lines.now) }
{
    match lines {
        [line, ..] => is_code(line),
        [] => false,
    }
}

// Whether a line is one of code.
fn is_code(line: &Line) -> bool
    ensures { result ≡ is_code (content_of line.now) }
{
    match line {
        Line::Normal(composite) => matches!(composite.style, CompositeStyle::Code),
        _ => false,
    }
}

// Whether lines begin with one of a table.
fn begin_table(lines: &[Line<'_>]) -> bool
    ensures { result ≡ begin_table (map content_of lines.now) }
{
    match lines {
        [line, ..] => is_of_table(line),
        [] => false,
    }
}

// Whether a line is one of a table.
fn is_of_table(line: &Line) -> bool
    ensures { result ≡ is_of_table (content_of line.now) }
{
    matches!(line, Line::TableRow(_) | Line::TableRule(_))
}

// Whether the last gutter is the bar of an alert.
fn end_in_alert(gutters: &[Gutter]) -> bool
    ensures { result ≡ end_in_alert gutters.now }
{
    let mut last = false;
    let mut rest = gutters;
    while let [gutter, next @ ..] = rest {
        last = is_alert(*gutter);
        rest = next;
    }
    last
}

// Whether a gutter is.
fn is_alert(gutter: Gutter) -> bool
    ensures { result ≡ is_alert gutter }
{
    matches!(gutter, Gutter::AlertBar(_))
}

// Lines with marks; the first of them is bold as a whole, or isn't.
fn marked_lines<'s>(
    alloc: Global,
    lines: &[Line<'s>],
    strong: bool,
) -> Result<Vec<Line<'s>>, AllocError>
    ensures { IfOk result (λ marked. map content_of marked.items ≡ marked_lines strong unflagged (map content_of lines.now)) }
{
    let mut marked = Vec::new(alloc);
    let mut before = no_flags();
    let mut strong = strong;
    let mut rest = lines;
    while let [line, next @ ..] = rest {
        marked.push(marked_line(alloc, line, next, strong, before)?)?;
        before = end_flags(line, strong);
        strong = strong && is_rule(line);
        rest = next;
    }
    Ok(marked)
}

// A line with marks, after a text with these flags and before other lines.
fn marked_line<'s>(
    alloc: Global,
    line: &Line<'s>,
    next: &[Line<'s>],
    strong: bool,
    before: WordFlags,
) -> Result<Line<'s>, AllocError>
    ensures { IfOk result (λ marked. content_of marked ≡ marked_line strong (flags_said before) (map content_of next.now) (content_of line.now)) }
{
    match line {
        Line::Normal(composite) => {
            let after = start_flags(next);
            let marked = marked_composite(alloc, composite, strong, before, after)?;
            Ok(Line::Normal(marked))
        }
        Line::TableRow(row) => {
            let cells = marked_cells(alloc, &row.cells, strong)?;
            Ok(Line::TableRow(TableRow { cells }))
        }
        Line::TableRule(rule) => {
            let cells = Vec::from_slice(alloc, &rule.cells)?;
            Ok(Line::TableRule(TableRule { cells }))
        }
        Line::HorizontalRule => Ok(Line::HorizontalRule),
    }
}

// The flags with which lines begin.
fn start_flags(lines: &[Line]) -> WordFlags
    ensures { flags_said result ≡ start_flags (map content_of lines.now) }
{
    match lines {
        [line, ..] => line_flags(line),
        [] => no_flags(),
    }
}

// The flags with which a line begins.
fn line_flags(line: &Line) -> WordFlags
    ensures { flags_said result ≡ line_flags (content_of line.now) }
{
    match line {
        Line::Normal(composite) => first_flags(&composite.compounds, false, no_flags()),
        _ => no_flags(),
    }
}

// The flags with which a line ends.
fn end_flags(line: &Line, strong: bool) -> WordFlags
    ensures { flags_said result ≡ end_flags strong (content_of line.now) }
{
    match line {
        Line::Normal(composite) => last_flags(&composite.compounds, strong),
        _ => no_flags(),
    }
}

// Whether a line is a rule across a table.
fn is_rule(line: &Line<'_>) -> bool
    ensures { result ≡ is_rule (content_of line.now) }
{
    matches!(line, Line::TableRule(_))
}

// A row's cells with marks, each for itself.
fn marked_cells<'s>(
    alloc: Global,
    cells: &[Composite<'s>],
    strong: bool,
) -> Result<Vec<Composite<'s>>, AllocError>
    ensures { IfOk result (λ marked. map styled_runs marked.items ≡ map (marked_text strong unflagged unflagged) (map styled_runs cells.now)) }
{
    let mut marked = Vec::new(alloc);
    let mut rest = cells;
    while let [cell, next @ ..] = rest {
        marked.push(marked_composite(alloc, cell, strong, no_flags(), no_flags())?)?;
        rest = next;
    }
    Ok(marked)
}
