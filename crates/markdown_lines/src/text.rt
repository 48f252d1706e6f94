//! Lines of runs, as lines that the library lays out.

ghost use Rattle.std.specs.Prelude.{◌≡◌, IfOk, map};
ghost use Rattle.mad_md.specs.Lines.{styled_runs, content_of};
ghost use Rattle.markdown_lines.specs.Lines.{cell_said, line_said};
ghost use Rattle.markdown_lines.specs.Said.{said, range_said};

use crate::lines::MarkdownLine;
use crate::places::RunRange;
use crate::runs::Runs;
use mad_md::{Composite, CompositeStyle, Line, TableRow, TableRule};
use std::alloc::{AllocError, Global};

// A line of some runs.
fn make_composite<'r>(
    alloc: Global,
    runs: &'r Runs,
    style: CompositeStyle,
    range: RunRange,
) -> Result<Composite<'r>, AllocError>
    ensures { IfOk result (λ composite. styled_runs composite ≡ record { style = style; runs = range_said (said runs.now) range }) }
{
    let total = runs.count();
    let mut compounds = Vec::with_capacity(alloc, range.count.min(total))?;
    let mut index = range.start;
    let mut more = range.count;
    while more > 0 {
        if index >= total {
            return Ok(Composite { style, compounds });
        }
        match runs.get(index) {
            None => return Ok(Composite { style, compounds }),
            Some(run) => {
                compounds.push(run)?;
                index += 1;
                more -= 1;
            }
        }
    }
    Ok(Composite { style, compounds })
}

fn make_row<'r>(
    alloc: Global,
    runs: &'r Runs,
    ranges: &[RunRange],
) -> Result<TableRow<'r>, AllocError>
    ensures { IfOk result (λ row. map styled_runs row.cells.items ≡ map (cell_said (said runs.now)) ranges.now) }
{
    let mut cells = Vec::with_capacity(alloc, ranges.len())?;
    let mut rest = ranges;
    while let [range, next @ ..] = rest {
        let cell = make_composite(alloc, runs, CompositeStyle::Paragraph, *range)?;
        cells.push(cell)?;
        rest = next;
    }
    Ok(TableRow { cells })
}

/// The line as the library has it.
pub(crate) fn make_line<'r>(
    alloc: Global,
    runs: &'r Runs,
    line: &MarkdownLine,
) -> Result<Line<'r>, AllocError>
    ensures { IfOk result (λ made. content_of made ≡ line_said (said runs.now) line.now) }
{
    match line {
        MarkdownLine::Normal(style, range) => {
            let composite = make_composite(alloc, runs, *style, *range)?;
            Ok(Line::Normal(composite))
        }
        MarkdownLine::Row(ranges) => {
            let row = make_row(alloc, runs, ranges)?;
            Ok(Line::TableRow(row))
        }
        MarkdownLine::Rule(alignments) => {
            let cells = Vec::from_slice(alloc, alignments)?;
            Ok(Line::TableRule(TableRule { cells }))
        }
        MarkdownLine::HorizontalRule => Ok(Line::HorizontalRule),
    }
}
