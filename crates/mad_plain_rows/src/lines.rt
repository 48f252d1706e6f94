//! The rows of a line.

ghost use Rattle.std.specs.Prelude.{◌≡◌, ◌++◌, OnOk, map, string_bytes};
ghost use Rattle.mad_plain.specs.Shown.{shown_of};
ghost use Rattle.mad_plain_rows.specs.PlainRows.{line_bytes, lines_bytes, shown_bytes};

use crate::rows::push_row;
use mad_plain::{PlainLine, plain_line, row_ends, take_part};
use std::alloc::{AllocError, Global};

/// Appends the rows of lines.
///
/// # Errors
///
/// Out of memory. What the text then ends with is open.
pub(crate) fn push_lines(
    alloc: Global,
    text: &mut String,
    lines: &[&str],
    width: usize,
    is_styled: bool,
) -> Result<(), AllocError>
    ensures { OnOk result (string_bytes text.new ≡ string_bytes text.old ++ lines_bytes width is_styled (map (λ line. line.now) lines.now)) }
{
    for line in lines {
        push_line(alloc, text, line, width, is_styled)?;
    }
    Ok(())
}

// Appends the rows of a line.
fn push_line(
    alloc: Global,
    text: &mut String,
    line: &str,
    width: usize,
    is_styled: bool,
) -> Result<(), AllocError>
    ensures { OnOk result (string_bytes text.new ≡ string_bytes text.old ++ line_bytes width is_styled line.now) }
{
    let shown = plain_line(alloc, line)?;
    push_shown(alloc, text, &shown, width, is_styled)
}

// Appends the rows of what a line shows.
fn push_shown(
    alloc: Global,
    text: &mut String,
    line: &PlainLine<'_>,
    width: usize,
    is_styled: bool,
) -> Result<(), AllocError>
    ensures { OnOk result (string_bytes text.new ≡ string_bytes text.old ++ shown_bytes width is_styled (shown_of line.now)) }
{
    let ends = row_ends(alloc, &line.text, width)?;
    let mut rest = line.chars();
    let mut at = 0;
    for end in ends {
        let row = take_part(alloc, &mut rest, end.saturating_sub(at))?;
        push_row(text, &row, is_styled)?;
        at = end;
    }
    Ok(())
}
