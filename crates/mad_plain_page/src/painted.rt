//! Rows as they are drawn, each character in its style.

ghost use Rattle.std.specs.Prelude.{◌≡◌, IfOk};
ghost use Rattle.mad_plain.specs.Runs.{styled};
ghost use Rattle.mad_plain.specs.Shown.{shown_of};
ghost use Rattle.mad_plain_page.specs.PlainTexts.{painted, painted_row};
ghost use Rattle.mad_plain_page.specs.StyledRows.{row_chars};

use mad_plain::{Pen, PlainLine, content_style};
use mad_plain_rows::pen_written;
use mad_style::{CompoundStyle, StyledChar};
use std::alloc::{AllocError, Global};

/// A row of characters, each in its style.
#[derive(Drop)]
pub struct StyledRow {
    /// Its characters, from left to right.
    pub chars: Vec<StyledChar>,
}

/// A row as it is drawn: its characters in their styles, if they are shown.
///
/// # Errors
///
/// Out of memory is the only error.
pub(crate) fn painted_row(
    alloc: Global,
    row: &PlainLine<'_>,
    is_styled: bool,
) -> Result<StyledRow, AllocError>
    ensures { IfOk result (λ drawn. row_chars drawn ≡ painted_row is_styled (shown_of row.now)) }
{
    let mut chars = Vec::new(alloc);
    let mut rest = row.chars();
    while let Some((style, c)) = rest.next() {
        chars.push(painted(is_styled, style, c))?;
    }
    Ok(StyledRow { chars })
}

// A character in its style, if it is shown.
fn painted(is_styled: bool, style: Pen, c: char) -> StyledChar
    ensures { result ≡ painted is_styled (styled style c) }
{
    let object_style = content_style(pen_written(is_styled, style));
    StyledChar::new(CompoundStyle { object_style }, c)
}
