//! What a row writes.

ghost use Rattle.std.specs.Prelude.{◌≡◌, ◌++◌, OnOk, string_bytes};
ghost use Rattle.mad_plain.specs.Shown.{shown_of};
ghost use Rattle.mad_plain_rows.specs.PlainRows.{end_bytes, pen_written, row_bytes, turn_bytes};

use mad_plain::{Pen, PlainLine, content_style, plain_pen};
use mad_term::{StyleOpening, closing_text};
use std::alloc::AllocError;

/// Appends a row: its characters, in their styles if they are written, and a newline.
///
/// # Errors
///
/// Out of memory. What the text then ends with is open.
pub(crate) fn push_row(
    text: &mut String,
    row: &PlainLine<'_>,
    is_styled: bool,
) -> Result<(), AllocError>
    ensures { OnOk result (string_bytes text.new ≡ string_bytes text.old ++ row_bytes is_styled (shown_of row.now)) }
{
    let mut rest = row.chars();
    let mut pen = plain_pen();
    while let Some((style, c)) = rest.next() {
        let next = pen_written(is_styled, style);
        push_turn(text, pen, next)?;
        text.push(c)?;
        pen = next;
    }
    push_end(text, pen)
}

/// The pen that a character of this style is written with: the plain one, where styles aren't written.
pub fn pen_written(is_styled: bool, style: Pen) -> Pen
    ensures { result ≡ pen_written is_styled style }
{
    if is_styled { style } else { plain_pen() }
}

// Appends what ends one pen and begins another.
fn push_turn(text: &mut String, old: Pen, new: Pen) -> Result<(), AllocError>
    ensures { OnOk result (string_bytes text.new ≡ string_bytes text.old ++ turn_bytes old new) }
{
    if old == new {
        return Ok(());
    }
    text.push_str(closing_text(content_style(old)))?;
    let opening = StyleOpening(content_style(new));
    write!(text, "{opening}")
}

// Appends what ends a pen, and a newline.
fn push_end(text: &mut String, pen: Pen) -> Result<(), AllocError>
    ensures { OnOk result (string_bytes text.new ≡ string_bytes text.old ++ end_bytes pen) }
{
    text.push_str(closing_text(content_style(pen)))?;
    text.push('\n')
}
