//! A text with marks, put after a string.

ghost use Rattle.std.specs.Prelude.{◌≡◌, ◌+◌, ◌++◌, IfOk, OnOk, chars, encode_utf8, string_bytes};
ghost use Rattle.mad_mark_runs.specs.Marks.{count_of};
ghost use Rattle.mad_marked_rows.specs.LinkedTexts.{char_bytes, first_bytes, pieces_on, text_links};
ghost use Rattle.mad_marked_rows.specs.MarkedTexts.{goes_on, next_value, SameFrom};
ghost use Rattle.mad_marked_rows.specs.Paints.{paint_by};

use crate::cursors::MarkCursor;
use crate::links::mark_link;
use crate::paints::Paint;
use mad_characters::char_columns;
use mad_links::{LinkAddress, push_change};
use mad_term::{ContentStyle, closing_text};
use std::alloc::AllocError;

/// Puts a text in a style after the rows that are there, cut where its mark changes: each part is in the style that its mark makes of it, and in the
/// link of its mark. All that isn't blank of the text is counted. `was` is the number of the link that is open in the row, and so is what is answered.
///
/// # Errors
///
/// Out of memory is the only error. What the rows then end with is open.
pub fn append_marked_text(
    rows: &mut String,
    style: ContentStyle,
    text: &str,
    paint: Paint<'_>,
    addresses: &[Option<LinkAddress>],
    was: Option<usize>,
    cursor: &mut MarkCursor<'_>,
) -> Result<Option<usize>, AllocError>
    ensures writes { IfOk result (λ now. pieces_on addresses.now (string_bytes rows.old, was) (text_links (paint_by paint.entry.styles.now) cursor.old.runs.now style cursor.old.number (chars text.now)) ≡ (string_bytes rows.new, now)) }
    ensures number { OnOk result (cursor.new.number ≡ cursor.old.number + count_of (chars text.now)) }
    ensures same { OnOk result (SameFrom cursor.old.runs.now cursor.new.runs.now cursor.new.number) }
{
    let mut rest = text.chars();
    let Some(first) = rest.next() else {
        return Ok(was);
    };
    let mut value = cursor.next(first)?;
    append_first(rows, style, paint, addresses, was, value, first)?;
    while let Some(c) = rest.next() {
        let other = cursor.next(c)?;
        value = append_char(rows, style, paint, addresses, value, other, c)?;
    }
    rows.push_str(closing_text(paint.over(value, style)))?;
    Ok(mark_link(addresses, value))
}

// Begins a part, where this link is open.
fn append_first(
    rows: &mut String,
    style: ContentStyle,
    paint: Paint<'_>,
    addresses: &[Option<LinkAddress>],
    was: Option<usize>,
    value: usize,
    c: char,
) -> Result<(), AllocError>
    ensures { OnOk result (string_bytes rows.new ≡ string_bytes rows.old ++ first_bytes (paint_by paint.entry.styles.now) addresses.now style was value c) }
{
    push_change(rows, addresses, was, mark_link(addresses, value))?;
    paint.append_opening(rows, value, style)?;
    rows.push(c)?;
    Ok(())
}

// Puts a character after the rows that are there, which end in a part of a value: it goes on with the part, or begins one of its own value.
fn append_char(
    rows: &mut String,
    style: ContentStyle,
    paint: Paint<'_>,
    addresses: &[Option<LinkAddress>],
    value: usize,
    other: usize,
    c: char,
) -> Result<usize, AllocError>
    ensures bytes { OnOk result (string_bytes rows.new ≡ string_bytes rows.old ++ char_bytes (paint_by paint.entry.styles.now) addresses.now style value other c) }
    ensures value { IfOk result (λ v. v ≡ next_value value other c) }
{
    if goes_on(value, other, c) {
        rows.push(c)?;
        return Ok(value);
    }
    rows.push_str(closing_text(paint.over(value, style)))?;
    append_first(
        rows,
        style,
        paint,
        addresses,
        mark_link(addresses, value),
        other,
        c,
    )?;
    Ok(other)
}

// Whether a character of a value goes on with a part of another: where they are the same, and where it takes no column.
pub(crate) fn goes_on(value: usize, other: usize, c: char) -> bool
    ensures { result ≡ goes_on value other c }
{
    other == value || char_columns(c) == 0
}
