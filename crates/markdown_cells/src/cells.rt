//! Cells of a row of a table.

ghost use Rattle.std.specs.Prelude.{◌≡◌, ◌≤◌, ◌==◌, ◌&&◌, [], ◌∷◌, ◌++◌, false, not, IfOk, OnOk, length, drop, if◌then◌else◌};
ghost use Rattle.markdown_marks.specs.Tables.{row_of};
ghost use Rattle.markdown_cells.specs.Cells.{cell_len, cell_of, after_cell, with_waiting, with_byte, unbarred, last_byte, alignment, alignment_of, alignments};

use mad_md::Alignment;
use markdown_marks::bytes::{first, tail, without_blanks};
use markdown_marks::headings::without_end;
use std::alloc::{AllocError, Global};

/// A row without the blanks in front and the bar after them.
pub fn row_of(bytes: &[u8]) -> &[u8]
    ensures { result.now ≡ row_of bytes.entry.now }
{
    let row = without_blanks(bytes);
    if first(row) == b'|' {
        tail(row, 1)
    } else {
        row
    }
}

fn ends_cell(byte: u8, escaped: bool) -> bool
    ensures { result ≡ ((byte == 124) && not escaped) }
{
    byte == b'|' && !escaped
}

fn escapes(byte: u8) -> bool
    ensures { result ≡ (byte == 92) }
{
    byte == b'\\'
}

// How many bytes are before the bar that ends the first cell, or in all.
#[tactic(auto, unfolding(crate::specs::Cells::cell_len))]
fn cell_len(row: &[u8]) -> usize
    ensures value { result ≡ cell_len false row.now }
    ensures within { result ≤ length row.now }
{
    let mut rest = row;
    let mut escaped = false;
    let mut len = 0;
    while let [byte, next @ ..] = rest {
        if ends_cell(*byte, escaped) {
            return len;
        }
        escaped = escapes(*byte);
        len += 1;
        rest = next;
    }
    len
}

/// The bytes after the first.
pub fn without_first(bytes: &[u8]) -> &[u8]
    ensures { result.now ≡ drop 1 bytes.entry.now }
{
    match bytes {
        [] => bytes,
        [_, rest @ ..] => rest,
    }
}

/// The first cell of a row, without blanks at its ends.
pub fn cell_of(row: &[u8]) -> &[u8]
    ensures { result.now ≡ cell_of row.entry.now }
{
    let len = cell_len(row);
    without_end(b' ', b'\t', without_blanks(&row[..len]))
}

/// The row after its first cell.
pub fn after_cell(row: &[u8]) -> &[u8]
    ensures { result.now ≡ after_cell row.entry.now }
{
    let len = cell_len(row);
    without_first(tail(row, len))
}

// Writes a backslash that waited, but before a bar.
fn push_waiting(text: &mut Vec<u8>, escaped: bool, byte: u8) -> Result<(), AllocError>
    ensures { OnOk result (text.new.items ≡ with_waiting text.old.items (escaped && not (byte == 124))) }
{
    if escaped && byte != b'|' {
        text.push(b'\\')?;
    }
    Ok(())
}

// Writes a byte, but a backslash: that one waits.
fn push_byte(text: &mut Vec<u8>, byte: u8) -> Result<(), AllocError>
    ensures { OnOk result (text.new.items ≡ with_byte text.old.items byte) }
{
    if byte == b'\\' {
        return Ok(());
    }
    text.push(byte)?;
    Ok(())
}

fn push_last(text: &mut Vec<u8>, escaped: bool) -> Result<(), AllocError>
    ensures { OnOk result (text.new.items ≡ with_waiting text.old.items escaped) }
{
    if escaped {
        text.push(b'\\')?;
    }
    Ok(())
}

/// The text of a cell: bars without the backslash right before them.
#[tactic(auto, unfolding(crate::specs::Cells::unbarred))]
pub fn cell_text(alloc: Global, cell: &[u8]) -> Result<Vec<u8>, AllocError>
    ensures { IfOk result (λ text. text.items ≡ unbarred [] false cell.now) }
{
    let mut text = Vec::with_capacity(alloc, cell.len())?;
    let mut rest = cell;
    let mut escaped = false;
    while let [byte, next @ ..] = rest {
        rest = next;
        push_waiting(&mut text, escaped, *byte)?;
        push_byte(&mut text, *byte)?;
        escaped = escapes(*byte);
    }
    push_last(&mut text, escaped)?;
    Ok(text)
}

fn last_byte(bytes: &[u8]) -> u8
    ensures { result ≡ last_byte bytes.now }
{
    if bytes.is_empty() {
        0
    } else {
        bytes[bytes.len() - 1]
    }
}

fn alignment(left: bool, right: bool) -> Alignment
    ensures { result ≡ alignment left right }
{
    if left && right {
        return Alignment::Center;
    }
    if left {
        return Alignment::Left;
    }
    if right {
        return Alignment::Right;
    }
    Alignment::Unspecified
}

// What a cell of the row of delimiters says.
fn alignment_of(cell: &[u8]) -> Alignment
    ensures { result ≡ alignment_of cell.now }
{
    alignment(first(cell) == b':', last_byte(cell) == b':')
}

/// The alignments of so many columns, as the row of delimiters says.
pub fn alignments(alloc: Global, columns: usize, row: &[u8]) -> Result<Vec<Alignment>, AllocError>
    ensures { IfOk result (λ rule. rule.items ≡ alignments columns row.now) }
{
    let mut rule = Vec::new(alloc);
    let mut rest = row;
    let mut more = columns;
    while more > 0 {
        rule.push(alignment_of(cell_of(rest)))?;
        rest = after_cell(rest);
        more -= 1;
    }
    Ok(rule)
}
