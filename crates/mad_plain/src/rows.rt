//! Rows of a line: wrapped at a width, or cut at the edges of so many columns.

ghost use Rattle.std.specs.Prelude.{◌≡◌, ◌++◌, ◌+◌, ◌-◌, ◌<◌, ◌^◌, ◌==◌, ◌∷◌, [], nat_lt, min, take, drop, chars, IfOk, OnOk};
ghost use Rattle.mad_characters.specs.Columns.{char_columns};
ghost use Rattle.mad_plain.specs.Runs.{said, styled};
ghost use Rattle.mad_plain.specs.Rows.{columns_of, row_ends, is_inside, part_shown, window, sign_style, sign_if, one_if, goes_left, goes_right, cut_row};
ghost use Rattle.mad_plain.specs.Shown.{rest_of, shown_of, shown_so_far};

use crate::fronts::cut_first;
use crate::pens::{Pen, plain_pen};
use crate::shown::{PlainLine, ShownLine};
use crate::styled::StyledChars;
use mad_characters::char_columns;
use std::alloc::{AllocError, Global};

/// At how many characters each row of a text ends that is wrapped at a width. A row has as many characters as fit, one at least.
///
/// # Errors
///
/// Out of memory is the only error.
pub fn row_ends(alloc: Global, text: &str, width: usize) -> Result<Vec<usize>, AllocError>
    ensures { IfOk result (λ ends. ends.items ≡ row_ends width (chars text.now)) }
{
    let mut ends = Vec::new(alloc);
    let Some((first, behind)) = cut_first(text) else {
        ends.push(0)?;
        return Ok(ends);
    };
    let mut at: usize = 1;
    let mut left = width.saturating_sub(char_columns(first));
    let mut rest = behind;
    while let Some((c, next)) = cut_first(rest) {
        rest = next;
        let columns = char_columns(c);
        if columns <= left {
            left -= columns;
        } else {
            ends.push(at)?;
            left = width.saturating_sub(columns);
        }
        at += 1;
    }
    ends.push(at)?;
    Ok(ends)
}

// How many columns a text has, if they are no more than so many; else more.
fn columns_up_to(text: &str, most: usize) -> usize
    requires { most < 2 ^ 63 }
    ensures { min result (most + 1) ≡ min (columns_of (chars text.now)) (most + 1) }
{
    let mut columns: usize = 0;
    let mut rest = text;
    while columns <= most {
        let Some((c, next)) = cut_first(rest) else {
            return columns;
        };
        columns += char_columns(c);
        rest = next;
    }
    columns
}

fn is_inside(a: usize, b: usize, at: usize, columns: usize) -> bool
    requires { at + columns < 2 ^ 64 }
    ensures { result ≡ is_inside a b at columns }
{
    if columns == 0 {
        (a < at || a == 0) && at <= b
    } else {
        a <= at && at + columns <= b
    }
}

fn sign_style() -> Pen
    ensures { result ≡ sign_style }
{
    Pen {
        reversed: true,
        ..plain_pen()
    }
}

fn push_sign(shown: &mut ShownLine, there: bool, sign: char) -> Result<(), AllocError>
    ensures { OnOk result (shown_so_far shown.new ≡ shown_so_far shown.old ++ sign_if there sign) }
{
    if there {
        shown.push(sign_style(), sign)
    } else {
        Ok(())
    }
}

// What is shown of a character that begins in column `at`.
fn push_part(
    shown: &mut ShownLine,
    a: usize,
    b: usize,
    at: usize,
    style: Pen,
    c: char,
) -> Result<(), AllocError>
    requires { at + char_columns c < 2 ^ 64 }
    ensures { OnOk result (shown_so_far shown.new ≡ shown_so_far shown.old ++ part_shown a b at (styled style c)) }
{
    let columns = char_columns(c);
    if is_inside(a, b, at, columns) {
        shown.push(style, c)
    } else {
        shown.push_blanks(style, b.min(at + columns).saturating_sub(a.max(at)))
    }
}

// What is shown of a line's columns from a up to b.
fn push_window(
    shown: &mut ShownLine,
    line: &PlainLine<'_>,
    a: usize,
    b: usize,
) -> Result<(), AllocError>
    requires { b < 2 ^ 63 }
    ensures { OnOk result (shown_so_far shown.new ≡ shown_so_far shown.old ++ window a b 0 (shown_of line.now)) }
{
    let mut rest = line.chars();
    let mut at: usize = 0;
    while at <= b {
        let Some((style, c)) = rest.next() else {
            return Ok(());
        };
        push_part(shown, a, b, at, style, c)?;
        at += char_columns(c);
    }
    Ok(())
}

fn goes_left(total: usize, moved: usize, width: usize) -> bool
    ensures { result ≡ goes_left total moved width }
{
    moved > 0 && total > 0 && width > 1
}

fn goes_right(total: usize, moved: usize, width: usize) -> bool
    requires { moved + width < 2 ^ 63 }
    ensures { result ≡ goes_right total moved width }
{
    total > moved + width && width > 0
}

fn one_if(there: bool) -> usize
    ensures { result ≡ one_if there }
{
    if there { 1 } else { 0 }
}

/// A line's row of so many columns, moved by some: with a sign where the line goes on.
///
/// # Errors
///
/// Out of memory is the only error.
pub fn cut_row(
    alloc: Global,
    line: &PlainLine<'_>,
    moved: usize,
    width: usize,
) -> Result<PlainLine<'static>, AllocError>
    requires { moved + width < 2 ^ 63 }
    ensures { IfOk result (λ row. shown_of row ≡ cut_row moved width (shown_of line.now)) }
{
    let total = columns_up_to(line.text.as_str(), moved + width);
    let left = goes_left(total, moved, width);
    let right = goes_right(total, moved, width);
    let from = moved + one_if(left);
    let to = (moved + width).saturating_sub(one_if(right));
    let mut shown = ShownLine::new(alloc, width)?;
    push_sign(&mut shown, left, '<')?;
    push_window(&mut shown, line, from, to)?;
    push_sign(&mut shown, right, '>')?;
    let row = shown.end()?;
    Ok(row)
}

/// So many of the characters that are left of a line, in their styles: those of a row, where the rows before it were taken.
///
/// # Errors
///
/// Out of memory is the only error. How many characters are left then is open.
pub fn take_part(
    alloc: Global,
    rest: &mut StyledChars<'_>,
    count: usize,
) -> Result<PlainLine<'static>, AllocError>
    ensures part { IfOk result (λ part. shown_of part ≡ take count (rest_of rest.old)) }
    ensures left { OnOk result (rest_of rest.new ≡ drop count (rest_of rest.old)) }
{
    let mut shown = ShownLine::new(alloc, count)?;
    let mut at: usize = 0;
    while at < count {
        let Some((style, c)) = rest.next() else {
            let part = shown.end()?;
            return Ok(part);
        };
        shown.push(style, c)?;
        at += 1;
    }
    let part = shown.end()?;
    Ok(part)
}
