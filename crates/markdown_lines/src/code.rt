//! Lines of code.

ghost use Rattle.std.specs.Prelude.{◌≡◌, ℕ, ◌==◌, ◌++◌, ◌∷◌, [], false, IfOk, IsTrue, OnOk, get_or, map, chars, encode_utf8_all, string_bytes};
ghost use Rattle.markdown_marks.specs.Remaining.{remaining};
ghost use Rattle.markdown_lines.specs.Code.{spaces, expanded_char, next_column, expanded, code_text, code_line, code_lines};
ghost use Rattle.markdown_lines.specs.Shown.{shown};

use crate::lines::Lines;
use mad_md::CompositeStyle;
use markdown_inlines::plain::push_shown;
use markdown_inlines::printable::shown_char;
use markdown_marks::rest::Rest;
use memchr::memchr;
use std::alloc::{AllocError, Global};

fn push_spaces(text: &mut String, count: usize) -> Result<(), AllocError>
    ensures { OnOk result (string_bytes text.new ≡ string_bytes text.old ++ encode_utf8_all (spaces count)) }
{
    let mut more = count;
    while more > 0 {
        text.push(' ')?;
        more -= 1;
    }
    Ok(())
}

// Adds a character after so many columns, counted up to multiples of four, and says after how many the next one is.
fn push_expanded(text: &mut String, column: usize, c: char) -> Result<usize, AllocError>
    ensures value { OnOk result (string_bytes text.new ≡ string_bytes text.old ++ encode_utf8_all (expanded_char column c)) }
    ensures next { IfOk result (λ next. next ≡ next_column column c) }
{
    if c == '\t' {
        push_spaces(text, 4 - column % 4)?;
        return Ok(0);
    }
    text.push(shown_char(c))?;
    Ok(column % 4 + 1)
}

// Whether a text has no tabs.
fn is_without_tabs(text: &[u8]) -> bool
    ensures { IsTrue result → (k : ℕ) → (get_or text.now k 0 == 9) ≡ false }
{
    memchr(b'\t', text).is_none()
}

// Adds a text after so many columns. One without tabs needs no count of them.
fn push_text(shown: &mut String, column: usize, text: &str) -> Result<(), AllocError>
    ensures { OnOk result (string_bytes shown.new ≡ string_bytes shown.old ++ encode_utf8_all (expanded column (chars text.now))) }
{
    if is_without_tabs(text.as_bytes()) {
        push_shown(shown, text)?;
        return Ok(());
    }
    let mut at = column;
    let mut rest = text.chars();
    while let Some(c) = rest.next() {
        at = push_expanded(shown, at, c)?;
    }
    Ok(())
}

/// A line of code after so many columns, its tabs as spaces up to each fourth column of its own.
pub fn code_text(alloc: Global, column: usize, line: Rest<'_>) -> Result<String, AllocError>
    ensures { IfOk result (λ text. string_bytes text ≡ code_text column (remaining line.entry)) }
{
    let mut shown = String::with_capacity(alloc, line.bytes.len())?;
    push_spaces(&mut shown, column)?;
    push_spaces(&mut shown, line.pending)?;
    let text = String::from_utf8_lossy(alloc, line.bytes)?;
    push_text(&mut shown, line.pending, text.as_str())?;
    Ok(shown)
}

// Adds a line of code.
fn push_code(
    alloc: Global,
    lines: &mut Lines,
    column: usize,
    line: Rest<'_>,
) -> Result<(), AllocError>
    ensures { OnOk result (shown lines.new ≡ shown lines.old ++ code_line column (remaining line.entry) ∷ []) }
{
    if line.pending == 0 && line.bytes.is_empty() {
        return lines.push_empty(CompositeStyle::Code);
    }
    let text = code_text(alloc, column, line)?;
    lines.push_text(CompositeStyle::Code, text.as_str())
}

/// Adds lines of code.
#[tactic(auto, unfolding(crate::specs::Code::code_lines))]
pub fn push_code_lines(
    alloc: Global,
    lines: &mut Lines,
    column: u16,
    code: &[Rest<'_>],
) -> Result<(), AllocError>
    ensures { OnOk result (shown lines.new ≡ shown lines.old ++ code_lines column (map remaining code.now)) }
{
    let mut rest = code;
    while let [line, next @ ..] = rest {
        push_code(alloc, lines, usize::from(column), *line)?;
        rest = next;
    }
    Ok(())
}
