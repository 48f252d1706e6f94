//! Edits of a list of lines.

ghost use Rattle.std.specs.Prelude.{◌≡◌, ◌≤◌, ◌+◌, ◌∷◌, [], ◌++◌, All, length, take, drop, chars, IfOk, OnOk, OnErr};
ghost use Rattle.mad_edit_lines.specs.TextLines.{IsPosition, IsLineText, AreLineTexts, lines_of, line_at, led_lines_with, text_of, accepted, offset_of};

use crate::line::Line;
use crate::position::Pos;
use crate::positions::{front_at, rest_at};
use std::alloc::{AllocError, Global};
use std::mem;

/// Puts lines in place of those from `from` up to `to`, counted from 0. `from` is at most `to`, and `to` at most the count of lines.
///
/// # Errors
///
/// Out of memory is the only error, and leaves the lines unchanged.
pub(crate) fn replace_lines(
    lines: &mut Vec<Line>,
    from: usize,
    to: usize,
    made: Vec<Line>,
) -> Result<(), AllocError>
    requires order { from ≤ to }
    requires within { to ≤ length lines.old.items }
    ensures ok { OnOk result (lines.new.items ≡ take from lines.old.items ++ (made.items ++ drop to lines.old.items)) }
    ensures err { OnErr result (lines.new.items ≡ lines.old.items) }
{
    drop(lines.splice(from..to, made)?);
    Ok(())
}

// One character more, at the end of the line that is being made. A newline ends that line.
fn add_char(
    alloc: Global,
    lines: &mut Vec<Line>,
    current: &mut Vec<char>,
    c: char,
) -> Result<(), AllocError>
    ensures text { OnOk result (led_lines_with (lines_of lines.new.items) current.new.items
        ≡ led_lines_with (lines_of lines.old.items) current.old.items ++ accepted (c ∷ [])) }
    ensures texts { OnOk result (AreLineTexts (lines_of lines.old.items) current.old.items
        → AreLineTexts (lines_of lines.new.items) current.new.items) }
{
    if c == '\n' {
        let chars = mem::replace(current, Vec::new(alloc));
        lines.push(Line { chars })?;
    } else if c != '\r' && c != '\u{8}' {
        current.push(c)?;
    }
    Ok(())
}

// Lines that were made of a text, and the position after the text.
#[derive(Drop)]
struct NewLines {
    lines: Vec<Line>,
    end: Pos,
}

// The lines of a text between the front and the back of a line.
fn lines_with_text(
    alloc: Global,
    front: &[char],
    text: &str,
    back: &[char],
) -> Result<NewLines, AllocError>
    requires front { IsLineText front.now }
    requires back { IsLineText back.now }
    ensures text { IfOk result (λ t. text_of (lines_of t.lines.items) ≡ front.now ++ (accepted (chars text.now) ++ back.now)) }
    ensures end { IfOk result (λ t. IsPosition (lines_of t.lines.items) t.end) }
    ensures ends_at { IfOk result (λ t. offset_of (lines_of t.lines.items) t.end ≡ length front.now + length (accepted (chars text.now))) }
    ensures texts { IfOk result (λ t. All IsLineText (lines_of t.lines.items)) }
{
    let mut lines = Vec::new(alloc);
    let mut current = front.to_vec(alloc)?;
    for c in text.chars() {
        add_char(alloc, &mut lines, &mut current, c)?;
    }
    let end = Pos {
        y: lines.len(),
        x: current.len(),
    };
    current.extend_from_slice(back)?;
    lines.push(Line { chars: current })?;
    Ok(NewLines { lines, end })
}

/// Puts a text in place of what is between two positions, and returns the position after it.
/// Carriage returns and backspaces are left out.
///
/// The line of `to` may not be above that of `from`. Where both are in one line and `to` is before `from`, what is between them is
/// doubled.
///
/// # Errors
///
/// Out of memory is the only error, and leaves the lines unchanged.
pub fn edit_lines(lines: &mut Vec<Line>, from: Pos, to: Pos, text: &str) -> Result<Pos, AllocError>
    requires from { IsPosition (lines_of lines.old.items) from }
    requires to { IsPosition (lines_of lines.old.items) to }
    requires order { from.y ≤ to.y }
    requires texts { All IsLineText (lines_of lines.old.items) }
    ensures text { OnOk result (let ls = lines_of lines.old.items in text_of (lines_of lines.new.items)
        ≡ take (offset_of ls from) (text_of ls) ++ (accepted (chars text.now) ++ drop (offset_of ls to) (text_of ls))) }
    ensures position { IfOk result (λ p. IsPosition (lines_of lines.new.items) p) }
    ensures at { IfOk result (λ p. offset_of (lines_of lines.new.items) p
        ≡ offset_of (lines_of lines.old.items) from + length (accepted (chars text.now))) }
    ensures texts { OnOk result (All IsLineText (lines_of lines.new.items)) }
    ensures err { OnErr result (lines_of lines.new.items ≡ lines_of lines.old.items) }
{
    let NewLines { lines: made, end } = lines_made(lines, from, to, text)?;
    replace_lines(lines, from.y, to.y + 1, made)?;
    Ok(Pos {
        y: from.y + end.y,
        x: end.x,
    })
}

// The lines that replace those from `from`'s to `to`'s, once the text is in place of what is between.
fn lines_made(lines: &Vec<Line>, from: Pos, to: Pos, text: &str) -> Result<NewLines, AllocError>
    requires from { IsPosition (lines_of lines.now.items) from }
    requires to { IsPosition (lines_of lines.now.items) to }
    requires texts { All IsLineText (lines_of lines.now.items) }
    ensures text { let ls = lines_of lines.now.items in IfOk result (λ t. text_of (lines_of t.lines.items)
        ≡ take from.x (line_at ls from.y) ++ (accepted (chars text.now) ++ drop to.x (line_at ls to.y))) }
    ensures end { IfOk result (λ t. IsPosition (lines_of t.lines.items) t.end) }
    ensures ends_at { IfOk result (λ t. offset_of (lines_of t.lines.items) t.end ≡ from.x + length (accepted (chars text.now))) }
    ensures texts { IfOk result (λ t. All IsLineText (lines_of t.lines.items)) }
{
    let front = front_at(lines, from);
    let back = rest_at(lines, to);
    lines_with_text(*lines.allocator(), front, text, back)
}
