//! Positions among lines, and the text between two of them.

ghost use Rattle.std.specs.List.{swap};
ghost use Rattle.std.specs.Prelude.{◌≡◌, ◌<◌, ◌≤◌, ◌+◌, ◌↔◌, ℕ, List, [], ◌∷◌, IfSome, IsSome, IsTrue, Some, IfOk, length, take, drop, min, max, slice_get, slice_range, string_bytes, encode_utf8_all};
ghost use Rattle.mad_edit_lines.specs.TextLines.{IsPosition, lines_of, line_at, text_of, offset_of, end_of, clamp};

use crate::chars::Chars;
use crate::line::Line;
use crate::position::{Pos, Range};
use std::alloc::{AllocError, Global};

/// How many characters a line has. There has to be a line with this number, counted from 0.
pub fn line_len(lines: &[Line], y: usize) -> usize
    requires { y < length (lines_of lines.now) }
    ensures { result ≡ length (line_at (lines_of lines.now) y) }
{
    lines[y].chars.len()
}

/// How many lines there are.
pub fn line_count(lines: &[Line]) -> usize
    ensures { result ≡ length (lines_of lines.now) }
{
    lines.len()
}

/// The end of the text. There has to be a line.
pub fn end_position(lines: &[Line]) -> Pos
    requires { 0 < length lines.now }
    ensures is { result ≡ end_of (lines_of lines.now) }
    ensures position { IsPosition (lines_of lines.now) result }
    ensures last { offset_of (lines_of lines.now) result ≡ length (text_of (lines_of lines.now)) }
{
    let y = line_count(lines) - 1;
    Pos {
        y,
        x: line_len(lines, y),
    }
}

/// The position itself, or the nearest one on its line, or the end of the text. There has to be a line.
pub fn valid_pos(lines: &[Line], position: Pos) -> Pos
    requires { 0 < length lines.now }
    ensures is { result ≡ clamp (lines_of lines.now) position }
    ensures position { IsPosition (lines_of lines.now) result }
{
    if position.y < lines.len() {
        Pos {
            y: position.y,
            x: position.x.min(lines[position.y].chars.len()),
        }
    } else {
        end_position(lines)
    }
}

/// The next position, if this is not the end. `position` has to be a position of the lines.
pub fn position_after(lines: &[Line], position: Pos) -> Option<Pos>
    requires { IsPosition (lines_of lines.now) position }
    ensures position { IfSome result (λ q. IsPosition (lines_of lines.now) q) }
    ensures next { IfSome result (λ q. offset_of (lines_of lines.now) q ≡ offset_of (lines_of lines.now) position + 1) }
    ensures order { IfSome result (λ q. position.y ≤ q.y) }
    ensures at_end { IsSome result ↔ (offset_of (lines_of lines.now) position < length (text_of (lines_of lines.now))) }
{
    if position.x < line_len(lines, position.y) {
        Some(Pos {
            y: position.y,
            x: position.x + 1,
        })
    } else if position.y < line_count(lines) - 1 {
        Some(Pos {
            y: position.y + 1,
            x: 0,
        })
    } else {
        None
    }
}

/// The previous position, if this is not the start. `position` has to be a position of the lines.
pub fn position_before(lines: &[Line], position: Pos) -> Option<Pos>
    requires { IsPosition (lines_of lines.now) position }
    ensures position { IfSome result (λ q. IsPosition (lines_of lines.now) q) }
    ensures next { IfSome result (λ q. offset_of (lines_of lines.now) q + 1 ≡ offset_of (lines_of lines.now) position) }
    ensures order { IfSome result (λ q. q.y ≤ position.y) }
    ensures at_start { IsSome result ↔ (0 < offset_of (lines_of lines.now) position) }
{
    if position.x > 0 {
        Some(Pos {
            y: position.y,
            x: position.x - 1,
        })
    } else if position.y > 0 {
        let y = position.y - 1;
        Some(Pos {
            y,
            x: line_len(lines, y),
        })
    } else {
        None
    }
}

/// Two positions in their order.
pub fn in_order(one: Pos, other: Pos) -> Range
    ensures position { (ls : List (List ℕ)) → IsPosition ls one → IsPosition ls other → IsPosition ls result.min × IsPosition ls result.max }
    ensures min { (ls : List (List ℕ)) → IsPosition ls one → IsPosition ls other
        → offset_of ls result.min ≡ min (offset_of ls one) (offset_of ls other) }
    ensures max { (ls : List (List ℕ)) → IsPosition ls one → IsPosition ls other
        → offset_of ls result.max ≡ max (offset_of ls one) (offset_of ls other) }
    ensures order { result.min.y ≤ result.max.y }
{
    if other < one {
        Range {
            min: other,
            max: one,
        }
    } else {
        Range {
            min: one,
            max: other,
        }
    }
}

/// The position after a character: the next position, or the end. `position` has to be a position of the lines.
pub fn position_past(lines: &[Line], position: Pos) -> Pos
    requires { IsPosition (lines_of lines.now) position }
    ensures position { IsPosition (lines_of lines.now) result }
    ensures next { offset_of (lines_of lines.now) result
        ≡ min (offset_of (lines_of lines.now) position + 1) (length (text_of (lines_of lines.now))) }
    ensures order { position.y ≤ result.y }
{
    position_after(lines, position).unwrap_or(position)
}

/// The character at a position, if this is not the end. `position` has to be a position of the lines.
pub fn char_at(lines: &[Line], position: Pos) -> Option<char>
    requires { IsPosition (lines_of lines.now) position }
    ensures { result ≡ slice_get (text_of (lines_of lines.now)) (offset_of (lines_of lines.now) position) }
{
    if position.x < line_len(lines, position.y) {
        Some(lines[position.y].chars[position.x])
    } else if position.y < line_count(lines) - 1 {
        Some('\n')
    } else {
        None
    }
}

/// The character at a position, and the next position, if this is not the end. `position` has to be a position of the lines.
pub(crate) fn char_and_next(lines: &[Line], position: Pos) -> Option<(char, Pos)>
    requires { IsPosition (lines_of lines.now) position }
    ensures char { IfSome result (λ r. slice_get (text_of (lines_of lines.now)) (offset_of (lines_of lines.now) position) ≡ Some r.0) }
    ensures position { IfSome result (λ r. IsPosition (lines_of lines.now) r.1) }
    ensures next { IfSome result (λ r. offset_of (lines_of lines.now) r.1 ≡ offset_of (lines_of lines.now) position + 1) }
    ensures at_end { IsSome result ↔ (offset_of (lines_of lines.now) position < length (text_of (lines_of lines.now))) }
{
    let c = char_at(lines, position)?;
    let next = position_after(lines, position)?;
    Some((c, next))
}

/// Whether a position is before another.
pub fn is_before(position: Pos, other: Pos) -> bool
    ensures { (ls : List (List ℕ)) → IsPosition ls position → IsPosition ls other → (IsTrue result ↔ (offset_of ls position < offset_of ls other)) }
{
    position < other
}

/// The text between two positions; empty where `to` is before `from`. Both have to be positions of the lines.
///
/// # Errors
///
/// Out of memory is the only error.
pub fn text_between(alloc: Global, lines: &[Line], from: Pos, to: Pos) -> Result<String, AllocError>
    requires from { IsPosition (lines_of lines.now) from }
    requires to { IsPosition (lines_of lines.now) to }
    ensures { IfOk result (λ s. let ls = lines_of lines.now in
        string_bytes s ≡ encode_utf8_all (slice_range (text_of ls) (offset_of ls from) (offset_of ls to))) }
{
    let mut out = String::new(alloc);
    for c in Chars::new(lines, from, to) {
        out.push(c)?;
    }
    Ok(out)
}

fn front_of(line: &Line, x: usize) -> &[char]
    requires { x ≤ length line.now.chars.items }
    ensures { result.now ≡ take x line.now.chars.items }
{
    &line.chars.as_slice()[..x]
}

fn rest_of(line: &Line, x: usize) -> &[char]
    requires { x ≤ length line.now.chars.items }
    ensures { result.now ≡ drop x line.now.chars.items }
{
    &line.chars.as_slice()[x..]
}

/// The characters of a position's line before the position. `position` has to be a position of the lines.
pub fn front_at(lines: &[Line], position: Pos) -> &[char]
    requires { IsPosition (lines_of lines.now) position }
    ensures { result.now ≡ take position.x (line_at (lines_of lines.now) position.y) }
{
    front_of(&lines[position.y], position.x)
}

/// The characters of a position's line after the position. `position` has to be a position of the lines.
pub fn rest_at(lines: &[Line], position: Pos) -> &[char]
    requires { IsPosition (lines_of lines.now) position }
    ensures { result.now ≡ drop position.x (line_at (lines_of lines.now) position.y) }
{
    rest_of(&lines[position.y], position.x)
}

/// A copy of lines.
///
/// # Errors
///
/// Out of memory is the only error.
pub fn clone_lines(alloc: Global, lines: &[Line]) -> Result<Vec<Line>, AllocError>
    ensures { IfOk result (λ copy. lines_of copy.items ≡ lines_of lines.now) }
{
    let mut copy = Vec::with_capacity(alloc, lines.len())?;
    for line in lines {
        copy.push(line.try_clone(alloc)?)?;
    }
    Ok(copy)
}

/// Leaves one empty line. There has to be a line before.
pub fn clear_lines(lines: &mut Vec<Line>)
    requires { 0 < length lines.old.items }
    ensures { lines_of lines.new.items ≡ [] ∷ [] }
{
    lines.truncate(1);
    lines[0].chars.clear();
}

/// Two lines change places. There have to be lines with these numbers, counted from 0.
pub fn swap_lines(lines: &mut Vec<Line>, one: usize, other: usize)
    requires one { one < length lines.old.items }
    requires other { other < length lines.old.items }
    ensures { lines_of lines.new.items ≡ swap (lines_of lines.old.items) one other }
{
    lines.swap(one, other);
}

/// A line. There has to be one with this number, counted from 0.
pub fn line_at(lines: &[Line], y: usize) -> &Line
    requires { y < length (lines_of lines.now) }
    ensures { result.now.chars.items ≡ line_at (lines_of lines.now) y }
{
    &lines[y]
}
