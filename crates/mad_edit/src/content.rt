//! The editor's text and its positions. Only this module and its own see how the text is kept.

ghost use Rattle.std.specs.Prelude.{◌≡◌, ◌<◌, ◌≤◌, ◌+◌, ◌-◌, ◌↔◌, [], None, Some, length, chars, min, max, option_map, IfOk, IfSome, IsSome, OnOk, OnErr, IsTrue, string_bytes, encode_utf8_all, slice_range};
ghost use Rattle.std.specs.Option.{ForSome};
ghost use Rattle.mad_edit_lines.specs.TextLines.{lines, lines_of, accepted, clamp, IsPosition};
ghost use Rattle.mad_edit.specs.Editor.{IsPositionIn, offset_at, IsAt, clamp_in, clamp_tail, replaced, cursor_line, cursor_index, front_of_line, rest_of_line, IsEditor, IsWide, IsMovedToLine, selection_start, selection_last, selection_end};

mod comparing;
mod reading;
mod rewriting;
mod showing;
mod undo;

use mad_edit_lines::{
    Line, Pos, Range, clone_lines, columns, edit_lines, end_position, front_at, in_order,
    index_at_column, is_before, line_count, line_len, position_after, position_before,
    position_past, rest_at, text_between, valid_pos,
};
use std::alloc::{AllocError, Global};
use std::marker::Model;

/// One text without carriage returns and backspaces, a cursor in it, and an optional tail:
/// the other end of a selection.
#[derive(Debug, Drop)]
pub struct InputFieldContent {
    lines: Vec<Line>,
    pos: Pos,
    selection_tail: Option<Pos>,
}

impl Model for InputFieldContent {
    ghost use Rattle.mad_edit.specs.Editor.{Editor, IsValid};
    ghost use Rattle.mad_edit_lines.specs.TextLines.{lines_of, text_of, offset_of};

    ghost Value = { Editor };

    ghost view = { λ a. record { text = text_of (lines_of a.lines.items); offset = offset_of (lines_of a.lines.items) a.pos; tail = a.selection_tail } };

    ghost invariant = { λ a. IsValid (lines_of a.lines.items) a.pos a.selection_tail };
}

// A tail at the nearest position of these lines.
fn clamp_tail(lines: &[Line], tail: Option<Pos>) -> Option<Pos>
    requires { 0 < length lines.now }
    ensures is { result ≡ option_map (clamp (lines_of lines.now)) tail }
    ensures position { ForSome result (IsPosition (lines_of lines.now)) }
{
    tail.map(|tail| valid_pos(lines, tail))
}

impl InputFieldContent {
    /// An empty text.
    ///
    /// # Errors
    ///
    /// Out of memory is the only error.
    pub fn new(alloc: Global) -> Result<InputFieldContent, AllocError>
        ensures { IfOk result (λ e. e ≡ record { text = []; offset = 0; tail = None }) }
    {
        let mut lines = Vec::new(alloc);
        lines.push(Line::new(alloc))?;
        Ok(InputFieldContent {
            lines,
            pos: Pos { y: 0, x: 0 },
            selection_tail: None,
        })
    }

    /// The position of the cursor.
    pub fn cursor_pos(&self) -> Pos
        ensures at { IsAt self.now.text self.now.offset result }
        ensures line { result.y ≡ cursor_line self.now }
        ensures index { result.x ≡ cursor_index self.now }
        ensures valid { IsEditor self.now }
    {
        // Read so that the invariant of the lines is at hand.
        let _ = &self.lines;
        self.pos
    }

    /// Puts a text in place of what is between two positions, and the cursor after it.
    pub(crate) fn edit(&mut self, from: Pos, to: Pos, text: &str) -> Result<(), AllocError>
        requires from { IsPositionIn self.old.text from }
        requires to { IsPositionIn self.old.text to }
        requires order { offset_at self.old.text from ≤ offset_at self.old.text to }
        ensures text { OnOk result (self.new.text
            ≡ replaced self.old.text (offset_at self.old.text from) (offset_at self.old.text to) (chars text.now)) }
        ensures cursor { OnOk result (self.new.offset ≡ offset_at self.old.text from + length (accepted (chars text.now))) }
        ensures tail { OnOk result (self.new.tail ≡ clamp_tail self.new.text self.old.tail) }
        ensures err { OnErr result (self.new ≡ self.old) }
    {
        let pos = edit_lines(&mut self.lines, from, to, text)?;
        self.pos = pos;
        self.selection_tail = clamp_tail(&self.lines, self.selection_tail);
        Ok(())
    }

    /// Puts the cursor at a position of the text.
    pub(crate) fn put_cursor(&mut self, position: Pos)
        requires { IsPositionIn self.old.text position }
        ensures { self.new ≡ record self.old { offset = offset_at self.old.text position } }
    {
        // Read so that the invariant of the lines is at hand.
        let _ = &self.lines;
        self.pos = position;
    }

    /// The position after this one, if this isn't the end.
    pub(crate) fn next_position(&self, position: Pos) -> Option<Pos>
        requires { IsPositionIn self.now.text position }
        ensures position { IfSome result (λ q. IsPositionIn self.now.text q) }
        ensures next { IfSome result (λ q. offset_at self.now.text q ≡ offset_at self.now.text position + 1) }
        ensures at_end { IsSome result ↔ (offset_at self.now.text position < length self.now.text) }
    {
        position_after(&self.lines, position)
    }

    /// The position before this one, if this isn't the start.
    pub(crate) fn previous_position(&self, position: Pos) -> Option<Pos>
        requires { IsPositionIn self.now.text position }
        ensures position { IfSome result (λ q. IsPositionIn self.now.text q) }
        ensures next { IfSome result (λ q. offset_at self.now.text q + 1 ≡ offset_at self.now.text position) }
        ensures at_start { IsSome result ↔ (0 < offset_at self.now.text position) }
    {
        position_before(&self.lines, position)
    }

    /// The position after the character at a position, or the end.
    pub(crate) fn position_past_char(&self, position: Pos) -> Pos
        requires { IsPositionIn self.now.text position }
        ensures next { IsAt self.now.text (min (offset_at self.now.text position + 1) (length self.now.text)) result }
    {
        position_past(&self.lines, position)
    }

    /// The characters of the cursor's line before the cursor.
    pub(crate) fn front_of_line(&self) -> &[char]
        ensures { result.now ≡ front_of_line self.now }
    {
        front_at(&self.lines, self.pos)
    }

    /// The characters of the cursor's line after the cursor.
    pub(crate) fn rest_of_line(&self) -> &[char]
        ensures { result.now ≡ rest_of_line self.now }
    {
        rest_at(&self.lines, self.pos)
    }

    /// The position some characters before the cursor in its line.
    pub(crate) fn position_back(&self, count: usize) -> Pos
        requires { count ≤ length (front_of_line self.now) }
        ensures { IsAt self.now.text (self.now.offset - count) result }
    {
        Pos {
            y: self.pos.y,
            x: self.pos.x - count,
        }
    }

    /// The position some characters after the cursor in its line.
    pub(crate) fn position_ahead(&self, count: usize) -> Pos
        requires { count ≤ length (rest_of_line self.now) }
        ensures { IsAt self.now.text (self.now.offset + count) result }
    {
        let room = line_len(&self.lines, self.pos.y) - self.pos.x;
        prove!(count <= room);
        Pos {
            y: self.pos.y,
            x: self.pos.x + count,
        }
    }

    /// The selection: its lesser position and its greater one, whose character is selected too.
    pub fn selection(&self) -> Range
        ensures min { IsAt self.now.text (selection_start self.now) result.min }
        ensures max { IsAt self.now.text (selection_last self.now) result.max }
        ensures valid { IsEditor self.now }
    {
        match self.selection_tail {
            Some(tail) => in_order(self.pos, tail),
            None => Range {
                min: self.pos,
                max: self.pos,
            },
        }
    }

    /// Whether the tail is elsewhere than the cursor.
    pub fn has_wide_selection(&self) -> bool
        ensures { IsTrue result ↔ IsWide self.now }
    {
        // Read so that the invariant of the lines is at hand.
        let _ = &self.lines;
        let Range { min, max } = self.selection();
        is_before(min, max)
    }

    /// The position of the first selected character, and the one past the last.
    pub(crate) fn selected_span(&self) -> (Pos, Pos)
        ensures start { IsAt self.now.text (selection_start self.now) result.0 }
        ensures end { IsAt self.now.text (selection_end self.now) result.1 }
        ensures valid { IsEditor self.now }
    {
        let Range { min, max } = self.selection();
        (min, self.position_past_char(max))
    }

    /// The text between two positions.
    pub(crate) fn copy_between(&self, from: Pos, to: Pos) -> Result<String, AllocError>
        requires from { IsPositionIn self.now.text from }
        requires to { IsPositionIn self.now.text to }
        ensures { IfOk result (λ s. string_bytes s
            ≡ encode_utf8_all (slice_range self.now.text (offset_at self.now.text from) (offset_at self.now.text to))) }
    {
        text_between(*self.lines.allocator(), &self.lines, from, to)
    }

    /// The nearest position of the text: the position itself, or its line's end, or the text's end.
    pub fn make_valid_pos(&self, pos: Pos) -> Pos
        ensures position { IsPositionIn self.now.text result }
        ensures nearest { result ≡ clamp_in self.now.text pos }
    {
        valid_pos(&self.lines, pos)
    }

    /// The end of the text.
    pub fn end(&self) -> Pos
        ensures { IsAt self.now.text (length self.now.text) result }
    {
        end_position(&self.lines)
    }

    /// A copy of the text, the cursor and the tail.
    ///
    /// # Errors
    ///
    /// Out of memory is the only error.
    pub fn try_clone(&self, alloc: Global) -> Result<InputFieldContent, AllocError>
        ensures { IfOk result (λ copy. copy ≡ self.now) }
    {
        let lines = clone_lines(alloc, &self.lines)?;
        Ok(InputFieldContent {
            lines,
            pos: self.pos,
            selection_tail: self.selection_tail,
        })
    }

    /// How many lines there are.
    pub fn line_count(&self) -> usize
        ensures { result ≡ length (lines self.now.text) }
    {
        line_count(&self.lines)
    }

    /// Puts the cursor in a line, at its column.
    pub(crate) fn put_in_line(&mut self, y: usize)
        requires { y < length (lines self.old.text) }
        ensures { IsMovedToLine self.old y self.new }
    {
        let column = columns(front_at(&self.lines, self.pos));
        let x = index_at_column(rest_at(&self.lines, Pos { y, x: 0 }), column);
        self.pos = Pos { y, x };
    }

    /// The start of the text.
    pub(crate) fn start(&self) -> Pos
        ensures { IsAt self.now.text 0 result }
    {
        // Read so that the invariant of the lines is at hand.
        let _ = &self.lines;
        Pos { y: 0, x: 0 }
    }

    /// Begins a selection at the cursor where there is none.
    pub fn make_selection(&mut self)
        ensures text { self.new.text ≡ self.old.text }
        ensures cursor { self.new.offset ≡ self.old.offset }
        ensures made { self.old.tail ≡ None → IfSome self.new.tail (λ p. IsAt self.old.text self.old.offset p) }
        ensures some { IsSome self.new.tail }
        ensures kept { IsSome self.old.tail → self.new.tail ≡ self.old.tail }
    {
        if self.selection_tail.is_none() {
            self.selection_tail = Some(self.pos);
        }
    }

    /// Drops the selection.
    pub fn unselect(&mut self)
        ensures { self.new ≡ record self.old { tail = None } }
    {
        self.selection_tail = None;
    }

    /// Puts the tail at the nearest position of the text.
    pub fn set_selection_tail(&mut self, tail: Pos)
        ensures { self.new ≡ record self.old { tail = Some (clamp_in self.old.text tail) } }
    {
        self.selection_tail = Some(valid_pos(&self.lines, tail));
    }

    /// Puts the tail at a position of the text.
    pub(crate) fn put_tail(&mut self, position: Pos)
        requires { IsPositionIn self.old.text position }
        ensures { self.new ≡ record self.old { tail = Some position } }
    {
        // Read so that the invariant of the lines is at hand.
        let _ = &self.lines;
        self.selection_tail = Some(position);
    }

    /// Whether there is a tail.
    pub fn has_selection(&self) -> bool
        ensures { IsTrue result ↔ IsSome self.now.tail }
    {
        self.selection_tail.is_some()
    }
}
