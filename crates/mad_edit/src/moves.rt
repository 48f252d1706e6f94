//! Moves of the cursor. They take no memory and keep the tail.

ghost use Rattle.std.specs.Prelude.{◌≡◌, ◌<◌, ◌+◌, ◌-◌, ◌↔◌, length, min, IsTrue};
ghost use Rattle.std.specs.Bool.{OnTrue, OnFalse};
ghost use Rattle.mad_edit_lines.specs.TextLines.{lines};
ghost use Rattle.mad_edit.specs.Editor.{offset_at, clamp_in, front_of_line, rest_of_line, cursor_line, IsMovedToLine};
ghost use Rattle.mad_edit.specs.Words.{word_before, word_after};

use crate::content::InputFieldContent;
use crate::words::{word_after, word_before};
use mad_edit_lines::Pos;

impl InputFieldContent {
    /// Puts the cursor at the nearest position of the text.
    pub fn set_cursor_pos(&mut self, new_pos: Pos)
        ensures { self.new ≡ record self.old { offset = offset_at self.old.text (clamp_in self.old.text new_pos) } }
    {
        let position = self.make_valid_pos(new_pos);
        self.put_cursor(position);
    }

    /// Whether there is a character after the cursor.
    pub fn can_move_right(&self) -> bool
        ensures { IsTrue result ↔ (self.now.offset < length self.now.text) }
    {
        let at = self.cursor_pos();
        self.next_position(at).is_some()
    }

    /// Whether there is a character before the cursor.
    pub fn can_move_left(&self) -> bool
        ensures { IsTrue result ↔ (0 < self.now.offset) }
    {
        let at = self.cursor_pos();
        self.previous_position(at).is_some()
    }

    /// One character to the right. Returns whether there is one.
    pub fn move_right(&mut self) -> bool
        ensures can { IsTrue result ↔ (self.old.offset < length self.old.text) }
        ensures moved { OnTrue result (self.new ≡ record self.old { offset = self.old.offset + 1 }) }
        ensures none { OnFalse result (self.new ≡ self.old) }
    {
        let at = self.cursor_pos();
        match self.next_position(at) {
            Some(position) => {
                self.put_cursor(position);
                true
            }
            None => false,
        }
    }

    /// One character to the left. Returns whether there is one.
    pub fn move_left(&mut self) -> bool
        ensures can { IsTrue result ↔ (0 < self.old.offset) }
        ensures moved { self.new ≡ record self.old { offset = self.old.offset - 1 } }
    {
        let at = self.cursor_pos();
        match self.previous_position(at) {
            Some(position) => {
                self.put_cursor(position);
                true
            }
            None => false,
        }
    }

    /// To the end of the text. Returns whether the cursor was elsewhere.
    pub fn move_to_end(&mut self) -> bool
        ensures can { IsTrue result ↔ (self.old.offset < length self.old.text) }
        ensures moved { self.new ≡ record self.old { offset = length self.old.text } }
    {
        let moves = self.can_move_right();
        let end = self.end();
        self.put_cursor(end);
        moves
    }

    /// To the start of the text. Returns whether the cursor was elsewhere.
    pub fn move_to_start(&mut self) -> bool
        ensures can { IsTrue result ↔ (0 < self.old.offset) }
        ensures moved { self.new ≡ record self.old { offset = 0 } }
    {
        let moves = self.can_move_left();
        let start = self.start();
        self.put_cursor(start);
        moves
    }

    /// To the end of the line. Returns whether the cursor was elsewhere.
    pub fn move_to_line_end(&mut self) -> bool
        ensures can { IsTrue result ↔ (0 < length (rest_of_line self.old)) }
        ensures moved { self.new ≡ record self.old { offset = self.old.offset + length (rest_of_line self.old) } }
    {
        let count = self.rest_of_line().len();
        let position = self.position_ahead(count);
        self.put_cursor(position);
        count > 0
    }

    /// To the start of the line. Returns whether the cursor was elsewhere.
    pub fn move_to_line_start(&mut self) -> bool
        ensures can { IsTrue result ↔ (0 < length (front_of_line self.old)) }
        ensures moved { self.new ≡ record self.old { offset = self.old.offset - length (front_of_line self.old) } }
    {
        let count = self.front_of_line().len();
        let position = self.position_back(count);
        self.put_cursor(position);
        count > 0
    }

    /// A word to the left in the line: one step, and on to the line's start or past the last letter or number.
    /// Returns whether there is a step.
    pub fn move_word_left(&mut self) -> bool
        ensures can { IsTrue result ↔ (0 < length (front_of_line self.old)) }
        ensures moved { self.new ≡ record self.old { offset = self.old.offset - word_before (front_of_line self.old) } }
    {
        let count = word_before(self.front_of_line());
        let position = self.position_back(count);
        self.put_cursor(position);
        count > 0
    }

    /// A word to the right in the line: one step, and on while the character after the next one is a letter or number.
    /// Returns whether there is a step.
    pub fn move_word_right(&mut self) -> bool
        ensures can { IsTrue result ↔ (0 < length (rest_of_line self.old)) }
        ensures moved { self.new ≡ record self.old { offset = self.old.offset + word_after (rest_of_line self.old) } }
    {
        let count = word_after(self.rest_of_line());
        let position = self.position_ahead(count);
        self.put_cursor(position);
        count > 0
    }

    /// Some lines up in the same column, or to the first line. Returns whether there is a line above.
    pub fn move_lines_up(&mut self, count: usize) -> bool
        ensures can { IsTrue result ↔ (0 < cursor_line self.old) }
        ensures moved { OnTrue result (0 < count → IsMovedToLine self.old (cursor_line self.old - count) self.new) }
        ensures stays { count ≡ 0 → self.new ≡ self.old }
        ensures none { OnFalse result (self.new ≡ self.old) }
    {
        let Pos { y, .. } = self.cursor_pos();
        if y == 0 {
            return false;
        }
        if count > 0 {
            self.put_in_line(y.saturating_sub(count));
        }
        true
    }

    /// Some lines down in the same column, or to the last line. Returns whether there is a line below.
    pub fn move_lines_down(&mut self, count: usize) -> bool
        ensures can { IsTrue result ↔ (cursor_line self.old + 1 < length (lines self.old.text)) }
        ensures moved { OnTrue result (0 < count
            → IsMovedToLine self.old (min (cursor_line self.old + count) (length (lines self.old.text) - 1)) self.new) }
        ensures stays { count ≡ 0 → self.new ≡ self.old }
        ensures none { OnFalse result (self.new ≡ self.old) }
    {
        let Pos { y, .. } = self.cursor_pos();
        let last = self.line_count() - 1;
        if y >= last {
            return false;
        }
        if count > 0 {
            self.put_in_line(y + count.min(last - y));
        }
        true
    }

    /// One line up in the same column. Returns whether there is a line above.
    pub fn move_up(&mut self) -> bool
        ensures can { IsTrue result ↔ (0 < cursor_line self.old) }
        ensures moved { OnTrue result (IsMovedToLine self.old (cursor_line self.old - 1) self.new) }
        ensures none { OnFalse result (self.new ≡ self.old) }
    {
        self.move_lines_up(1)
    }

    /// One line down in the same column. Returns whether there is a line below.
    pub fn move_down(&mut self) -> bool
        ensures can { IsTrue result ↔ (cursor_line self.old + 1 < length (lines self.old.text)) }
        ensures moved { OnTrue result (IsMovedToLine self.old (cursor_line self.old + 1) self.new) }
        ensures none { OnFalse result (self.new ≡ self.old) }
    {
        self.move_lines_down(1)
    }
}
