//! Texts as a whole: made, replaced, and with lines that change places.

ghost use Rattle.std.specs.Prelude.{◌≡◌, ◌<◌, ◌-◌, ◌+◌, ◌↔◌, ◌≢◌, [], None, length, chars, IfOk, OnOk, OnErr, IsTrue};
ghost use Rattle.std.specs.Bool.{OnTrue, OnFalse};
ghost use Rattle.std.specs.List.{swap};
ghost use Rattle.mad_edit_lines.specs.TextLines.{lines, text_of, accepted};
ghost use Rattle.mad_edit.specs.Editor.{clamp_in, clamp_tail, offset_at, cursor_line, cursor_index};

use crate::content::{InputFieldContent, clamp_tail};
use mad_edit_lines::{Pos, clear_lines, line_count, swap_lines, valid_pos};
use std::alloc::{AllocError, Global};

impl InputFieldContent {
    /// A text, with the cursor at its end. Carriage returns and backspaces are left out.
    ///
    /// # Errors
    ///
    /// Out of memory is the only error.
    pub fn from(alloc: Global, text: &str) -> Result<InputFieldContent, AllocError>
        ensures text { IfOk result (λ e. e.text ≡ accepted (chars text.now)) }
        ensures cursor { IfOk result (λ e. e.offset ≡ length (accepted (chars text.now))) }
        ensures tail { IfOk result (λ e. e.tail ≡ None) }
    {
        let mut content = InputFieldContent::new(alloc)?;
        content.insert_str(text)?;
        Ok(content)
    }

    /// Puts a text in place of the whole one, with the cursor at its end and no tail. An equal text changes nothing.
    ///
    /// # Errors
    ///
    /// Out of memory is the only error, and leaves the editor unchanged.
    pub fn set_str(&mut self, text: &str) -> Result<(), AllocError>
        ensures same { OnOk result (self.old.text ≡ chars text.now → self.new ≡ self.old) }
        ensures text { OnOk result (self.old.text ≢ chars text.now → self.new.text ≡ accepted (chars text.now)) }
        ensures cursor { OnOk result (self.old.text ≢ chars text.now → self.new.offset ≡ length (accepted (chars text.now))) }
        ensures tail { OnOk result (self.old.text ≢ chars text.now → self.new.tail ≡ None) }
        ensures err { OnErr result (self.new ≡ self.old) }
    {
        if self.is_str(text) {
            return Ok(());
        }
        let alloc = *self.lines.allocator();
        let content = InputFieldContent::from(alloc, text)?;
        *self = content;
        Ok(())
    }

    /// Leaves an empty text. A tail stays, at its only position.
    pub fn clear(&mut self)
        ensures text { self.new.text ≡ [] }
        ensures cursor { self.new.offset ≡ 0 }
        ensures tail { self.new.tail ≡ clamp_tail [] self.old.tail }
    {
        clear_lines(&mut self.lines);
        self.pos = Pos { y: 0, x: 0 };
        self.selection_tail = clamp_tail(&self.lines, self.selection_tail);
    }

    /// Two lines, by their numbers from 0, change places. The cursor and the tail keep the numbers of their line and
    /// character as far as the text goes.
    /// Returns whether these are two lines of the text.
    pub fn swap_lines(&mut self, one: usize, other: usize) -> bool
        ensures done { IsTrue result ↔ ((one ≢ other) × (one < length (lines self.old.text)) × (other < length (lines self.old.text))) }
        ensures text { OnTrue result (self.new.text ≡ text_of (swap (lines self.old.text) one other)) }
        ensures cursor { OnTrue result (self.new.offset
            ≡ offset_at self.new.text (clamp_in self.new.text (record { y = cursor_line self.old; x = cursor_index self.old }))) }
        ensures tail { OnTrue result (self.new.tail ≡ clamp_tail self.new.text self.old.tail) }
        ensures none { OnFalse result (self.new ≡ self.old) }
    {
        let count = line_count(&self.lines);
        if one == other || one >= count || other >= count {
            return false;
        }
        swap_lines(&mut self.lines, one, other);
        self.pos = valid_pos(&self.lines, self.pos);
        self.selection_tail = clamp_tail(&self.lines, self.selection_tail);
        true
    }

    /// The cursor's line and the one above change places, and the cursor goes with its line.
    /// Returns whether there is a line above.
    pub fn move_current_line_up(&mut self) -> bool
        ensures done { IsTrue result ↔ (0 < cursor_line self.old) }
        ensures text { OnTrue result (self.new.text ≡ text_of (swap (lines self.old.text) (cursor_line self.old - 1) (cursor_line self.old))) }
        ensures cursor { OnTrue result (self.new.offset
            ≡ offset_at self.new.text (clamp_in self.new.text (record { y = cursor_line self.old - 1; x = cursor_index self.old }))) }
        ensures tail { OnTrue result (self.new.tail ≡ clamp_tail self.new.text self.old.tail) }
        ensures none { OnFalse result (self.new ≡ self.old) }
    {
        let Pos { y, x } = self.cursor_pos();
        if y == 0 {
            return false;
        }
        let swapped = self.swap_lines(y - 1, y);
        self.set_cursor_pos(Pos { y: y - 1, x });
        swapped
    }

    /// The cursor's line and the one below change places, and the cursor goes with its line.
    /// Returns whether there is a line below.
    pub fn move_current_line_down(&mut self) -> bool
        ensures done { IsTrue result ↔ (cursor_line self.old + 1 < length (lines self.old.text)) }
        ensures text { OnTrue result (self.new.text ≡ text_of (swap (lines self.old.text) (cursor_line self.old + 1) (cursor_line self.old))) }
        ensures cursor { OnTrue result (self.new.offset
            ≡ offset_at self.new.text (clamp_in self.new.text (record { y = cursor_line self.old + 1; x = cursor_index self.old }))) }
        ensures tail { OnTrue result (self.new.tail ≡ clamp_tail self.new.text self.old.tail) }
        ensures none { OnFalse result (self.new ≡ self.old) }
    {
        let Pos { y, x } = self.cursor_pos();
        let last = self.line_count() - 1;
        if y >= last {
            return false;
        }
        let swapped = self.swap_lines(y + 1, y);
        self.set_cursor_pos(Pos { y: y + 1, x });
        swapped
    }
}
