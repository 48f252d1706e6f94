//! Edits at the cursor.

ghost use Rattle.std.specs.Prelude.{◌≡◌, ◌<◌, ◌≤◌, ◌+◌, ◌-◌, ◌↔◌, ◌⊎◌, [], ◌∷◌, ◌++◌, false, length, chars, IfOk, OnOk, OnErr, IsTrue};
ghost use Rattle.mad_edit_lines.specs.TextLines.{accepted};
ghost use Rattle.mad_edit.specs.Editor.{IsPositionIn, offset_at, IsReplaced, IsRemoved, IsRemovedBelow, IsWordRemoved, below_start, below_end, front_of_line, rest_of_line, after_word_removed};
ghost use Rattle.mad_edit.specs.Words.{word_before};

use crate::content::InputFieldContent;
use crate::words::word_before;
use mad_edit_lines::{CharClass, Pos};
use std::alloc::AllocError;

impl InputFieldContent {
    /// Puts a text in at the cursor, and the cursor after it. Carriage returns and backspaces are left out.
    ///
    /// # Errors
    ///
    /// Out of memory is the only error, and leaves the editor unchanged.
    pub fn insert_str(&mut self, text: &str) -> Result<(), AllocError>
        ensures ok { OnOk result (IsReplaced self.old self.new self.old.offset self.old.offset (chars text.now)) }
        ensures err { OnErr result (self.new ≡ self.old) }
    {
        let at = self.cursor_pos();
        self.edit(at, at, text)
    }

    /// Puts a character in at the cursor, and the cursor after it. A carriage return or a backspace is left out.
    ///
    /// # Errors
    ///
    /// Out of memory is the only error, and leaves the editor unchanged.
    pub fn insert_char(&mut self, c: char) -> Result<(), AllocError>
        ensures ok { OnOk result (IsReplaced self.old self.new self.old.offset self.old.offset (c ∷ [])) }
        ensures err { OnErr result (self.new ≡ self.old) }
    {
        let mut buffer = [0; 4];
        let text = c.encode_utf8(&mut buffer);
        self.insert_str(text)
    }

    /// Puts a newline in at the cursor, and the cursor after it.
    ///
    /// # Errors
    ///
    /// Out of memory is the only error, and leaves the editor unchanged.
    pub fn insert_new_line(&mut self) -> Result<(), AllocError>
        ensures ok { OnOk result (IsReplaced self.old self.new self.old.offset self.old.offset (10 ∷ [])) }
        ensures err { OnErr result (self.new ≡ self.old) }
    {
        self.insert_str("\n")
    }

    /// Puts a character in at the end of the text. The cursor and the tail stay.
    /// A carriage return or a backspace is left out.
    ///
    /// # Errors
    ///
    /// Out of memory is the only error, and leaves the editor unchanged.
    pub fn push_char(&mut self, c: char) -> Result<(), AllocError>
        ensures text { OnOk result (self.new.text ≡ self.old.text ++ accepted (c ∷ [])) }
        ensures cursor { OnOk result (self.new.offset ≡ self.old.offset) }
        ensures tail { OnOk result (self.new.tail ≡ self.old.tail) }
        ensures err { OnErr result (self.new ≡ self.old) }
    {
        let at = self.cursor_pos();
        let last = self.end();
        let mut buffer = [0; 4];
        let text = c.encode_utf8(&mut buffer);
        self.edit(last, last, text)?;
        self.put_cursor(at);
        Ok(())
    }

    /// Removes what is between two positions, and puts the cursor there.
    pub(crate) fn remove(&mut self, from: Pos, to: Pos) -> Result<(), AllocError>
        requires from { IsPositionIn self.old.text from }
        requires to { IsPositionIn self.old.text to }
        requires order { offset_at self.old.text from ≤ offset_at self.old.text to }
        ensures ok { OnOk result (IsRemoved self.old self.new (offset_at self.old.text from) (offset_at self.old.text to)) }
        ensures err { OnErr result (self.new ≡ self.old) }
    {
        self.edit(from, to, "")?;
        Ok(())
    }

    /// Removes the character before the cursor. Returns whether there is one.
    ///
    /// # Errors
    ///
    /// Out of memory is the only error, and leaves the editor unchanged.
    pub fn del_char_left(&mut self) -> Result<bool, AllocError>
        ensures done { IfOk result (λ b. IsTrue b ↔ (0 < self.old.offset)) }
        ensures removed { IfOk result (λ b. IsTrue b → IsRemoved self.old self.new (self.old.offset - 1) self.old.offset) }
        ensures none { IfOk result (λ b. b ≡ false → self.new ≡ self.old) }
        ensures err { OnErr result (self.new ≡ self.old) }
    {
        let at = self.cursor_pos();
        match self.previous_position(at) {
            Some(from) => {
                self.remove(from, at)?;
                Ok(true)
            }
            None => Ok(false),
        }
    }

    /// Removes the character at the cursor, or the newline at a line's end. At the end of the text it removes
    /// the last line if that is empty and not the only one. Returns whether anything was removed.
    ///
    /// # Errors
    ///
    /// Out of memory is the only error, and leaves the editor unchanged.
    pub fn del_char_below(&mut self) -> Result<bool, AllocError>
        ensures done { IfOk result (λ b. IsTrue b ↔ (below_start self.old < below_end self.old)) }
        ensures removed { IfOk result (λ b. IsTrue b → IsRemovedBelow self.old self.new) }
        ensures none { IfOk result (λ b. b ≡ false → self.new ≡ self.old) }
        ensures err { OnErr result (self.new ≡ self.old) }
    {
        let at = self.cursor_pos();
        if let Some(to) = self.next_position(at) {
            self.remove(at, to)?;
            return Ok(true);
        }
        if !self.front_of_line().is_empty() {
            return Ok(false);
        }
        self.del_char_left()
    }

    /// Removes the word before the cursor in its line: what a move by a word goes over. Returns whether there is a step.
    ///
    /// # Errors
    ///
    /// Out of memory is the only error, and leaves the editor unchanged.
    pub fn del_word_left(&mut self) -> Result<bool, AllocError>
        ensures done { IfOk result (λ b. IsTrue b ↔ (0 < length (front_of_line self.old))) }
        ensures removed { IfOk result (λ b. IsTrue b →
            IsRemoved self.old self.new (self.old.offset - word_before (front_of_line self.old)) self.old.offset) }
        ensures none { IfOk result (λ b. b ≡ false → self.new ≡ self.old) }
        ensures err { OnErr result (self.new ≡ self.old) }
    {
        let count = word_before(self.front_of_line());
        if count == 0 {
            return Ok(false);
        }
        let at = self.cursor_pos();
        let from = self.position_back(count);
        self.remove(from, at)?;
        Ok(true)
    }

    /// Removes letters and numbers after the cursor in its line, and the first other character. Where they reach the
    /// line's end, or where the cursor is there, the cursor goes one step back in its line.
    /// Returns whether anything was done.
    ///
    /// # Errors
    ///
    /// Out of memory is the only error, and leaves the editor unchanged.
    pub fn del_word_right(&mut self) -> Result<bool, AllocError>
        ensures done { IfOk result (λ b. IsTrue b ↔ ((0 < length (front_of_line self.old)) ⊎ (0 < length (rest_of_line self.old)))) }
        ensures removed { OnOk result (0 < length (rest_of_line self.old) → IsWordRemoved self.old self.new) }
        ensures stepped { OnOk result (length (rest_of_line self.old) ≡ 0 → (self.new.text ≡ self.old.text) × (self.new.tail ≡ self.old.tail)) }
        ensures cursor { OnOk result (self.new.offset ≡ after_word_removed self.old) }
        ensures err { OnErr result (self.new ≡ self.old) }
    {
        let front = self.front_of_line().len();
        let rest = self.rest_of_line().len();
        let word = CharClass::Alphanumeric.count_front(self.rest_of_line());
        if rest > 0 {
            let at = self.cursor_pos();
            let count = (word + 1).min(rest);
            let to = self.position_ahead(count);
            self.remove(at, to)?;
        }
        if word == rest && front > 0 {
            self.move_left();
        }
        Ok(front > 0 || rest > 0)
    }
}
