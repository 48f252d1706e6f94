//! What is selected: copied, removed, replaced.

ghost use Rattle.std.specs.Prelude.{◌≡◌, ◌<◌, ◌≤◌, ◌+◌, ◌↔◌, false, length, chars, IfOk, OnOk, OnErr, IsTrue, string_bytes, encode_utf8_all, None};
ghost use Rattle.mad_edit.specs.Undo.{Removes};
ghost use Rattle.mad_edit_lines.specs.declared.position.Pos.{Pos};
ghost use Rattle.mad_edit.specs.Editor.{IsEditor, inserted, IsAt, IsCut, IsRemovedBelow, IsReplaced, IsSelectionReplaced, IsWide, selected, selection_start, selection_last, selection_end, below_start, below_end, SelectsAround};

use crate::content::InputFieldContent;
use mad_edit_lines::CharClass;
use std::alloc::AllocError;

impl InputFieldContent {
    /// The selected characters.
    ///
    /// # Errors
    ///
    /// Out of memory is the only error.
    pub fn selection_string(&self) -> Result<String, AllocError>
        ensures is { IfOk result (λ s. string_bytes s ≡ encode_utf8_all (selected self.now)) }
        ensures valid { IsEditor self.now }
    {
        let (start, end) = self.selected_span();
        self.copy_between(start, end)
    }

    /// A copy of the selected characters.
    ///
    /// # Errors
    ///
    /// Out of memory is the only error.
    pub fn copy_selection(&self) -> Result<String, AllocError>
        ensures { IfOk result (λ s. string_bytes s ≡ encode_utf8_all (selected self.now)) }
    {
        self.selection_string()
    }

    // Removes the selected characters, and puts the cursor there.
    fn remove_selected(&mut self) -> Result<(), AllocError>
        ensures ok { OnOk result (IsCut self.old self.new) }
        ensures err { OnErr result (self.new ≡ self.old) }
    {
        let (start, end) = self.selected_span();
        self.remove(start, end)?;
        self.unselect();
        Ok(())
    }

    /// Removes the selected characters where the selection is wide, else what `del_char_below` removes.
    /// Returns whether anything was removed.
    ///
    /// # Errors
    ///
    /// Out of memory is the only error, and leaves the editor unchanged.
    pub fn del_selection(&mut self) -> Result<bool, AllocError>
        ensures wide { IfOk result (λ b. IsWide self.old → IsCut self.old self.new × IsTrue b) }
        ensures done { IfOk result (λ b. selection_last self.old ≤ selection_start self.old → (IsTrue b ↔ (below_start self.old < below_end self.old))) }
        ensures removed { IfOk result (λ b. selection_last self.old ≤ selection_start self.old → IsTrue b
            → IsRemovedBelow self.old self.new) }
        ensures none { IfOk result (λ b. b ≡ false → self.new ≡ self.old) }
        ensures err { OnErr result (self.new ≡ self.old) }
    {
        if self.has_wide_selection() {
            self.remove_selected()?;
            return Ok(true);
        }
        self.del_char_below()
    }

    /// Hands out the selected characters and removes what `del_selection` removes. Inserting what a wide selection
    /// handed out gives back the text.
    ///
    /// # Errors
    ///
    /// Out of memory is the only error, and leaves the editor unchanged.
    pub fn cut_selection(&mut self) -> Result<String, AllocError>
        ensures handed { IfOk result (λ s. string_bytes s ≡ encode_utf8_all (selected self.old)) }
        ensures wide { OnOk result (IsWide self.old → IsCut self.old self.new) }
        ensures undone { IfOk result (λ s. IsWide self.old → inserted self.new (chars (string_bytes s)) ≡ self.old.text) }
        ensures removes { IfOk result (λ s. (p : Pos) → IsWide self.old → IsAt self.new.text self.new.offset p
            → Removes self.old.text (record { position = p; text = chars (string_bytes s) }) self.new.text) }
        ensures below { OnOk result (selection_last self.old ≤ selection_start self.old → below_start self.old < below_end self.old
            → IsRemovedBelow self.old self.new) }
        ensures nothing { OnOk result (selection_last self.old ≤ selection_start self.old → below_end self.old ≤ below_start self.old
            → self.new ≡ self.old) }
        ensures err { OnErr result (self.new ≡ self.old) }
    {
        let handed = self.selection_string()?;
        self.del_selection()?;
        Ok(handed)
    }

    /// Puts a text in place of a wide selection, or in at the cursor. Carriage returns and backspaces are left out.
    ///
    /// # Errors
    ///
    /// Out of memory is the only error, and leaves the editor unchanged.
    pub fn replace_selection(&mut self, text: &str) -> Result<(), AllocError>
        ensures wide { OnOk result (IsWide self.old → IsSelectionReplaced self.old self.new (chars text.now)) }
        ensures narrow { OnOk result (selection_last self.old ≤ selection_start self.old
            → IsReplaced self.old self.new self.old.offset self.old.offset (chars text.now)) }
        ensures err { OnErr result (self.new ≡ self.old) }
    {
        if !self.has_wide_selection() {
            return self.insert_str(text);
        }
        let (start, end) = self.selected_span();
        self.edit(start, end, text)?;
        self.unselect();
        Ok(())
    }

    // Selects the characters of a class around the cursor: the tail at the first, the cursor at the last.
    fn select_around(&mut self, class: CharClass) -> bool
        ensures { SelectsAround class self.old self.new result }
    {
        let after = class.count_front(self.rest_of_line());
        if after == 0 {
            return false;
        }
        let before = class.count_end(self.front_of_line());
        let first = self.position_back(before);
        let last = self.position_ahead(after - 1);
        self.put_tail(first);
        self.put_cursor(last);
        true
    }

    /// Selects the word around the cursor: letters, numbers and `_`. The tail is put at its first character, the
    /// cursor at its last. Returns whether the cursor is at a character of a word.
    pub fn select_word_around(&mut self) -> bool
        ensures { SelectsAround CharClass.Word self.old self.new result }
    {
        self.select_around(CharClass::Word)
    }

    /// Selects the characters around the cursor that are no whitespace, as `select_word_around` does a word.
    pub fn select_non_space_around(&mut self) -> bool
        ensures { SelectsAround CharClass.NonSpace self.old self.new result }
    {
        self.select_around(CharClass::NonSpace)
    }
}
