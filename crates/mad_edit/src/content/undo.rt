//! Undoing cuts.

ghost use Rattle.std.specs.Prelude.{◌≡◌, ℕ, List, All, map, OnOk, OnErr};
ghost use Rattle.mad_edit_lines.specs.TextLines.{IsAcceptedChar};
ghost use Rattle.mad_edit.specs.Undo.{LeadsTo, all_undone, cut_of};

use crate::content::InputFieldContent;
use mad_edit_lines::Pos;
use std::alloc::AllocError;

impl InputFieldContent {
    /// Undoes cuts, the last one first: each text is put in at its position again, or at the nearest one, and the cursor after
    /// it. If the list of cuts led from an editor's text to the one that is there now, that text is there again.
    ///
    /// # Errors
    ///
    /// Out of memory is the only error, and leaves the editor unchanged.
    pub fn undo_cuts(&mut self, cuts: &[(Pos, &str)]) -> Result<(), AllocError>
        ensures undone { OnOk result ((first : List ℕ) → All IsAcceptedChar first
            → LeadsTo first (map cut_of cuts.now) self.old.text → self.new.text ≡ first) }
        ensures editor { OnOk result (self.new ≡ all_undone (map cut_of cuts.now) self.old) }
        ensures err { OnErr result (self.new ≡ self.old) }
    {
        let alloc = *self.lines.allocator();
        let mut undone = self.try_clone(alloc)?;
        let mut left = cuts.len();
        'cuts: while left > 0 {
            left -= 1;
            let (position, text) = cuts[left];
            undone.set_cursor_pos(position);
            undone.insert_str(text)?;
        }
        *self = undone;
        Ok(())
    }
}
