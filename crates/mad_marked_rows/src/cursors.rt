//! The marks of characters, one after the other.

ghost use Rattle.std.specs.Prelude.{◌≡◌, ◌+◌, IfOk, OnOk};
ghost use Rattle.std.specs.Prelude.{if◌then◌else◌};
ghost use Rattle.std.specs.Char.{is_whitespace};
ghost use Rattle.mad_marked_rows.specs.MarkedTexts.{mark_value, number_next, SameFrom};

use mad_mark_runs::{MarkRun, blank_value, next_start, value_at};
use std::alloc::AllocError;

/// Before a character: how many counted ones stand before it in the text, and the runs that it and those after it can have marks of.
#[derive(Clone, Copy)]
pub struct MarkCursor<'r> {
    /// The runs.
    pub runs: &'r [MarkRun],
    /// How many counted characters stand before it.
    pub number: usize,
}

impl MarkCursor<'_> {
    /// The mark of the next character, which is passed: that of its number, or of a blank that of the characters beside it, where both have the
    /// same.
    ///
    /// # Errors
    ///
    /// As out of memory, where the number is past `usize::MAX`.
    pub fn next(&mut self, c: char) -> Result<usize, AllocError>
        ensures value { IfOk result (λ value. value ≡ mark_value self.old.runs.now self.old.number c) }
        ensures number { OnOk result (self.new.number ≡ number_next self.old.number c) }
        ensures same { OnOk result (SameFrom self.old.runs.now self.new.runs.now self.new.number) }
    {
        if c.is_whitespace() {
            return Ok(blank_value(self.runs, self.number));
        }
        let value = value_at(self.runs, self.number);
        let Some(number) = self.number.checked_add(1) else {
            return Err(AllocError);
        };
        self.runs = next_start(self.runs, self.number);
        self.number = number;
        Ok(value)
    }

    /// Passes so many counted characters.
    ///
    /// # Errors
    ///
    /// As out of memory, where the number is past `usize::MAX`.
    pub fn pass(&mut self, count: usize) -> Result<(), AllocError>
        ensures number { OnOk result (self.new.number ≡ self.old.number + count) }
        ensures runs { self.new.runs ≡ self.old.runs }
    {
        let Some(number) = self.number.checked_add(count) else {
            return Err(AllocError);
        };
        self.number = number;
        Ok(())
    }
}
