//! The characters between two positions, one after another.

ghost use Rattle.std.specs.Prelude.{◌≡◌, slice_range};
ghost use Rattle.std.specs.Iterator.{YieldsFirst, item_count};
ghost use Rattle.mad_edit_lines.specs.TextLines.{IsPosition, lines_of, text_of, offset_of};

use crate::line::Line;
use crate::position::Pos;
use crate::positions::{char_and_next, is_before};
use std::marker::Model;

/// The characters between two positions, lines joined by newlines.
#[derive(Drop)]
pub struct Chars<'c> {
    lines: &'c [Line],
    at: Pos,
    end: Pos,
}

impl<'c> Model for Chars<'c> {
    ghost use Rattle.std.specs.Prelude.{ℕ, List, slice_range};
    ghost use Rattle.mad_edit_lines.specs.TextLines.{IsPosition, lines_of, text_of, offset_of};

    ghost Value = { List ℕ };

    ghost view = { λ a. let ls = lines_of a.lines.now in slice_range (text_of ls) (offset_of ls a.at) (offset_of ls a.end) };

    ghost invariant = { λ a. IsPosition (lines_of a.lines.now) a.at × IsPosition (lines_of a.lines.now) a.end };
}

impl<'c> Chars<'c> {
    /// The characters between two positions of the lines; none where `end` is before `at`. Both have to be positions of the lines.
    pub fn new(lines: &'c [Line], at: Pos, end: Pos) -> Chars<'c>
        requires at { IsPosition (lines_of lines.now) at }
        requires end { IsPosition (lines_of lines.now) end }
        ensures { let ls = lines_of lines.entry.now in result ≡ slice_range (text_of ls) (offset_of ls at) (offset_of ls end) }
    {
        Chars { lines, at, end }
    }
}

impl<'c> Iterator for Chars<'c> {
    type Item = char;

    ghost next_gives = { YieldsFirst (λ rest. rest) };

    ghost remaining = { item_count (λ rest. rest) };

    fn next(&mut self) -> Option<char> {
        if !is_before(self.at, self.end) {
            return None;
        }
        let (c, next) = char_and_next(self.lines, self.at)?;
        self.at = next;
        Some(c)
    }
}
