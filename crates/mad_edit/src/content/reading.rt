//! Reading the text: its lines and its characters.

ghost use Rattle.std.specs.Prelude.{◌≡◌, ◌<◌, ◌≤◌, ◌-◌, ◌↔◌, [], length, chars, min, IsTrue, MatchOption};
ghost use Rattle.mad_edit_lines.specs.LineColumns.{char_width};
ghost use Rattle.mad_edit_lines.specs.TextLines.{lines, lines_of, line_at};
ghost use Rattle.mad_edit.specs.Editor.{cursor_line, selected};

use crate::content::InputFieldContent;
use mad_edit_lines::{Chars, Line, Pos, char_width, end_position, line_at, line_count};

impl InputFieldContent {
    /// A line, if there is one with this number, counted from 0.
    pub fn line(&self, y: usize) -> Option<&Line>
        ensures { let ls = lines self.now.text in
            MatchOption result (length ls ≤ y) (λ line. (y < length ls) × (line.now.chars.items ≡ line_at ls y)) }
    {
        if y < line_count(&self.lines) {
            Some(line_at(&self.lines, y))
        } else {
            None
        }
    }

    /// A line, or the last one where there is none with this number, counted from 0.
    pub fn line_saturating(&self, y: usize) -> &Line
        ensures { let ls = lines self.now.text in result.now.chars.items ≡ line_at ls (min y (length ls - 1)) }
    {
        let last = line_count(&self.lines) - 1;
        line_at(&self.lines, y.min(last))
    }

    /// The line of the cursor.
    pub fn current_line(&self) -> &Line
        ensures { result.now.chars.items ≡ line_at (lines self.now.text) (cursor_line self.now) }
    {
        line_at(&self.lines, self.pos.y)
    }

    /// The lines.
    pub fn lines(&self) -> &[Line]
        ensures { lines_of result.now ≡ lines self.now.text }
    {
        self.lines.as_slice()
    }

    /// Whether the text is empty.
    pub fn is_empty(&self) -> bool
        ensures { IsTrue result ↔ (length self.now.text ≡ 0) }
    {
        let start = self.start();
        self.next_position(start).is_none()
    }

    /// The characters of the text, newlines included.
    pub fn chars(&self) -> Chars<'_>
        ensures { result ≡ self.now.text }
    {
        let end = end_position(&self.lines);
        Chars::new(&self.lines, Pos { y: 0, x: 0 }, end)
    }

    /// The selected characters.
    pub fn selection_chars(&self) -> Chars<'_>
        ensures { result ≡ selected self.now }
    {
        let (start, end) = self.selected_span();
        Chars::new(&self.lines, start, end)
    }

    /// Whether the text is this one.
    pub fn is_str(&self, text: &str) -> bool
        ensures { IsTrue result ↔ (self.now.text ≡ chars text.now) }
    {
        let mut own = self.chars();
        for c in text.chars() {
            let Some(own_char) = own.next() else {
                return false;
            };
            if own_char != c {
                return false;
            }
        }
        own.next().is_none()
    }

    /// The columns of a character in an editor, where a tab has two.
    pub fn char_width(c: char) -> usize
        ensures { result ≡ char_width c }
    {
        char_width(c)
    }
}
