//! A line of a text, and its columns.

ghost use Rattle.std.specs.Prelude.{◌≡◌, ◌<◌, ◌≤◌, [], Some, IfOk, MatchOption, length, take, encode_utf8_all};
ghost use Rattle.mad_edit_lines.specs.LineColumns.{char_width, columns, IsIndexAtColumn};

use mad_characters::char_columns;
use std::alloc::{AllocError, Global};
use std::fmt;

/// A line of a text, without its newline.
#[derive(Debug, PartialEq, Eq, Drop)]
pub struct Line {
    /// Its characters, from left to right.
    pub chars: Vec<char>,
}

/// The columns of a character in an editor, where a tab has two.
pub fn char_width(c: char) -> usize
    ensures value { result ≡ char_width c }
{
    if c == '\t' { 2 } else { char_columns(c) }
}

/// The columns of characters, at most `usize::MAX`.
pub fn columns(chars: &[char]) -> usize
    ensures { result ≡ columns chars.now }
{
    let mut total: usize = 0;
    for c in chars {
        total = total.saturating_add(char_width(*c));
    }
    total
}

/// The first character that starts at a column or after it, else the count of characters. Both are counted from 0.
pub fn index_at_column(chars: &[char], column: usize) -> usize
    ensures { IsIndexAtColumn chars.now column result }
{
    let mut total: usize = 0;
    for (index, c) in chars.iter().enumerate() {
        if column <= total {
            return index;
        }
        total = total.saturating_add(char_width(*c));
    }
    chars.len()
}

impl Line {
    /// An empty line.
    pub fn new(alloc: Global) -> Line
        ensures { result.chars.items ≡ [] }
    {
        Line {
            chars: Vec::new(alloc),
        }
    }

    /// A copy of the line.
    ///
    /// # Errors
    ///
    /// Out of memory is the only error.
    pub fn try_clone(&self, alloc: Global) -> Result<Line, AllocError>
        ensures { IfOk result (λ l. l.chars.items ≡ self.now.chars.items) }
    {
        let chars = self.chars.as_slice().to_vec(alloc)?;
        Ok(Line { chars })
    }

    /// The first character that starts at a column or after it, if there is one.
    pub fn col_to_char_idx(&self, column: usize) -> Option<usize>
        ensures { let l = self.now.chars.items in
            MatchOption result (IsIndexAtColumn l column (length l)) (λ index. (index < length l) × IsIndexAtColumn l column index) }
    {
        let index = index_at_column(self.chars.as_slice(), column);
        if index < self.chars.len() {
            Some(index)
        } else {
            None
        }
    }

    /// The columns of the first `count` characters, at most `usize::MAX`. The line has to have at least `count`.
    pub fn char_idx_to_col(&self, count: usize) -> usize
        requires { count ≤ length self.now.chars.items }
        ensures { result ≡ columns (take count self.now.chars.items) }
    {
        columns(&self.chars.as_slice()[..count])
    }

    /// The columns of the line, at most `usize::MAX`.
    pub fn width(&self) -> usize
        ensures { result ≡ columns self.now.chars.items }
    {
        columns(self.chars.as_slice())
    }
}

impl fmt::Display for Line {
    ghost output = { λ l. Some (encode_utf8_all l.chars.items) };

    fn fmt<W: fmt::Write>(&self, f: &mut fmt::Formatter<W>) -> fmt::Result {
        for c in &self.chars {
            write!(f, "{c}")?;
        }
        Ok(())
    }
}
