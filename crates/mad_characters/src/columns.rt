//! How many columns a character takes.

ghost use Rattle.std.specs.Prelude.{◌≡◌, ◌≤◌};
ghost use Rattle.std.specs.Char.{len_utf8};
ghost use Rattle.mad_characters.specs.Columns.{char_columns};

use unicode_width::UnicodeWidthChar;

/// The columns that a character takes on a terminal, from 0 to 3: those that `unicode_width` gives,
/// and 0 for a control character. They are no more than its bytes in UTF-8.
pub fn char_columns(c: char) -> usize
    ensures value { result ≡ char_columns c }
    ensures bytes { result ≤ len_utf8 c }
    ensures most { result ≤ 3 }
{
    c.width().unwrap_or(0)
}
