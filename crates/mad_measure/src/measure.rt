//! The columns of a text.

ghost use Rattle.std.specs.Prelude.{◌≡◌, ◌≤◌, ◌<◌, ◌+◌, length, chars, MatchOption};
ghost use Rattle.mad_measure.specs.TextColumns.{columns};

use crate::ascii::ascii_front;
use mad_characters::char_columns;

/// The columns that a text takes: the sum over its characters, 0 for a control character.
///
/// One pass over the text. The sum can't pass a `usize`, since no character takes more columns than it has bytes.
pub fn columns(text: &str) -> usize
    ensures value { result ≡ columns (chars text.now) }
    ensures bound { result ≤ length text.now }
{
    let (mut total, rest) = cut_ascii(text, usize::MAX);
    for c in rest.chars() {
        let width = char_columns(c);
        total += width;
    }
    total
}

/// The columns that a text takes, if they are at most `most`. It stops at the first character that passes these.
pub fn columns_within(text: &str, most: usize) -> Option<usize>
    ensures { MatchOption result (most < columns (chars text.now)) (λ n. (n ≡ columns (chars text.now)) × (n ≤ most)) }
{
    let (ascii, rest) = cut_ascii(text, most);
    let mut left = most - ascii;
    for c in rest.chars() {
        left = left.checked_sub(char_columns(c))?;
    }
    Some(most - left)
}

// The columns of the spaces and graphic ASCII characters at the front, at most `most`, and what comes after them.
fn cut_ascii(text: &str, most: usize) -> (usize, &str)
    ensures columns { result.0 + columns (chars result.1.now) ≡ columns (chars text.entry.now) }
    ensures bytes { result.0 + length result.1.now ≡ length text.entry.now }
    ensures within { result.0 ≤ most }
{
    let ascii = ascii_front(text, most);
    (ascii, &text[ascii..])
}
