//! What words are made of, and how far they go.

ghost use Rattle.std.specs.Prelude.{◌≡◌, ◌≤◌, length};
ghost use Rattle.std.specs.List.{prefix_len, suffix_len};
ghost use Rattle.mad_edit_lines.specs.CharClasses.{is_alphanumeric, is_of};

use unicode::properties::{GeneralCategory, is_alphabetic};

/// A class of characters.
#[derive(Clone, Copy, Debug, PartialEq, Eq)]
pub enum CharClass {
    /// Letters and numbers, by Unicode's `Alphabetic` and its three categories of numbers.
    Alphanumeric,
    /// Letters, numbers and `_`.
    Word,
    /// All that is no whitespace.
    NonSpace,
}

/// Whether a character is a letter or a number, by Unicode's `Alphabetic` and its three categories of numbers.
pub fn is_alphanumeric(c: char) -> bool
    ensures { result ≡ is_alphanumeric c }
{
    is_alphabetic(c)
        || matches!(
            GeneralCategory::for_char(c),
            GeneralCategory::DecimalNumber
                | GeneralCategory::LetterNumber
                | GeneralCategory::OtherNumber
        )
}

impl CharClass {
    /// Whether a character is of the class.
    pub fn has(self, c: char) -> bool
        ensures { result ≡ is_of self c }
    {
        match self {
            CharClass::Alphanumeric => is_alphanumeric(c),
            CharClass::Word => is_alphanumeric(c) || c == '_',
            CharClass::NonSpace => !c.is_whitespace(),
        }
    }

    /// How many characters at the front are of the class.
    pub fn count_front(self, chars: &[char]) -> usize
        ensures is { result ≡ prefix_len (is_of self) chars.now }
        ensures within { result ≤ length chars.now }
    {
        for (index, c) in chars.iter().enumerate() {
            if !self.has(*c) {
                return index;
            }
        }
        chars.len()
    }

    /// How many characters at the end are of the class.
    pub fn count_end(self, chars: &[char]) -> usize
        ensures is { result ≡ suffix_len (is_of self) chars.now }
        ensures within { result ≤ length chars.now }
    {
        let mut rest = chars.len();
        while rest > 0 && self.has(chars[rest - 1]) {
            rest -= 1;
        }
        chars.len() - rest
    }
}
