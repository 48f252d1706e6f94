//! Tokens in texts of wide characters.

ghost use Rattle.std.specs.Prelude.{◌≡◌, ◌≢◌, ◌≤◌, ◌<◌, ◌+◌, ◌^◌, ◌⊎◌, IsTrue, false, length};
ghost use Rattle.std.specs.Char.{len_utf8};
ghost use Rattle.std.specs.Str.{IsCharBoundary};
ghost use Rattle.mad_characters.specs.Columns.{char_columns};
ghost use Rattle.mad_md.specs.Flagged.{flags_of, is_blank};
ghost use Rattle.mad_measure.specs.Tokens.{IsTokenAt};

use mad_characters::{char_columns, is_known_wide};
use mad_md::Compound;
use mad_measure::{Token, token_at};

// The least first byte of a character that is known to be wide.
const LEAST_WIDE: u8 = 0xe3;

/// The token that begins at a byte of the compound.
pub(crate) fn quick_token_at<'s>(compound: Compound<'s>, start: usize, max: usize) -> Token<'s>
    requires inside { start < length compound.src.now }
    requires border { IsCharBoundary compound.src.now start }
    ensures { IsTokenAt max compound.entry start result }
{
    if compound.src.as_bytes()[start] < LEAST_WIDE {
        token_at(compound, start, max)
    } else {
        wide_token_at(compound, start, max)
    }
}

// The same, character by character, quick where most of them are known to be wide.
fn wide_token_at<'s>(compound: Compound<'s>, start: usize, max: usize) -> Token<'s>
    requires inside { start < length compound.src.now }
    requires border { IsCharBoundary compound.src.now start }
    ensures { IsTokenAt max compound.entry start result }
{
    let end = bytes_in(compound.src);
    let mut blank = false;
    let mut width = 0;
    for (index, c) in compound.src[start..].char_indices() {
        let (c_blank, columns) = measured(compound, c);
        if !goes_on(index, blank, width, c_blank, columns, max) {
            return token_between(compound, start, start + index, width, blank);
        }
        blank = c_blank;
        width += columns;
    }
    token_between(compound, start, end, width, blank)
}

// The bytes of a text.
fn bytes_in(text: &str) -> usize
    ensures value { result ≡ length text.now }
    ensures fits { length text.now < 2 ^ 64 }
{
    text.len()
}

// Whether a character of the compound is blank, and its columns.
fn measured(compound: Compound, c: char) -> (bool, usize)
    ensures blank { result.0 ≡ is_blank (record { char = c; flags = flags_of compound.entry }) }
    ensures columns { result.1 ≡ char_columns c }
    ensures bytes { result.1 ≤ len_utf8 c }
{
    if is_known_wide(u32::from(c)) {
        (false, 2)
    } else {
        (compound.is_blank(c), char_columns(c))
    }
}

// Whether a token that has these bytes so far, of this blankness and width, goes on with a character.
fn goes_on(
    bytes: usize,
    blank: bool,
    width: usize,
    c_blank: bool,
    columns: usize,
    max: usize,
) -> bool
    requires { width + columns < 2 ^ 64 }
    ensures takes { IsTrue result → (bytes ≡ 0) ⊎ ((c_blank ≡ blank) × (width + columns ≤ max)) }
    ensures stops { result ≡ false → (0 < bytes) × ((c_blank ≢ blank) ⊎ (max < width + columns)) }
{
    bytes == 0 || (c_blank == blank && width + columns <= max)
}

fn token_between<'s>(
    compound: Compound<'s>,
    start: usize,
    end: usize,
    width: usize,
    blank: bool,
) -> Token<'s>
    ensures { result ≡ record { compound = compound.entry; blank = blank; width = width; start_in_compound = start; end_in_compound = end } }
{
    Token {
        compound,
        blank,
        width,
        start_in_compound: start,
        end_in_compound: end,
    }
}
