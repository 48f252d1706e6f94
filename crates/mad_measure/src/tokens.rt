//! Tokens, and the first token of a compound.

ghost use Rattle.std.specs.Prelude.{◌≡◌, ◌≢◌, ℕ, ◌≤◌, ◌<◌, ◌+◌, ◌^◌, ◌⊎◌, IsTrue, IfSome, false, length};
ghost use Rattle.std.specs.Str.{IsCharBoundary};
ghost use Rattle.mad_md.specs.Flagged.{flags_of};
ghost use Rattle.mad_measure.specs.Tokens.{IsTokenAt, token_text};

use crate::ascii::{graphic_at, is_end_of_word, is_lone_space};
use mad_characters::char_columns;
use mad_md::Compound;

/// A part of a compound that no line break cuts: characters that are all blank or all not blank.
///
/// A character is blank if it is whitespace and its compound isn't code.
#[derive(Clone, Copy, Debug)]
pub struct Token<'s> {
    /// The compound that the token is a part of.
    pub compound: Compound<'s>,
    /// Whether its characters are blank.
    pub blank: bool,
    /// The columns that it takes.
    pub width: usize,
    /// The byte of the compound at which it begins.
    pub start_in_compound: usize,
    /// The byte of the compound at which it ends, the first that isn't in it.
    pub end_in_compound: usize,
}

impl<'s> Token<'s> {
    /// The token as a compound of its own: a slice of its compound, with the flags of that.
    ///
    /// Its bytes are borders of characters of the compound, in order.
    pub fn to_compound(&self) -> Compound<'s>
        requires order { self.now.start_in_compound ≤ self.now.end_in_compound }
        requires start { IsCharBoundary self.now.compound.src.now self.now.start_in_compound }
        requires end { IsCharBoundary self.now.compound.src.now self.now.end_in_compound }
        ensures text { result.src.now ≡ token_text self.now }
        ensures flags { flags_of result ≡ flags_of self.now.compound }
    {
        self.compound
            .sub(self.start_in_compound, self.end_in_compound)
    }
}

/// The token that begins at a byte of the compound.
pub fn token_at<'s>(compound: Compound<'s>, start: usize, max: usize) -> Token<'s>
    requires inside { start < length compound.src.now }
    requires border { IsCharBoundary compound.src.now start }
    ensures { IsTokenAt max compound.entry start result }
{
    match word_at(compound, start, max) {
        Some(word) => word,
        None => any_token_at(compound, start, max),
    }
}

// A token of graphic characters with a space or the end of the compound after it, as most are; none of others.
fn word_at<'s>(compound: Compound<'s>, start: usize, max: usize) -> Option<Token<'s>>
    requires inside { start < length compound.src.now }
    requires border { IsCharBoundary compound.src.now start }
    ensures { IfSome result (λ token. IsTokenAt max compound.entry start token) }
{
    let width = graphic_at(compound.src, start, max);
    if width == 0 {
        return space_at(compound, start);
    }
    let end = start + width;
    if !is_end_of_word(compound.src, compound.code, end) {
        return None;
    }
    Some(token_between(compound, start, end, width, false))
}

// A token of one space, with a graphic character or the end of the compound after it; none of others.
fn space_at<'s>(compound: Compound<'s>, start: usize) -> Option<Token<'s>>
    requires inside { start < length compound.src.now }
    requires border { IsCharBoundary compound.src.now start }
    ensures { IfSome result (λ token. (max : ℕ) → IsTokenAt max compound.entry start token) }
{
    if !is_lone_space(compound.src, compound.code, start) {
        return None;
    }
    Some(token_between(compound, start, start + 1, 1, true))
}

// Any token, character by character from the first on that its byte doesn't tell. It isn't inlined, so that the quick paths keep
// their values in registers.
#[inline(never)]
fn any_token_at<'s>(compound: Compound<'s>, start: usize, max: usize) -> Token<'s>
    requires inside { start < length compound.src.now }
    requires border { IsCharBoundary compound.src.now start }
    ensures { IsTokenAt max compound.entry start result }
{
    let mut width = graphic_at(compound.src, start, max);
    let begin = start + width;
    let mut blank = false;
    let mut chars = compound.src[begin..].char_indices();
    if width == 0 {
        if let Some((_, c)) = chars.next() {
            blank = compound.is_blank(c);
            width = char_columns(c);
        }
    }
    for (index, c) in chars {
        let c_blank = compound.is_blank(c);
        let c_width = char_columns(c);
        if !takes_in(blank, width, c_blank, c_width, max) {
            return token_between(compound, start, begin + index, width, blank);
        }
        width += c_width;
    }
    token_between(compound, start, compound.src.len(), width, blank)
}

fn token_between<'s>(
    compound: Compound<'s>,
    start: usize,
    end: usize,
    width: usize,
    blank: bool,
) -> Token<'s>
    ensures { result ≡ record { compound = compound.entry; blank = blank; width = width; start_in_compound = start; end_in_compound = end } }
{
    Token {
        compound,
        blank,
        width,
        start_in_compound: start,
        end_in_compound: end,
    }
}

// Whether a token can take in a character of this blankness and width.
fn takes_in(blank: bool, width: usize, c_blank: bool, c_width: usize, max: usize) -> bool
    requires { width + c_width < 2 ^ 64 }
    ensures takes { IsTrue result → (c_blank ≡ blank) × (width + c_width ≤ max) }
    ensures stops { result ≡ false → (c_blank ≢ blank) ⊎ (max < width + c_width) }
{
    c_blank == blank && width + c_width <= max
}
