//! Whether a run opens and closes, by what stands beside it.

ghost use Rattle.std.specs.Prelude.{◌≡◌};
ghost use Rattle.markdown_runs.specs.Flanking.{is_blank, is_punctuation, beside_char, beside, is_flanking, run_of, opens, closes};

use markdown_emphasis::{Run, Sign};
use ucd_category::{GeneralCategory, GeneralCategoryGroup};

/// What stands before or after a run.
#[derive(Clone, Copy)]
pub enum Neighbor {
    /// Whitespace, or an end of the text.
    Blank,
    /// Punctuation or a symbol.
    Punctuation,
    Other,
}

// Whether a character is whitespace of Unicode.
fn is_blank(c: char) -> bool
    ensures { result ≡ is_blank c }
{
    matches!(c, '\t' | '\n' | '\x0c' | '\r')
        || matches!(
            GeneralCategory::for_char(c),
            GeneralCategory::SpaceSeparator
        )
}

// Whether a character is punctuation, or a symbol.
fn is_punctuation(c: char) -> bool
    ensures { result ≡ is_punctuation c }
{
    let category = GeneralCategory::for_char(c);
    GeneralCategoryGroup::Punctuation.contains(category)
        || GeneralCategoryGroup::Symbol.contains(category)
}

// What a character is beside a run.
fn beside_char(c: char) -> Neighbor
    ensures { result ≡ beside_char c }
{
    if is_blank(c) {
        Neighbor::Blank
    } else if is_punctuation(c) {
        Neighbor::Punctuation
    } else {
        Neighbor::Other
    }
}

/// What a character is beside a run, or an end of the text.
pub fn beside(c: Option<char>) -> Neighbor
    ensures { result ≡ beside c }
{
    match c {
        Some(c) => beside_char(c),
        None => Neighbor::Blank,
    }
}

// Whether a run belongs to what is on its inner side rather than to what is on its outer side.
fn is_flanking(inner: Neighbor, outer: Neighbor) -> bool
    ensures { result ≡ is_flanking inner outer }
{
    match (inner, outer) {
        (Neighbor::Blank, _) => false,
        (Neighbor::Punctuation, Neighbor::Other) => false,
        _ => true,
    }
}

// Whether a run between these can open.
fn opens(sign: Sign, before: Neighbor, after: Neighbor) -> bool
    ensures { result ≡ opens sign before after }
{
    match sign {
        Sign::Underscore => is_flanking(after, before)
            && (!is_flanking(before, after) || matches!(before, Neighbor::Punctuation)),
        _ => is_flanking(after, before),
    }
}

// Whether a run between these can close.
fn closes(sign: Sign, before: Neighbor, after: Neighbor) -> bool
    ensures { result ≡ closes sign before after }
{
    match sign {
        Sign::Underscore => is_flanking(before, after)
            && (!is_flanking(after, before) || matches!(after, Neighbor::Punctuation)),
        _ => is_flanking(before, after),
    }
}

/// The run of so many marks between these.
pub fn run_of(sign: Sign, count: usize, before: Neighbor, after: Neighbor) -> Run
    ensures { result ≡ run_of sign count before after }
{
    Run {
        sign,
        count,
        opens: opens(sign, before, after),
        closes: closes(sign, before, after),
    }
}
