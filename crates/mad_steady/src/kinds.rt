//! What a character is to a steady text.

ghost use Rattle.std.specs.Prelude.{◌≡◌};
ghost use Rattle.mad_steady.specs.Kinds.{kind, other_kind, is_opening, syllable_kind, jamo_kind, ascii_kind, columns_kind};

use mad_characters::char_columns;

/// What a character is to a steady text.
#[derive(Clone, Copy, PartialEq, Eq, Debug)]
pub enum Kind {
    /// A soft hyphen, a joiner, a skin tone or a tag: it goes.
    Dropped,
    /// A variation selector.
    Selector,
    /// U+17D8, which stands for three characters.
    Sign,
    /// A regional indicator, half of a flag.
    Indicator,
    /// A leading jamo of Hangul.
    Lead,
    /// A Hangul syllable without a trailing jamo.
    OpenSyllable,
    /// A vowel of Hangul syllables.
    Vowel,
    /// A trailing jamo of Hangul syllables.
    Tail,
    /// A vowel or trailing jamo that no syllable has.
    Jamo,
    /// A control character, a blank or a mark, behind which no widthless character stands.
    Opening,
    /// Any other character without columns.
    Widthless,
    /// Any other character of one column.
    Narrow,
    /// Any other character of two columns.
    Wide,
}

/// The kind of a character.
#[tactic(auto, unfolding(crate::specs::Kinds::kind))]
pub fn kind_of(c: char) -> Kind
    ensures { result ≡ kind c }
{
    match c {
        ' '..='~' => ascii_kind(c),
        '\u{ad}' | '\u{200d}' | '\u{1f3fb}'..='\u{1f3ff}' | '\u{e0000}'..='\u{e0fff}' =>
            Kind::Dropped,
        '\u{fe00}'..='\u{fe0f}' => Kind::Selector,
        '\u{17d8}' => Kind::Sign,
        '\u{1f1e6}'..='\u{1f1ff}' => Kind::Indicator,
        '\u{1100}'..='\u{1112}' => Kind::Lead,
        '\u{ac00}'..='\u{d7a3}' => syllable_kind(c),
        '\u{1160}'..='\u{11ff}' | '\u{d7b0}'..='\u{d7c6}' | '\u{d7cb}'..='\u{d7fb}' => jamo_kind(c),
        _ => other_kind(c),
    }
}

// Most texts are of these: they need none of the other tests.
pub(crate) fn ascii_kind(c: char) -> Kind
    ensures { result ≡ ascii_kind c }
{
    match c {
        ' ' | '*' | '~' | '`' | '|' | '#' | '>' => Kind::Opening,
        _ => Kind::Narrow,
    }
}

fn syllable_kind(c: char) -> Kind
    ensures { result ≡ syllable_kind c }
{
    if (c as u32).saturating_sub(0xac00) % 28 == 0 {
        Kind::OpenSyllable
    } else {
        Kind::Wide
    }
}

fn jamo_kind(c: char) -> Kind
    ensures { result ≡ jamo_kind c }
{
    match c {
        '\u{1161}'..='\u{1175}' => Kind::Vowel,
        '\u{11a8}'..='\u{11c2}' => Kind::Tail,
        _ => Kind::Jamo,
    }
}

// The kind of a character that has no rule of its own.
#[tactic(auto, unfolding(crate::specs::Kinds::other_kind))]
fn other_kind(c: char) -> Kind
    ensures { result ≡ other_kind c }
{
    if is_opening(c) {
        return Kind::Opening;
    }
    columns_kind(char_columns(c))
}

fn columns_kind(columns: usize) -> Kind
    ensures { result ≡ columns_kind columns }
{
    match columns {
        0 => Kind::Widthless,
        2 => Kind::Wide,
        _ => Kind::Narrow,
    }
}

// Whether no widthless character stands behind it.
fn is_opening(c: char) -> bool
    ensures { result ≡ is_opening c }
{
    matches!(c, '*' | '~' | '`' | '|' | '#' | '>') || c.is_control() || c.is_whitespace()
}
