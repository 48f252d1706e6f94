//! Tags of html, byte by byte: [`next_place`] leads from place to place.

ghost use Rattle.std.specs.Prelude.{◌≡◌, ◌||◌, ◌==◌, if◌then◌else◌};
ghost use Rattle.std.specs.Char.{is_ascii_alphanumeric};
ghost use Rattle.markdown_marks.specs.Bytes.{is_blank_byte};
ghost use Rattle.markdown_marks.specs.Html.{is_attribute_start, is_attribute_byte, is_plain_byte, ending_place, gap_place, after_attribute_place, attribute_place, before_value_place, after_value_place, next_place, is_after, ends_alone, is_tag_alone};

use crate::bytes::{first, is_blank_byte};

/// A place in a tag. `Name` comes after the first letter of an opening tag, `CloseName` after that of a closing one.
#[derive(Debug, Clone, Copy, PartialEq, Eq)]
pub enum Place {
    /// In the tag's name.
    Name,
    /// After blanks, where an attribute may begin.
    Gap,
    /// In an attribute's name.
    Attribute,
    /// After blanks that follow an attribute's name.
    AfterAttribute,
    /// After `=`, and blanks behind it.
    BeforeValue,
    /// In a value without quotes.
    Plain,
    /// In a value in single quotes.
    Single,
    /// In a value in double quotes.
    Double,
    /// After the quote that ends a value.
    AfterValue,
    /// After a slash, which `>` has to follow.
    Slash,
    /// In the name of a closing tag.
    CloseName,
    /// After blanks behind it, which `>` has to follow.
    CloseGap,
    /// After the tag, and blanks behind it.
    After,
    /// This is no tag.
    Nowhere,
}

fn is_attribute_start(b: u8) -> bool
    ensures { result ≡ is_attribute_start b }
{
    b.is_ascii_alphabetic() || b == b'_' || b == b':'
}

fn is_attribute_byte(b: u8) -> bool
    ensures { result ≡ is_attribute_byte b }
{
    b.is_ascii_alphanumeric() || b == b'_' || b == b':' || b == b'.' || b == b'-'
}

fn is_plain_byte(b: u8) -> bool
    ensures { result ≡ is_plain_byte b }
{
    !(is_blank_byte(b)
        || b == b'"'
        || b == b'\''
        || b == b'='
        || b == b'<'
        || b == b'>'
        || b == b'`')
}

// Whether the byte goes on in a tag's name.
fn is_name_byte(b: u8) -> bool
    ensures { result ≡ (is_ascii_alphanumeric b || (b == 45)) }
{
    b.is_ascii_alphanumeric() || b == b'-'
}

fn ending_place(b: u8) -> Place
    ensures { result ≡ ending_place b }
{
    if b == b'>' {
        Place::After
    } else if b == b'/' {
        Place::Slash
    } else {
        Place::Nowhere
    }
}

fn gap_place(b: u8) -> Place
    ensures { result ≡ gap_place b }
{
    if is_blank_byte(b) {
        Place::Gap
    } else if is_attribute_start(b) {
        Place::Attribute
    } else {
        ending_place(b)
    }
}

fn after_attribute_place(b: u8) -> Place
    ensures { result ≡ after_attribute_place b }
{
    if is_blank_byte(b) {
        Place::AfterAttribute
    } else if b == b'=' {
        Place::BeforeValue
    } else if is_attribute_start(b) {
        Place::Attribute
    } else {
        ending_place(b)
    }
}

fn attribute_place(b: u8) -> Place
    ensures { result ≡ attribute_place b }
{
    if is_attribute_byte(b) {
        Place::Attribute
    } else if is_blank_byte(b) {
        Place::AfterAttribute
    } else if b == b'=' {
        Place::BeforeValue
    } else {
        ending_place(b)
    }
}

fn before_value_place(b: u8) -> Place
    ensures { result ≡ before_value_place b }
{
    if is_blank_byte(b) {
        Place::BeforeValue
    } else if b == b'\'' {
        Place::Single
    } else if b == b'"' {
        Place::Double
    } else if is_plain_byte(b) {
        Place::Plain
    } else {
        Place::Nowhere
    }
}

fn after_value_place(b: u8) -> Place
    ensures { result ≡ after_value_place b }
{
    if is_blank_byte(b) {
        Place::Gap
    } else {
        ending_place(b)
    }
}

// After a part that only > ends: where it is while it goes on, and where blanks lead.
fn closing_place(goes_on: bool, b: u8, same: Place, blank: Place) -> Place
    ensures { result ≡ (if goes_on then same else if is_blank_byte b then blank else if b == 62 then Place.After else Place.Nowhere) }
{
    if goes_on {
        same
    } else if is_blank_byte(b) {
        blank
    } else if b == b'>' {
        Place::After
    } else {
        Place::Nowhere
    }
}

fn place_if(holds: bool, place: Place, otherwise: Place) -> Place
    ensures { result ≡ (if holds then place else otherwise) }
{
    if holds { place } else { otherwise }
}

/// Where a byte leads.
pub fn next_place(place: Place, b: u8) -> Place
    ensures { result ≡ next_place place b }
{
    match place {
        Place::Name => place_if(is_name_byte(b), Place::Name, after_value_place(b)),
        Place::Gap => gap_place(b),
        Place::Attribute => attribute_place(b),
        Place::AfterAttribute => after_attribute_place(b),
        Place::BeforeValue => before_value_place(b),
        Place::Plain => closing_place(is_plain_byte(b), b, Place::Plain, Place::Gap),
        Place::Single => place_if(b == b'\'', Place::AfterValue, Place::Single),
        Place::Double => place_if(b == b'"', Place::AfterValue, Place::Double),
        Place::AfterValue => after_value_place(b),
        Place::Slash => place_if(b == b'>', Place::After, Place::Nowhere),
        Place::CloseName => closing_place(is_name_byte(b), b, Place::CloseName, Place::CloseGap),
        Place::CloseGap => closing_place(false, b, Place::CloseGap, Place::CloseGap),
        Place::After => place_if(is_blank_byte(b), Place::After, Place::Nowhere),
        Place::Nowhere => Place::Nowhere,
    }
}

/// Whether a place is behind a tag.
pub fn is_after(place: Place) -> bool
    ensures { result ≡ is_after place }
{
    match place {
        Place::After => true,
        Place::Name
        | Place::Gap
        | Place::Attribute
        | Place::AfterAttribute
        | Place::BeforeValue
        | Place::Plain
        | Place::Single
        | Place::Double
        | Place::AfterValue
        | Place::Slash
        | Place::CloseName
        | Place::CloseGap
        | Place::Nowhere => false,
    }
}

// Whether these bytes lead behind a tag, and nothing but blanks follows.
#[tactic(auto, unfolding(crate::specs::Html::ends_alone))]
fn ends_alone(place: Place, bytes: &[u8]) -> bool
    ensures { result ≡ ends_alone place bytes.now }
{
    let mut here = place;
    for b in bytes {
        here = next_place(here, *b);
    }
    is_after(here)
}

/// Whether the bytes after a sign `<` are an opening tag with its attributes, or a closing one, and then nothing but blanks.
pub fn is_tag_alone(bytes: &[u8]) -> bool
    ensures { result ≡ is_tag_alone bytes.now }
{
    match bytes {
        [] => false,
        [b, bs @ ..] => {
            if b.is_ascii_alphabetic() {
                ends_alone(Place::Name, bs)
            } else {
                *b == b'/' && first(bs).is_ascii_alphabetic() && ends_alone(Place::CloseName, bs)
            }
        }
    }
}
