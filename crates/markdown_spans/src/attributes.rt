//! What raw html shows, and what its tags say of the text behind them: `br` breaks the line, an image says its alternative text, other names give
//! a flag, and a link leads to an address.

ghost use Rattle.std.specs.Prelude.{◌≡◌, ◌+◌, ◌<◌, ◌≤◌, ◌^◌, IfOk, length, take, drop, codes};
ghost use Rattle.std.specs.List.{prefix_len, list_any};
ghost use Rattle.markdown_marks.specs.Definitions.{is_space_byte};
ghost use Rattle.markdown_spans.specs.Attributes.{goes_on, is_name_byte, is_tag_named, is_attribute_named, is_value_byte, is_single, is_double, value_here, value_behind, value_of, is_attribute, attribute_from, value_text, is_filling, filled, attribute, is_closing, image_by, link_by, link_shown, flag_named, flag_by, html_shown, first_value, own_name, anchor};

use crate::code::spaced;
use crate::decoded::decoded;
use crate::words::{bytes_from, bytes_up_to, words};
use markdown_html::names::same_letters;
use markdown_html::starts::without_slash;
use markdown_marks::bytes::{first, tail};
use markdown_marks::definitions::is_space_byte;
use markdown_marks::tags::{Place, next_place};
use std::alloc::{AllocError, Global};

/// The value of an attribute, without its quotes.
#[derive(Debug, Clone, Copy)]
pub struct Value {
    /// How many bytes of the tag are before it, after the sign `<`.
    pub start: usize,
    /// How many bytes it has.
    pub len: usize,
}

/// A flag that a tag gives to the text behind it.
#[derive(Debug, Clone, Copy, PartialEq, Eq)]
pub enum Flag {
    /// `b`, `strong`
    Bold,
    /// `i`, `em`
    Italic,
    /// `s`, `del`
    Strikeout,
    /// `code`, `kbd`, `tt`, `samp`
    Code,
}

/// What raw html shows, or says of the text behind it.
#[derive(Debug, Clone, Copy)]
pub enum Html {
    Nothing,
    /// The end of a line that breaks it.
    Break,
    /// The alternative text of an image.
    Alternative(Value),
    /// The address of an image without such a text, of which the name of its file is shown.
    Source(Value),
    /// A flag is on from here, once more.
    On(Flag),
    /// A flag is on once less.
    Off(Flag),
    /// A link begins, which leads to this address.
    Link(Value),
    /// The link ends that another tag began.
    LinkEnd,
}

fn is_name_byte(b: u8) -> bool
    ensures { result ≡ is_name_byte b }
{
    b.is_ascii_alphanumeric() || b == b'-'
}

// Whether the byte goes on in an attribute's name.
fn goes_on(b: u8) -> bool
    ensures { result ≡ goes_on b }
{
    is_attribute(next_place(Place::Attribute, b))
}

// A byte of a value without quotes.
fn is_value_byte(b: u8) -> bool
    ensures { result ≡ is_value_byte b }
{
    !(is_space_byte(b)
        || b == b'"'
        || b == b'\''
        || b == b'='
        || b == b'<'
        || b == b'>'
        || b == b'`')
}

/// How many bytes of a tag's name are in front.
pub fn name_len(bytes: &[u8]) -> usize
    ensures value { result ≡ prefix_len is_name_byte bytes.now }
    ensures within { result ≤ length bytes.now }
{
    let mut i = 0;
    while i < bytes.len() && is_name_byte(bytes[i]) {
        i += 1;
    }
    i
}

// How many bytes of an attribute's name are in front.
fn attribute_len(bytes: &[u8]) -> usize
    ensures value { result ≡ prefix_len goes_on bytes.now }
    ensures within { result ≤ length bytes.now }
{
    let mut i = 0;
    while i < bytes.len() && goes_on(bytes[i]) {
        i += 1;
    }
    i
}

// How many bytes of a value without quotes are in front.
fn plain_len(bytes: &[u8]) -> usize
    ensures value { result ≡ prefix_len is_value_byte bytes.now }
    ensures within { result ≤ length bytes.now }
{
    let mut i = 0;
    while i < bytes.len() && is_value_byte(bytes[i]) {
        i += 1;
    }
    i
}

// How many bytes are before a single quote.
fn single_len(bytes: &[u8]) -> usize
    ensures value { result ≡ prefix_len is_single bytes.now }
    ensures within { result ≤ length bytes.now }
{
    let mut i = 0;
    while i < bytes.len() && bytes[i] != b'\'' {
        i += 1;
    }
    i
}

// How many bytes are before a double quote.
fn double_len(bytes: &[u8]) -> usize
    ensures value { result ≡ prefix_len is_double bytes.now }
    ensures within { result ≤ length bytes.now }
{
    let mut i = 0;
    while i < bytes.len() && bytes[i] != b'"' {
        i += 1;
    }
    i
}

// How many blanks and ends of lines are in front.
fn spaces_len(bytes: &[u8]) -> usize
    ensures value { result ≡ prefix_len is_space_byte bytes.now }
    ensures within { result ≤ length bytes.now }
{
    let mut i = 0;
    while i < bytes.len() && is_space_byte(bytes[i]) {
        i += 1;
    }
    i
}

/// Whether the name of a tag is in front, in letters of any case.
pub fn is_tag_named(name: &[u8], bytes: &[u8]) -> bool
    ensures { result ≡ is_tag_named name.now bytes.now }
{
    same_letters(name, &bytes[..name_len(bytes)])
}

fn is_attribute_named(name: &[u8], bytes: &[u8]) -> bool
    ensures { result ≡ is_attribute_named name.now bytes.now }
{
    same_letters(name, &bytes[..attribute_len(bytes)])
}

// A value at a place.
fn value_here(at: usize, bytes: &[u8]) -> Value
    requires { at + length bytes.now < 2 ^ 64 }
    ensures { result ≡ value_here at bytes.now }
{
    match bytes {
        [b'\'', rest @ ..] => Value {
            start: at + 1,
            len: single_len(rest),
        },
        [b'"', rest @ ..] => Value {
            start: at + 1,
            len: double_len(rest),
        },
        _ => Value {
            start: at,
            len: plain_len(bytes),
        },
    }
}

// A value behind blanks.
fn value_behind(at: usize, bytes: &[u8]) -> Value
    requires { at + length bytes.now < 2 ^ 64 }
    ensures { result ≡ value_behind at bytes.now }
{
    let blanks = spaces_len(bytes);
    value_here(at + blanks, tail(bytes, blanks))
}

// The value that follows an attribute's name, which ends at this place.
fn value_of(at: usize, bytes: &[u8]) -> Option<Value>
    requires { at + length bytes.now < 2 ^ 64 }
    ensures { result ≡ value_of at bytes.now }
{
    let blanks = spaces_len(bytes);
    if first(tail(bytes, blanks)) != b'=' {
        return None;
    }
    Some(value_behind(at + blanks + 1, tail(bytes, blanks + 1)))
}

fn is_attribute(place: Place) -> bool
    ensures { result ≡ is_attribute place }
{
    matches!(place, Place::Attribute)
}

// The value of the first attribute of this name, from a place in a tag on.
#[tactic(auto, unfolding(crate::specs::Attributes::attribute_from))]
fn attribute_from(name: &[u8], place: Place, bytes: &[u8]) -> Option<Value>
    ensures { result ≡ attribute_from name.now (length name.now) 0 place bytes.now }
{
    let mut here = place;
    let mut rest = bytes;
    let mut at = 0;
    while let [b, next @ ..] = rest {
        let there = next_place(here, spaced(*b));
        if !is_attribute(here) && is_attribute(there) && is_attribute_named(name, rest) {
            return value_of(at + name.len(), bytes_from(rest, name.len()));
        }
        here = there;
        rest = next;
        at += 1;
    }
    None
}

/// The text of an attribute's value, of whose tag these are the bytes after its sign `<`. Blanks are one space, and entities their characters.
///
/// # Errors
///
/// Out of memory is the only error.
pub fn value_text(alloc: Global, tag: &[u8], value: Value) -> Result<Vec<u8>, AllocError>
    ensures { IfOk result (λ text. text.items ≡ value_text tag.now value) }
{
    let words = words(alloc, bytes_up_to(bytes_from(tag, value.start), value.len))?;
    let text = decoded(alloc, false, &words)?;
    Ok(text)
}

fn is_filling(b: u8) -> bool
    ensures { result ≡ is_filling b }
{
    !is_space_byte(b)
}

// Whether a value has something else than blanks.
fn is_filled(tag: &[u8], value: Value) -> bool
    ensures { result ≡ list_any is_filling (take value.len (drop value.start tag.now)) }
{
    bytes_up_to(bytes_from(tag, value.start), value.len)
        .iter()
        .any(|b| is_filling(*b))
}

fn filled(tag: &[u8], value: Option<Value>) -> Option<Value>
    ensures { result ≡ filled tag.now value }
{
    match value {
        None => None,
        Some(value) => {
            if is_filled(tag, value) {
                Some(value)
            } else {
                None
            }
        }
    }
}

/// The value of a tag's first attribute of this name, if that isn't empty. These are the tag's bytes after its sign `<`.
pub fn attribute(name: &[u8], tag: &[u8]) -> Option<Value>
    ensures { result ≡ attribute name.now tag.now }
{
    filled(tag, attribute_from(name, Place::Name, tag))
}

/// Whether these are the bytes of a closing tag.
pub fn is_closing(tag: &[u8]) -> bool
    ensures { result ≡ is_closing tag.now }
{
    first(tag) == b'/'
}

fn image_by(alternative: Option<Value>, source: Option<Value>) -> Html
    ensures { result ≡ image_by alternative source }
{
    match (alternative, source) {
        (Some(value), _) => Html::Alternative(value),
        (None, Some(value)) => Html::Source(value),
        (None, None) => Html::Nothing,
    }
}

fn link_by(href: Option<Value>) -> Html
    ensures { result ≡ link_by href }
{
    match href {
        None => Html::LinkEnd,
        Some(value) => Html::Link(value),
    }
}

// What a tag `a` says.
fn link_shown(tag: &[u8]) -> Html
    ensures { result ≡ link_shown tag.now }
{
    if is_closing(tag) {
        return Html::LinkEnd;
    }
    link_by(attribute(b"href", tag))
}

// The flag that a tag with this name in front gives.
fn flag_named(tag: &[u8]) -> Option<Flag>
    ensures { result ≡ flag_named tag.now }
{
    if is_tag_named(b"b", tag) || is_tag_named(b"strong", tag) {
        return Some(Flag::Bold);
    }
    if is_tag_named(b"i", tag) || is_tag_named(b"em", tag) {
        return Some(Flag::Italic);
    }
    if is_tag_named(b"s", tag) || is_tag_named(b"del", tag) {
        return Some(Flag::Strikeout);
    }
    if is_tag_named(b"code", tag)
        || is_tag_named(b"kbd", tag)
        || is_tag_named(b"tt", tag)
        || is_tag_named(b"samp", tag)
    {
        return Some(Flag::Code);
    }
    None
}

fn flag_by(closing: bool, flag: Option<Flag>) -> Html
    ensures { result ≡ flag_by closing flag }
{
    match flag {
        None => Html::Nothing,
        Some(flag) => {
            if closing {
                Html::Off(flag)
            } else {
                Html::On(flag)
            }
        }
    }
}

/// What raw html shows, whose bytes these are after its sign `<`.
pub fn html_shown(tag: &[u8]) -> Html
    ensures { result ≡ html_shown tag.now }
{
    if is_tag_named(b"br", without_slash(tag)) {
        return Html::Break;
    }
    if is_tag_named(b"img", tag) {
        return image_by(attribute(b"alt", tag), attribute(b"src", tag));
    }
    if is_tag_named(b"a", without_slash(tag)) {
        return link_shown(tag);
    }
    flag_by(is_closing(tag), flag_named(without_slash(tag)))
}

// ---- names that links go to

fn first_value(value: Option<Value>, other: Option<Value>) -> Option<Value>
    ensures { result ≡ first_value value other }
{
    match value {
        None => other,
        Some(value) => Some(value),
    }
}

// The name of a tag `a`.
fn own_name(tag: &[u8]) -> Option<Value>
    ensures { result ≡ own_name tag.now }
{
    if is_tag_named(b"a", tag) {
        attribute(b"name", tag)
    } else {
        None
    }
}

/// The name that an opening tag gives to its place, to which links go: its `id`, or the `name` of a tag `a`. These are its bytes after its sign `<`.
pub fn anchor(tag: &[u8]) -> Option<Value>
    ensures { result ≡ anchor tag.now }
{
    if is_closing(tag) {
        return None;
    }
    first_value(attribute(b"id", tag), own_name(tag))
}
