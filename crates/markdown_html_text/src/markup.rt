//! Markup of html: tags, comments, instructions, CDATA sections and declarations. What has no end goes on to the end of the text.

ghost use Rattle.std.specs.Prelude.{◌≡◌};
ghost use Rattle.std.specs.Option.{option_copied};
ghost use Rattle.markdown_html_text.specs.Markup.{behind, other_end, tag_name, after_name, ends_name, is_tag, is_quoted, after_tag, place_of, closes, from_closing, tag_end, is_cell, is_cutting, effect_by, effect_of, markup_up_to, tag_by, markup_of};

use markdown_html::names::is_block_name;
use markdown_html::starts::{begins, is_declaration, without_slash};
use markdown_marks::bytes::{first, tail};
use markdown_marks::definitions::is_space_byte;
use markdown_marks::tags::{Place, next_place};
use markdown_spans::attributes::{Html, html_shown, is_tag_named, name_len};
use markdown_spans::code::spaced;
use markdown_spans::needles::after_first;
use markdown_spans::words::bytes_up_to;

/// What markup does to the text that is shown.
#[derive(Debug, Clone, Copy)]
pub enum Effect {
    /// What is before it and after it are apart.
    Gap,
    /// A row ends.
    Cut,
    /// What raw html shows in a line, or says of the text behind it.
    Say(Html),
}

/// Markup behind a sign `<`.
#[derive(Debug, Clone, Copy)]
pub struct Markup {
    /// How many bytes it has after that sign.
    pub len: usize,
    pub effect: Effect,
}

// ---- what isn't a tag

// What follows these bytes where they stand first, or the end of the text.
fn behind<'t>(needle: &[u8], text: &'t [u8]) -> &'t [u8]
    ensures { result.now ≡ behind needle.now text.entry.now }
{
    match after_first(needle, text) {
        Some(rest) => rest,
        None => &[],
    }
}

// What follows a comment, an instruction, a CDATA section or a declaration.
fn other_end(bytes: &[u8]) -> Option<&[u8]>
    ensures { option_copied result ≡ other_end bytes.entry.now }
{
    if begins(bytes, b"!--") {
        return Some(behind(b"-->", tail(bytes, 3)));
    }
    if begins(bytes, b"?") {
        return Some(behind(b"?>", tail(bytes, 1)));
    }
    if begins(bytes, b"![CDATA[") {
        return Some(behind(b"]]>", tail(bytes, 8)));
    }
    if is_declaration(bytes) {
        return Some(behind(b">", tail(bytes, 1)));
    }
    None
}

// ---- tags

fn tag_name(bytes: &[u8]) -> &[u8]
    ensures { result.now ≡ tag_name bytes.entry.now }
{
    &bytes[..name_len(bytes)]
}

fn after_name(bytes: &[u8]) -> &[u8]
    ensures { result.now ≡ after_name bytes.entry.now }
{
    tail(bytes, name_len(bytes))
}

fn ends_name(b: u8) -> bool
    ensures { result ≡ ends_name b }
{
    is_space_byte(b) || b == b'/' || b == b'>'
}

// Whether the name of a tag is in front, and an end of it.
pub(crate) fn is_tag(bytes: &[u8]) -> bool
    ensures { result ≡ is_tag bytes.now }
{
    first(bytes).is_ascii_alphabetic() && ends_name(first(after_name(bytes)))
}

// Whether it is in quotes.
fn is_quoted(place: Place) -> bool
    ensures { result ≡ is_quoted place }
{
    matches!(place, Place::Single | Place::Double)
}

// What follows a tag, from a place in it on.
#[tactic(auto, unfolding(crate::specs::Markup::after_tag))]
fn after_tag(place: Place, bytes: &[u8]) -> &[u8]
    ensures { result.now ≡ after_tag place bytes.entry.now }
{
    let mut rest = bytes;
    let mut here = place;
    while let [b, next @ ..] = rest {
        if *b == b'>' && !is_quoted(here) {
            return next;
        }
        here = next_place(here, spaced(*b));
        rest = next;
    }
    rest
}

fn place_of(bytes: &[u8]) -> Place
    ensures { result ≡ place_of bytes.now }
{
    if first(bytes) == b'/' {
        Place::CloseName
    } else {
        Place::Name
    }
}

// Whether a closing tag of this name is in front.
fn closes(name: &[u8], bytes: &[u8]) -> bool
    ensures { result ≡ closes name.now bytes.now }
{
    begins(bytes, b"</") && is_tag(tail(bytes, 2)) && is_tag_named(name, tail(bytes, 2))
}

// From the first closing tag of this name on.
#[tactic(auto, unfolding(crate::specs::Markup::from_closing))]
fn from_closing<'t>(name: &[u8], bytes: &'t [u8]) -> &'t [u8]
    ensures { result.now ≡ from_closing name.now bytes.entry.now }
{
    let mut rest = bytes;
    while let [_, next @ ..] = rest {
        if closes(name, rest) {
            return rest;
        }
        rest = next;
    }
    rest
}

// What follows a tag, of a script or a style sheet with all that they say.
fn tag_end(bytes: &[u8]) -> &[u8]
    ensures { result.now ≡ tag_end bytes.entry.now }
{
    if is_tag_named(b"script", bytes) {
        return from_closing(b"script", bytes);
    }
    if is_tag_named(b"style", bytes) {
        return from_closing(b"style", bytes);
    }
    after_tag(place_of(bytes), without_slash(bytes))
}

// ---- what is shown

// Whether it is the tag of a table's cell.
fn is_cell(bytes: &[u8]) -> bool
    ensures { result ≡ is_cell bytes.now }
{
    is_tag_named(b"td", bytes) || is_tag_named(b"th", bytes)
}

// Whether it is a tag that ends a row.
fn is_cutting(bytes: &[u8]) -> bool
    ensures { result ≡ is_cutting bytes.now }
{
    is_block_name(tag_name(bytes)) || is_tag_named(b"pre", bytes)
}

fn effect_by(html: Html) -> Effect
    ensures { result ≡ effect_by html }
{
    match html {
        Html::Break => Effect::Cut,
        Html::Nothing
        | Html::Alternative(_)
        | Html::Source(_)
        | Html::On(_)
        | Html::Off(_)
        | Html::Link(_)
        | Html::LinkEnd => Effect::Say(html),
    }
}

// What a tag does, whose bytes these are after its sign `<`.
fn effect_of(tag: &[u8]) -> Effect
    ensures { result ≡ effect_of tag.now }
{
    if is_cell(without_slash(tag)) {
        return Effect::Gap;
    }
    if is_cutting(without_slash(tag)) {
        return Effect::Cut;
    }
    effect_by(html_shown(tag))
}

// ---- markup

fn markup_up_to(bytes: &[u8], after: &[u8], effect: Effect) -> Markup
    ensures { result ≡ markup_up_to bytes.now after.now effect }
{
    Markup {
        len: bytes.len().saturating_sub(after.len()),
        effect,
    }
}

fn tag_by(bytes: &[u8], after: &[u8]) -> Markup
    ensures { result ≡ tag_by bytes.now after.now }
{
    let tag = bytes_up_to(bytes, bytes.len().saturating_sub(after.len()));
    markup_up_to(bytes, after, effect_of(tag))
}

/// The markup that begins with a sign `<`, after which these bytes are.
#[tactic(auto, unfolding(crate::specs::Markup::markup_of))]
pub fn markup_of(bytes: &[u8]) -> Option<Markup>
    ensures { result ≡ markup_of bytes.now }
{
    if is_tag(without_slash(bytes)) {
        return Some(tag_by(bytes, tag_end(bytes)));
    }
    match other_end(bytes) {
        None => None,
        Some(after) => Some(markup_up_to(bytes, after, Effect::Say(Html::Nothing))),
    }
}
