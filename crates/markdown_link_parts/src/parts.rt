//! Destinations and titles, as they are written.

ghost use Rattle.std.specs.Prelude.{◌≡◌};
ghost use Rattle.markdown_marks.specs.Definitions.{after_destination, title_after};
ghost use Rattle.markdown_link_parts.specs.Parts.{before, inner, destination_in, title_in, behind, inline_text, inline_destination, inline_title, defined_text, defined_destination, ends_line, is_title, defined_title_in, defined_title};

use markdown_marks::bytes::{first, without_blanks};
use markdown_marks::definitions::{after_destination, after_label, after_space, title_after};
use markdown_spans::words::{bytes_from, bytes_up_to};

// The destination in front, with its angle brackets.
fn destination_part(text: &[u8]) -> &[u8]
    ensures { result.now ≡ before text.now (after_destination text.now) }
{
    match after_destination(text) {
        None => &[],
        Some(rest) => bytes_up_to(text, text.len().saturating_sub(rest.len())),
    }
}

// The title in front, with its quotes or parentheses.
fn title_part(text: &[u8]) -> &[u8]
    ensures { result.now ≡ before text.now (title_after text.now) }
{
    match title_after(text) {
        None => &[],
        Some(rest) => bytes_up_to(text, text.len().saturating_sub(rest.len())),
    }
}

// Without the first byte and the last.
fn inner(text: &[u8]) -> &[u8]
    ensures { result.now ≡ inner text.now }
{
    bytes_from(bytes_up_to(text, text.len().saturating_sub(1)), 1)
}

fn destination_in(text: &[u8]) -> &[u8]
    ensures { result.now ≡ destination_in text.now }
{
    let part = destination_part(text);
    if first(text) == b'<' {
        inner(part)
    } else {
        part
    }
}

fn title_in(text: &[u8]) -> &[u8]
    ensures { result.now ≡ title_in text.now }
{
    inner(title_part(text))
}

// What follows the blanks behind a destination.
fn behind_destination(text: &[u8]) -> &[u8]
    ensures { result.now ≡ behind (after_destination text.now) }
{
    match after_destination(text) {
        None => &[],
        Some(rest) => after_space(rest),
    }
}

fn inline_text(link: &[u8]) -> &[u8]
    ensures { result.now ≡ inline_text link.now }
{
    after_space(bytes_from(link, 1))
}

/// The destination of a link, of which these are the parentheses and what is between them.
pub fn inline_destination(link: &[u8]) -> &[u8]
    ensures { result.now ≡ inline_destination link.now }
{
    destination_in(inline_text(link))
}

/// The title of such a link, without its quotes or parentheses; empty without one.
pub fn inline_title(link: &[u8]) -> &[u8]
    ensures { result.now ≡ inline_title link.now }
{
    title_in(behind_destination(inline_text(link)))
}

// What follows the label of a definition, its colon and blanks.
fn defined_text(definition: &[u8]) -> &[u8]
    ensures { result.now ≡ defined_text definition.now }
{
    match after_label(bytes_from(definition, 1)) {
        None => &[],
        Some(rest) => after_space(bytes_from(rest, 1)),
    }
}

/// The destination of the definition that a text begins with.
pub fn defined_destination(definition: &[u8]) -> &[u8]
    ensures { result.now ≡ defined_destination definition.now }
{
    destination_in(defined_text(definition))
}

fn ends_line(text: &[u8]) -> bool
    ensures { result ≡ ends_line text.now }
{
    match text {
        [] => true,
        [b, ..] => *b == b'\n',
    }
}

// Whether a title is in front, which has the rest of its line alone.
fn is_title(text: &[u8]) -> bool
    ensures { result ≡ is_title (title_after text.now) }
{
    match title_after(text) {
        None => false,
        Some(rest) => ends_line(without_blanks(rest)),
    }
}

// The title in front of a text, which follows a destination and blanks.
fn defined_title_in<'t>(rest: &[u8], text: &'t [u8]) -> &'t [u8]
    ensures { result.now ≡ defined_title_in rest.now text.now }
{
    if text.len() == rest.len() {
        return &[];
    }
    if is_title(text) {
        return title_in(text);
    }
    &[]
}

/// The title of the definition that a text begins with, without its quotes or parentheses; empty without one.
pub fn defined_title(definition: &[u8]) -> &[u8]
    ensures { result.now ≡ defined_title definition.now }
{
    match after_destination(defined_text(definition)) {
        None => &[],
        Some(rest) => defined_title_in(rest, after_space(rest)),
    }
}
