//! Definitions of links at the beginning of a paragraph, as `[label]: destination "title"`. A text is given with its lines joined by newlines.
//!
//! Each function whose name begins with `after` answers what follows, and none where the part that it names isn't in front.

ghost use Rattle.std.specs.Prelude.{◌≡◌, ◌||◌, ◌≤◌, false, length};
ghost use Rattle.std.specs.Option.{option_copied};
ghost use Rattle.markdown_marks.specs.Definitions.{is_space_byte, is_mark_byte, counted, after_label, after_angle, bare_end, after_bare, after_destination, after_title, title_after, line_ended, after_line, after_newline, after_space, titled, after_target, after_colon, after_definition, are_definitions};

use crate::bytes::{first, is_blank_byte, tail, without_blanks};

/// Whether the byte is a space, a tab or a newline.
pub fn is_space_byte(b: u8) -> bool
    ensures { result ≡ is_space_byte b }
{
    is_blank_byte(b) || b == b'\n'
}

// Whether the byte is ASCII punctuation.
fn is_mark_byte(b: u8) -> bool
    ensures { result ≡ is_mark_byte b }
{
    matches!(b, b'!'..=b'/' | b':'..=b'@' | b'['..=b'`' | b'{'..=b'~')
}

// How many characters a byte counts for.
fn counted(b: u8) -> usize
    ensures value { result ≡ counted b }
    ensures few { result ≤ 1 }
{
    if b >= 128 && b < 192 { 0 } else { 1 }
}

// Whether one holds, or the other.
fn either(first: bool, second: bool) -> bool
    ensures { result ≡ (first || second) }
{
    first || second
}

/// What follows a label's closing bracket. The bytes are those after the opening one. A label has at most 999 characters or escapes, no
/// bracket but escaped ones, and is not blank.
#[tactic(auto, unfolding(crate::specs::Definitions::after_label))]
pub fn after_label(bytes: &[u8]) -> Option<&[u8]>
    ensures { option_copied result ≡ after_label 0 false false bytes.entry.now }
{
    let mut rest = bytes;
    let mut count = 0;
    let mut some = false;
    let mut escaped = false;
    while let [b, next @ ..] = rest {
        if escaped {
            rest = next;
            some = true;
            escaped = false;
            continue;
        }
        if *b == b']' {
            return if some { Some(next) } else { None };
        }
        if *b == b'[' || count >= 999 {
            return None;
        }
        count += counted(*b);
        some = either(some, !is_space_byte(*b));
        escaped = *b == b'\\';
        rest = next;
    }
    None
}

// What follows a destination between `<` and `>`, after the first of them.
#[tactic(auto, unfolding(crate::specs::Definitions::after_angle))]
fn after_angle(bytes: &[u8]) -> Option<&[u8]>
    ensures { option_copied result ≡ after_angle false bytes.entry.now }
{
    let mut rest = bytes;
    let mut escaped = false;
    while let [b, next @ ..] = rest {
        if *b == b'\n' {
            return None;
        }
        if escaped {
            rest = next;
            escaped = false;
            continue;
        }
        if *b == b'>' {
            return Some(next);
        }
        if *b == b'<' {
            return None;
        }
        escaped = *b == b'\\';
        rest = next;
    }
    None
}

// What is left at the end of a bare destination, if all its parentheses are closed.
fn bare_end(depth: usize, rest: &[u8]) -> Option<&[u8]>
    ensures { option_copied result ≡ bare_end depth rest.entry.now }
{
    if depth == 0 { Some(rest) } else { None }
}

// What follows a bare destination: it ends before a blank or a control character, and nests at most 32 parentheses.
#[tactic(auto, unfolding(crate::specs::Definitions::after_bare))]
fn after_bare(bytes: &[u8]) -> Option<&[u8]>
    ensures { option_copied result ≡ after_bare 0 false bytes.entry.now }
{
    let mut rest = bytes;
    let mut depth = 0;
    let mut escaped = false;
    while let [b, next @ ..] = rest {
        if escaped && is_mark_byte(*b) {
            rest = next;
            escaped = false;
            continue;
        }
        if *b <= b' ' || *b == 127 {
            return bare_end(depth, rest);
        }
        if *b == b'(' {
            if depth >= 32 {
                return None;
            }
            depth += 1;
            rest = next;
            escaped = false;
            continue;
        }
        if *b == b')' {
            if depth == 0 {
                return Some(rest);
            }
            depth -= 1;
            rest = next;
            escaped = false;
            continue;
        }
        escaped = *b == b'\\';
        rest = next;
    }
    bare_end(depth, rest)
}

/// What follows the destination of a link: in one line between `<` and `>`, or bare and of some bytes.
pub fn after_destination(text: &[u8]) -> Option<&[u8]>
    ensures { option_copied result ≡ after_destination text.entry.now }
{
    if first(text) == b'<' {
        return after_angle(tail(text, 1));
    }
    match after_bare(text) {
        None => None,
        Some(rest) => {
            if rest.len() == text.len() {
                None
            } else {
                Some(rest)
            }
        }
    }
}

// What follows a title that this byte ends.
#[tactic(auto, unfolding(crate::specs::Definitions::after_title))]
fn after_title(close: u8, bytes: &[u8]) -> Option<&[u8]>
    ensures { option_copied result ≡ after_title close false bytes.entry.now }
{
    let mut rest = bytes;
    let mut escaped = false;
    while let [b, next @ ..] = rest {
        if escaped {
            rest = next;
            escaped = false;
            continue;
        }
        if *b == close {
            return Some(next);
        }
        if *b == b'(' && close == b')' {
            return None;
        }
        escaped = *b == b'\\';
        rest = next;
    }
    None
}

/// What follows the title of a link, which is in double or single quotes or in parentheses.
pub fn title_after(text: &[u8]) -> Option<&[u8]>
    ensures { option_copied result ≡ title_after text.entry.now }
{
    match first(text) {
        b'"' => after_title(b'"', tail(text, 1)),
        b'\'' => after_title(b'\'', tail(text, 1)),
        b'(' => after_title(b')', tail(text, 1)),
        _ => None,
    }
}

// What follows the end of a line that is in front, which the end of the text is too.
fn line_ended(text: &[u8]) -> Option<&[u8]>
    ensures { option_copied result ≡ line_ended text.entry.now }
{
    match text {
        [] => Some(text),
        [b'\n', rest @ ..] => Some(rest),
        _ => None,
    }
}

// The text after this line, if nothing but blanks is left of it.
fn after_line(text: &[u8]) -> Option<&[u8]>
    ensures { option_copied result ≡ after_line text.entry.now }
{
    line_ended(without_blanks(text))
}

// Without the end of a line in front, and the blanks after it.
fn after_newline(text: &[u8]) -> &[u8]
    ensures { result.now ≡ after_newline text.entry.now }
{
    match text {
        [b'\n', rest @ ..] => without_blanks(rest),
        _ => text,
    }
}

/// The text without the blanks in front, among which may be the end of one line.
pub fn after_space(text: &[u8]) -> &[u8]
    ensures { result.now ≡ after_space text.entry.now }
{
    after_newline(without_blanks(text))
}

// A title after blanks, and then the end of its line.
fn titled(text: &[u8]) -> Option<&[u8]>
    ensures { option_copied result ≡ titled text.entry.now }
{
    let rest = after_space(text);
    if rest.len() == text.len() {
        return None;
    }
    match title_after(rest) {
        None => None,
        Some(rest) => after_line(rest),
    }
}

// What follows a destination: a title, or nothing more in this line.
fn after_target(text: &[u8]) -> Option<&[u8]>
    ensures { option_copied result ≡ after_target text.entry.now }
{
    match titled(text) {
        None => after_line(text),
        Some(rest) => Some(rest),
    }
}

// What follows a label: a colon, and the rest of the definition.
fn after_colon(text: &[u8]) -> Option<&[u8]>
    ensures { option_copied result ≡ after_colon text.entry.now }
{
    if first(text) != b':' {
        return None;
    }
    match after_destination(after_space(tail(text, 1))) {
        None => None,
        Some(rest) => after_target(rest),
    }
}

/// What follows the definition of a link that the text begins with, from the next line on.
#[tactic(auto, unfolding(crate::specs::Definitions::after_definition))]
pub fn after_definition(text: &[u8]) -> Option<&[u8]>
    ensures { option_copied result ≡ after_definition text.entry.now }
{
    if first(text) != b'[' {
        return None;
    }
    match after_label(tail(text, 1)) {
        None => None,
        Some(rest) => after_colon(rest),
    }
}

/// Whether the text is nothing but definitions.
#[tactic(auto, unfolding(crate::specs::Definitions::are_definitions))]
pub fn are_definitions(text: &[u8]) -> bool
    ensures { result ≡ are_definitions (length text.now) text.now }
{
    let mut rest = text;
    let mut count = text.len();
    while !rest.is_empty() {
        if count == 0 {
            return false;
        }
        match after_definition(rest) {
            None => return false,
            Some(next) => {
                rest = next;
                count -= 1;
            }
        }
    }
    true
}
