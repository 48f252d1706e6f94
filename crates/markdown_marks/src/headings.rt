//! The text of a heading, without the signs `#` that close it.

ghost use Rattle.std.specs.Prelude.{◌≡◌, ◌≤◌, length};
ghost use Rattle.markdown_marks.specs.Headings.{is_either, without_end, without_closing, heading_text};

use crate::bytes::{is_blank_byte, without_blanks};

fn is_either(first: u8, second: u8, b: u8) -> bool
    ensures { result ≡ is_either first second b }
{
    b == first || b == second
}

/// The bytes without all at the end that are one of these two.
pub fn without_end(first: u8, second: u8, bytes: &[u8]) -> &[u8]
    ensures { result.now ≡ without_end first second bytes.entry.now }
{
    let mut len = bytes.len();
    while len > 0 && is_either(first, second, bytes[len - 1]) {
        len -= 1;
    }
    &bytes[..len]
}

// Without the signs at the end, if a blank is before them, or nothing.
fn without_closing(text: &[u8]) -> &[u8]
    ensures { result.now ≡ without_closing text.entry.now }
{
    let front = without_end(b'#', b'#', text);
    if front.is_empty() || is_blank_byte(front[front.len() - 1]) {
        without_end(b' ', b'\t', front)
    } else {
        text
    }
}

/// The text of a heading: what follows its level, without blanks at both ends and without the signs that close it.
#[tactic(auto, unfolding(crate::specs::Headings::heading_text))]
pub fn heading_text(bytes: &[u8]) -> &[u8]
    ensures { result.now ≡ heading_text bytes.entry.now }
{
    without_closing(without_end(b' ', b'\t', without_blanks(bytes)))
}
