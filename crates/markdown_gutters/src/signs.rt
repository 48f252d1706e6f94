//! What a paragraph may begin with that isn't text: the box of a task, or the line of an alert.

ghost use Rattle.std.specs.Prelude.{◌≡◌, ◌≤◌, ◌+◌, length, take, drop, slice_index};
ghost use Rattle.std.specs.Str.{str_eq_ignore_ascii_case};
ghost use Rattle.markdown_gutters.specs.Signs.{is_tick, ends_line, after_box, has_box, box_of, line_len, first_line, after_line, alert_word, alert_in, alert_of};

use mad_sections::Alert;
use markdown_marks::bytes::{first, is_blank_byte, without_blanks};
use markdown_marks::headings::without_end;

// The byte of this index, 0 if there is none.
fn byte_at(text: &[u8], index: usize) -> u8
    ensures { result ≡ slice_index text.now index }
{
    if index < text.len() { text[index] } else { 0 }
}

/// The bytes after so many.
pub fn back(text: &[u8], count: usize) -> &[u8]
    ensures { result.now ≡ drop count text.entry.now }
{
    if count < text.len() {
        &text[count..]
    } else {
        &text[text.len()..]
    }
}

/// So many of the first bytes.
pub fn front(text: &[u8], count: usize) -> &[u8]
    ensures { result.now ≡ take count text.entry.now }
{
    if count < text.len() {
        &text[..count]
    } else {
        text
    }
}

// ---- tasks

fn is_tick(byte: u8) -> bool
    ensures { result ≡ is_tick byte }
{
    byte == b'x' || byte == b'X'
}

// Whether nothing is left of a line.
fn ends_line(text: &[u8]) -> bool
    ensures { result ≡ ends_line text.now }
{
    text.is_empty() || first(text) == b'\n'
}

/// What is behind the box of a task, and the blanks after it.
pub fn after_box(text: &[u8]) -> &[u8]
    ensures { result.now ≡ after_box text.entry.now }
{
    without_blanks(back(text, 3))
}

// Whether the box of a task is in front of a text, then a blank, and in the same line something else.
fn has_box(text: &[u8]) -> bool
    ensures { result ≡ has_box text.now }
{
    byte_at(text, 0) == b'['
        && (byte_at(text, 1) == b' ' || is_tick(byte_at(text, 1)))
        && byte_at(text, 2) == b']'
        && is_blank_byte(byte_at(text, 3))
        && !ends_line(after_box(text))
}

/// Whether the box of a task is in front of a text, and then whether it is ticked.
pub fn box_of(text: &[u8]) -> Option<bool>
    ensures { result ≡ box_of text.now }
{
    if has_box(text) {
        Some(is_tick(byte_at(text, 1)))
    } else {
        None
    }
}

// ---- alerts

// How many bytes are before the first newline, or in all.
#[tactic(auto, unfolding(crate::specs::Signs::line_len))]
fn line_len(text: &[u8]) -> usize
    ensures value { result ≡ line_len text.now }
    ensures within { result ≤ length text.now }
{
    let mut rest = text;
    let mut len = 0;
    while let [byte, next @ ..] = rest {
        if *byte == b'\n' {
            return len;
        }
        len += 1;
        rest = next;
    }
    len
}

// The first line, without the blanks at its end.
fn first_line(text: &[u8]) -> &[u8]
    ensures { result.now ≡ first_line text.entry.now }
{
    without_end(b' ', b'\t', front(text, line_len(text)))
}

/// The lines after the first.
pub fn after_line(text: &[u8]) -> &[u8]
    ensures { result.now ≡ after_line text.entry.now }
{
    back(text, line_len(text) + 1)
}

/// What an alert shows.
pub fn alert_word(alert: Alert) -> &'static str
    ensures { result.now ≡ alert_word alert }
{
    match alert {
        Alert::Note => "NOTE",
        Alert::Tip => "TIP",
        Alert::Important => "IMPORTANT",
        Alert::Warning => "WARNING",
        Alert::Caution => "CAUTION",
    }
}

// Whether a line is these letters, large or small.
fn is_line(line: &[u8], word: &[u8]) -> bool
    ensures { result ≡ str_eq_ignore_ascii_case line.now word.now }
{
    line.eq_ignore_ascii_case(word)
}

// The alert that a line is.
fn alert_in(line: &[u8]) -> Option<Alert>
    ensures { result ≡ alert_in line.now }
{
    if is_line(line, b"[!NOTE]") {
        return Some(Alert::Note);
    }
    if is_line(line, b"[!TIP]") {
        return Some(Alert::Tip);
    }
    if is_line(line, b"[!IMPORTANT]") {
        return Some(Alert::Important);
    }
    if is_line(line, b"[!WARNING]") {
        return Some(Alert::Warning);
    }
    if is_line(line, b"[!CAUTION]") {
        return Some(Alert::Caution);
    }
    None
}

/// The alert that the first line of a text is, alone in it.
pub fn alert_of(text: &[u8]) -> Option<Alert>
    ensures { result ≡ alert_of text.now }
{
    alert_in(first_line(text))
}
