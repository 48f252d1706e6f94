//! Texts that one doesn't trust: without the characters that a terminal obeys.

ghost use Rattle.std.specs.Prelude.{◌≡◌, ◌≤◌, ◌↔◌, ◌++◌, false, true, length, chars, string_bytes, encode_utf8_all, IfOk, OnOk, OnErr, IsTrue};
ghost use Rattle.std.specs.Cow.{cow_str_bytes, IsOwnedStr};
ghost use Rattle.mad_measure.specs.KeptCells.{TableLinesKeepTheirCells};
ghost use Rattle.mad_measure.specs.KeptForms.{TextsArePrintableByLines, LinesKeepTheirForm, TabsInFrontStayCode};
ghost use Rattle.mad_measure.specs.Printable.{are_printable, tab_spaces, return_shown, shown_as, shown_from, printable_text, IsPrintableFront};

use crate::str_fit::TAB_REPLACEMENT;
use mad_characters::{is_printable_char, picture};
use std::alloc::{AllocError, Global};
use std::borrow::CowStr;

// What a tab that begins a line is written as: in Markdown such a line is code, as one of four spaces is.
const CODE_INDENT: &str = "    ";

/// The text without control characters but newlines, borrowed where nothing has to change.
///
/// Use it for each text that others wrote, before it is read as Markdown or put into a table: a terminal obeys an escape sequence
/// in a text. A tab that begins a line becomes four spaces, as such a line is code either way, and another tab
/// [`TAB_REPLACEMENT`]. A carriage return before a newline goes, and one that ends the text becomes a newline. Any other control
/// character up to U+001F becomes its picture, the character U+2400 further on, and DEL U+2421. The control characters from U+0080 to
/// U+009F become U+FFFD. So do those that turn the direction of writing, U+202A to U+202E and U+2066 to U+2069.
///
/// The result is printable itself. One pass over the text.
///
/// # Errors
///
/// Out of memory is the only error. It can't be where the text is printable.
pub fn printable(alloc: Global, text: &str) -> Result<CowStr<'_, Global>, AllocError>
    ensures text { IfOk result (λ shown. cow_str_bytes shown ≡ encode_utf8_all (printable_text (chars text.now))) }
    ensures borrowed { IfOk result (λ shown. IsOwnedStr shown ↔ are_printable (chars text.now) ≡ false) }
    ensures again { IfOk result (λ shown. are_printable (chars (cow_str_bytes shown)) ≡ true) }
    ensures err { OnErr result (are_printable (chars text.now) ≡ false) }
{
    let (bytes, begins_line) = printable_front(text);
    if bytes == text.len() {
        return Ok(CowStr::Borrowed(text));
    }
    let mut shown = String::with_capacity(alloc, text.len())?;
    shown.push_str(&text[..bytes])?;
    push_shown_from(&mut shown, begins_line, &text[bytes..])?;
    Ok(CowStr::Owned(shown))
}

/// Whether [`printable`] leaves the text unchanged: it has no control character but newlines, and none that turns the direction of
/// writing.
///
/// It stops at the first character that isn't printable.
pub fn is_printable(text: &str) -> bool
    ensures unchanged { IsTrue result ↔ printable_text (chars text.now) ≡ chars text.now }
    ensures each { result ≡ are_printable (chars text.now) }
{
    printable_front(text).0 == text.len()
}

// How many bytes come before the first character that isn't printable, and whether that begins a line.
fn printable_front(text: &str) -> (usize, bool)
    ensures front { IsPrintableFront text.now result.0 result.1 }
    ensures inside { result.0 ≤ length text.now }
{
    let mut begins_line = true;
    for (start, c) in text.char_indices() {
        if !is_printable_char(c) {
            return (start, begins_line);
        }
        begins_line = c == '\n';
    }
    (text.len(), begins_line)
}

// Writes what stands for the text, the first character of which begins a line or doesn't.
fn push_shown_from(shown: &mut String, mut begins_line: bool, text: &str) -> Result<(), AllocError>
    ensures { OnOk result (string_bytes shown.new ≡ string_bytes shown.old ++ encode_utf8_all (shown_from begins_line (chars text.now))) }
{
    let mut rest = text.chars();
    while let Some(c) = rest.next() {
        push_shown(shown, begins_line, c, rest.as_str())?;
        begins_line = c == '\n';
    }
    Ok(())
}

// Writes what stands for a character that begins a line or doesn't, with this text after it.
fn push_shown(shown: &mut String, begins_line: bool, c: char, after: &str) -> Result<(), AllocError>
    ensures { OnOk result (string_bytes shown.new ≡ string_bytes shown.old ++ encode_utf8_all (shown_as begins_line c (chars after.now))) }
{
    match c {
        '\t' => shown.push_str(tab_shown(begins_line)),
        '\r' => shown.push_str(return_shown(after)),
        _ => shown.push(picture(c)),
    }
}

// What stands for a tab that begins a line or doesn't.
fn tab_shown(begins_line: bool) -> &'static str
    ensures { result.now ≡ encode_utf8_all (tab_spaces begins_line) }
{
    if begins_line {
        CODE_INDENT
    } else {
        TAB_REPLACEMENT
    }
}

// What stands for a carriage return with this text after it.
fn return_shown(after: &str) -> &'static str
    ensures { result.now ≡ encode_utf8_all (return_shown (chars after.now)) }
{
    match after.chars().next() {
        None => "\n",
        Some('\n') => "",
        Some(_) => "\u{240d}",
    }
}

/// What a line is stays what it is: a text becomes printable line by line, and each line outside code blocks keeps its form. A tab in
/// front is code either way, and a carriage return at a line's end goes either way.
///
/// The line of a table keeps its cells, where none of its whitespace is a control character. It is cut at the same bars, and each cell
/// has the same style, and the same compounds in printable texts. So it is the same rule, or a row of as many cells.
pub fn printable_lines_keep_their_form()
    ensures lines { TextsArePrintableByLines }
    ensures form { LinesKeepTheirForm }
    ensures tab { TabsInFrontStayCode }
    ensures cells { TableLinesKeepTheirCells }
{}
