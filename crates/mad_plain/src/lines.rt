//! Lines: what each shows.

ghost use Rattle.std.specs.Prelude.{◌≡◌, ◌↔◌, ◌++◌, false, length, chars, IfOk, OnOk};
ghost use Rattle.std.specs.Cow.{IsOwnedStr};
ghost use Rattle.mad_plain.specs.Lines.{shown_char, line_chars, is_plain_char, are_plain};
ghost use Rattle.mad_plain.specs.Shown.{shown_of, shown_so_far};

use crate::fronts::{cut_first, second};
use crate::pens::pen_after;
use crate::places::{
    Place, command_at, is_struck, line_start, passed, strikes_after, style_at, tab_len,
};
use crate::shown::{PlainLine, ShownLine};
use mad_characters::{is_printable_char, picture};
use std::alloc::{AllocError, Global};
use std::borrow::CowStr;

fn is_plain_char(c: char) -> bool
    ensures { result ≡ is_plain_char c }
{
    is_printable_char(c) && c != '\n'
}

fn is_plain(text: &str) -> bool
    ensures { result ≡ are_plain (chars text.now) }
{
    let mut rest = text;
    while let Some((c, next)) = cut_first(rest) {
        if !is_plain_char(c) {
            return false;
        }
        rest = next;
    }
    true
}

// One more character, as it is shown.
fn push_shown(shown: &mut ShownLine, place: Place, c: char) -> Result<(), AllocError>
    ensures { OnOk result (shown_so_far shown.new ≡ shown_so_far shown.old ++ shown_char place c) }
{
    let style = style_at(place);
    if c == '\t' {
        shown.push_blanks(style, tab_len(place.column))
    } else {
        shown.push(style, picture(c))
    }
}

// What a line shows, character by character.
fn read_line(alloc: Global, text: &str) -> Result<PlainLine<'static>, AllocError>
    ensures owned { IfOk result (λ line. IsOwnedStr line.text) }
    ensures shown { IfOk result (λ line. shown_of line ≡ line_chars (chars text.now)) }
{
    let mut shown = ShownLine::new(alloc, text.len())?;
    let mut place = line_start();
    let mut skip: usize = 0;
    let mut rest = text;
    while let Some((c, next)) = cut_first(rest) {
        rest = next;
        if skip > 0 {
            skip -= 1;
            continue;
        }
        let command = command_at(c, next);
        if command != 0 {
            let pen = pen_after(alloc, place.pen, next)?;
            place = Place { pen, ..place };
            skip = command;
            continue;
        }
        if is_struck(c, next) {
            let now = strikes_after(place.now, place.before, c, second(next));
            place = Place { now, ..place };
            skip = 1;
            continue;
        }
        push_shown(&mut shown, place, c)?;
        place = passed(place, c);
    }
    let line = shown.end()?;
    Ok(line)
}

/// What a line shows. A text without tabs and control characters is borrowed, and has no runs.
///
/// One pass: what a broken command is looked at for holds no other ESC, so no character is looked at more than a few times.
///
/// # Errors
///
/// Out of memory is the only error. It can't be where the text is borrowed.
pub fn plain_line(alloc: Global, text: &str) -> Result<PlainLine<'_>, AllocError>
    ensures shown { IfOk result (λ line. shown_of line ≡ line_chars (chars text.now)) }
    ensures borrowed { IfOk result (λ line. IsOwnedStr line.text ↔ are_plain (chars text.now) ≡ false) }
{
    if is_plain(text) {
        return Ok(PlainLine {
            text: CowStr::Borrowed(text),
            runs: Vec::new(alloc),
        });
    }
    read_line(alloc, text)
}
