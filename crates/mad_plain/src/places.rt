//! Places in a line: what commands and overstrikes make of the next character.

ghost use Rattle.std.specs.Prelude.{◌≡◌, chars};
ghost use Rattle.mad_plain.specs.Lines.{no_strikes, strikes_any, is_struck, low_line_strikes, strikes_after, line_start, style_at, tab_len, column_after, passed, command_at};

use crate::commands::command_len;
use crate::fronts::{first, second};
use crate::pens::{Pen, plain_pen};
use mad_characters::{char_columns, picture};

/// What overstrikes say of a character.
#[derive(Clone, Copy, Debug)]
pub struct Strikes {
    pub bold: bool,
    pub underlined: bool,
}

/// A place in a line.
#[derive(Clone, Copy, Debug)]
pub struct Place {
    /// What commands have set.
    pub pen: Pen,
    /// What overstrikes say of the next character.
    pub now: Strikes,
    /// What the last overstrikes of the line said.
    pub before: Strikes,
    /// The columns that are shown before it, up to multiples of eight.
    pub column: usize,
}

fn no_strikes() -> Strikes
    ensures { result ≡ no_strikes }
{
    Strikes {
        bold: false,
        underlined: false,
    }
}

fn strikes_any(strikes: Strikes) -> bool
    ensures { result ≡ strikes_any strikes }
{
    strikes.bold || strikes.underlined
}

// Whether the character, a backspace and a second one are an overstrike.
pub(crate) fn is_struck(c: char, after: &str) -> bool
    ensures { result ≡ is_struck c (chars after.now) }
{
    if first(after) != '\u{8}' || c.is_control() {
        return false;
    }
    let struck = second(after);
    !struck.is_control() && (c == '_' || c == struck)
}

fn low_line_strikes(now: Strikes, before: Strikes) -> Strikes
    ensures { result ≡ low_line_strikes now before }
{
    if strikes_any(now) {
        Strikes {
            bold: true,
            underlined: true,
        }
    } else if strikes_any(before) {
        before
    } else {
        Strikes {
            bold: true,
            underlined: false,
        }
    }
}

// What overstrikes say of a character, where `now` is what they said of the one below it.
pub(crate) fn strikes_after(now: Strikes, before: Strikes, c: char, second: char) -> Strikes
    ensures { result ≡ strikes_after now before c second }
{
    if c == '_' && second == '_' {
        low_line_strikes(now, before)
    } else if c == second {
        Strikes { bold: true, ..now }
    } else {
        Strikes {
            underlined: true,
            ..now
        }
    }
}

pub(crate) fn line_start() -> Place
    ensures { result ≡ line_start }
{
    Place {
        pen: plain_pen(),
        now: no_strikes(),
        before: no_strikes(),
        column: 0,
    }
}

pub(crate) fn style_at(place: Place) -> Pen
    ensures { result ≡ style_at place }
{
    Pen {
        bold: place.pen.bold || place.now.bold,
        underlined: place.pen.underlined || place.now.underlined,
        ..place.pen
    }
}

pub(crate) fn tab_len(column: usize) -> usize
    ensures { result ≡ tab_len column }
{
    8 - column % 8
}

fn column_after(column: usize, c: char) -> usize
    ensures { result ≡ column_after column c }
{
    if c == '\t' {
        0
    } else {
        (column % 8 + char_columns(picture(c))) % 8
    }
}

// The place behind a character that is shown.
pub(crate) fn passed(place: Place, c: char) -> Place
    ensures { result ≡ passed place c }
{
    Place {
        pen: place.pen,
        now: no_strikes(),
        before: if strikes_any(place.now) {
            place.now
        } else {
            place.before
        },
        column: column_after(place.column, c),
    }
}

// How many characters behind this one are a command's.
pub(crate) fn command_at(c: char, after: &str) -> usize
    ensures { result ≡ command_at c (chars after.now) }
{
    if c == '\u{1b}' { command_len(after) } else { 0 }
}
