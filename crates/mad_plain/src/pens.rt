//! Pens: the styles that commands set.

ghost use Rattle.std.specs.Prelude.{◌≡◌, ◌≤◌, ◌<◌, false, chars, length, Some, IfOk, if◌then◌else◌};
ghost use Rattle.mad_term.specs.declared.color.Color.TheVariants.{AnsiValue};
ghost use Rattle.mad_plain.specs.Pens.{plain_pen, with_digit, part, parts_from, is_setting, set_low, unset, set_color_number, set_number, number_at, is_color_kind, set_color, set_palette, set_mixed, joined_len, are_single, is_palette_color, is_mixed_color, set_joined, set_part, taken, set_parts, pen_after};

use crate::fronts::cut_first;
use mad_term::Color;
use std::alloc::{AllocError, Global};

/// How characters look: what commands have set.
#[derive(Clone, Copy, Debug, PartialEq, Eq)]
pub struct Pen {
    /// The color of the characters.
    pub foreground: Option<Color>,
    /// The color of their cells.
    pub background: Option<Color>,
    /// The color of the line below them.
    pub underline: Option<Color>,
    pub bold: bool,
    pub dim: bool,
    pub italic: bool,
    pub underlined: bool,
    pub blinking: bool,
    pub reversed: bool,
    pub hidden: bool,
    pub crossed_out: bool,
    pub overlined: bool,
}

/// A number of a command, joined to the one before it or not. 256 is any number that no command knows.
#[derive(Clone, Copy, Debug)]
pub struct Part {
    pub joined: bool,
    pub number: u16,
}

/// The pen that sets nothing.
pub fn plain_pen() -> Pen
    ensures { result ≡ plain_pen }
{
    Pen {
        foreground: None,
        background: None,
        underline: None,
        bold: false,
        dim: false,
        italic: false,
        underlined: false,
        blinking: false,
        reversed: false,
        hidden: false,
        crossed_out: false,
        overlined: false,
    }
}

fn with_digit(n: u16, c: char) -> u16
    requires few { n ≤ 256 }
    requires digit { c ≤ 57 }
    ensures value { result ≡ with_digit n c }
    ensures few { result ≤ 256 }
{
    let digit = (c as u32).saturating_sub(48);
    let all = 10 * u32::from(n) + digit;
    if all < 256 { all as u16 } else { 256 }
}

// The parts of parameters, up to the final character.
fn parts_of(alloc: Global, text: &str) -> Result<Vec<Part>, AllocError>
    ensures { IfOk result (λ parts. parts.items ≡ parts_from false 0 (chars text.now)) }
{
    let mut parts = Vec::new(alloc);
    let mut rest = text;
    let mut joined = false;
    let mut number = 0;
    while let Some((c, next)) = cut_first(rest) {
        rest = next;
        if c.is_ascii_digit() {
            number = with_digit(number, c);
            continue;
        }
        if c != ';' && c != ':' {
            break;
        }
        parts.push(Part { joined, number })?;
        joined = c == ':';
        number = 0;
    }
    parts.push(Part { joined, number })?;
    Ok(parts)
}

// Whether these are digits, semicolons and colons, and then `m`.
fn is_setting(text: &str) -> bool
    ensures { result ≡ is_setting (chars text.now) }
{
    let mut rest = text;
    while let Some((c, next)) = cut_first(rest) {
        rest = next;
        if c.is_ascii_digit() || c == ':' || c == ';' {
            continue;
        }
        return c == 'm';
    }
    false
}

fn set_low(n: u16, pen: Pen) -> Pen
    ensures { result ≡ set_low n pen }
{
    match n {
        0 => plain_pen(),
        1 => Pen { bold: true, ..pen },
        2 => Pen { dim: true, ..pen },
        3 => Pen {
            italic: true,
            ..pen
        },
        4 | 21 => Pen {
            underlined: true,
            ..pen
        },
        5 | 6 => Pen {
            blinking: true,
            ..pen
        },
        7 => Pen {
            reversed: true,
            ..pen
        },
        8 => Pen {
            hidden: true,
            ..pen
        },
        9 => Pen {
            crossed_out: true,
            ..pen
        },
        _ => pen,
    }
}

fn unset(n: u16, pen: Pen) -> Pen
    ensures { result ≡ unset n pen }
{
    match n {
        22 => Pen {
            bold: false,
            dim: false,
            ..pen
        },
        23 => Pen {
            italic: false,
            ..pen
        },
        24 => Pen {
            underlined: false,
            ..pen
        },
        25 => Pen {
            blinking: false,
            ..pen
        },
        27 => Pen {
            reversed: false,
            ..pen
        },
        28 => Pen {
            hidden: false,
            ..pen
        },
        29 => Pen {
            crossed_out: false,
            ..pen
        },
        53 => Pen {
            overlined: true,
            ..pen
        },
        55 => Pen {
            overlined: false,
            ..pen
        },
        _ => pen,
    }
}

fn palette(n: u16) -> Option<Color>
    requires { n < 256 }
    ensures { result ≡ Some (AnsiValue n) }
{
    Some(Color::AnsiValue(n as u8))
}

fn set_color_number(n: u16, pen: Pen) -> Pen
    ensures { result ≡ set_color_number n pen }
{
    match n {
        30..=37 => Pen {
            foreground: palette(n - 30),
            ..pen
        },
        40..=47 => Pen {
            background: palette(n - 40),
            ..pen
        },
        90..=97 => Pen {
            foreground: palette(n - 82),
            ..pen
        },
        100..=107 => Pen {
            background: palette(n - 92),
            ..pen
        },
        39 => Pen {
            foreground: None,
            ..pen
        },
        49 => Pen {
            background: None,
            ..pen
        },
        59 => Pen {
            underline: None,
            ..pen
        },
        _ => pen,
    }
}

fn set_number(n: u16, pen: Pen) -> Pen
    ensures { result ≡ set_number n pen }
{
    if n < 22 {
        set_low(n, pen)
    } else if n < 30 || 50 < n && n < 56 {
        unset(n, pen)
    } else {
        set_color_number(n, pen)
    }
}

fn number_at(parts: &[Part], i: usize) -> u16
    ensures { result ≡ number_at parts.now i }
{
    if i < parts.len() {
        parts[i].number
    } else {
        256
    }
}

fn is_color_kind(n: u16) -> bool
    ensures { result ≡ is_color_kind n }
{
    matches!(n, 38 | 48 | 58)
}

fn set_color(kind: u16, color: Color, pen: Pen) -> Pen
    ensures { result ≡ set_color kind color pen }
{
    match kind {
        38 => Pen {
            foreground: Some(color),
            ..pen
        },
        48 => Pen {
            background: Some(color),
            ..pen
        },
        _ => Pen {
            underline: Some(color),
            ..pen
        },
    }
}

fn set_palette(kind: u16, n: u16, pen: Pen) -> Pen
    ensures { result ≡ set_palette kind n pen }
{
    if n < 256 {
        set_color(kind, Color::AnsiValue(n as u8), pen)
    } else {
        pen
    }
}

fn set_mixed(kind: u16, r: u16, g: u16, b: u16, pen: Pen) -> Pen
    ensures { result ≡ set_mixed kind r g b pen }
{
    if r < 256 && g < 256 && b < 256 {
        let color = Color::Rgb {
            r: r as u8,
            g: g as u8,
            b: b as u8,
        };
        set_color(kind, color, pen)
    } else {
        pen
    }
}

// How many parts are joined to the one before.
fn joined_len(parts: &[Part]) -> usize
    ensures value { result ≡ joined_len parts.now }
    ensures within { result ≤ length parts.now }
{
    let mut rest = parts;
    let mut joined = 0;
    while let [p, next @ ..] = rest {
        if !p.joined {
            return joined;
        }
        joined += 1;
        rest = next;
    }
    joined
}

fn are_two_single(parts: &[Part]) -> bool
    ensures { result ≡ are_single 2 parts.now }
{
    match parts {
        [a, b, rest @ ..] => !a.joined && !b.joined && joined_len(rest) == 0,
        _ => false,
    }
}

fn are_four_single(parts: &[Part]) -> bool
    ensures { result ≡ are_single 4 parts.now }
{
    match parts {
        [a, b, c, d, rest @ ..] => {
            !a.joined && !b.joined && !c.joined && !d.joined && joined_len(rest) == 0
        }
        _ => false,
    }
}

fn is_palette_color(parts: &[Part]) -> bool
    ensures { result ≡ is_palette_color parts.now }
{
    number_at(parts, 0) == 5 && are_two_single(parts)
}

fn is_mixed_color(parts: &[Part]) -> bool
    ensures { result ≡ is_mixed_color parts.now }
{
    number_at(parts, 0) == 2 && are_four_single(parts)
}

fn set_joined(joined: usize, n: u16, parts: &[Part], pen: Pen) -> Pen
    ensures { result ≡ set_joined joined n parts.now pen }
{
    let first = number_at(parts, 0);
    if n == 4 {
        if joined == 1 {
            Pen {
                underlined: first != 0,
                ..pen
            }
        } else {
            pen
        }
    } else if !is_color_kind(n) {
        pen
    } else if first == 5 && joined == 2 {
        set_palette(n, number_at(parts, 1), pen)
    } else if first == 2 && joined == 4 {
        set_mixed(
            n,
            number_at(parts, 1),
            number_at(parts, 2),
            number_at(parts, 3),
            pen,
        )
    } else if first == 2 && joined == 5 {
        set_mixed(
            n,
            number_at(parts, 2),
            number_at(parts, 3),
            number_at(parts, 4),
            pen,
        )
    } else {
        pen
    }
}

// What a number makes of the pen, with the parts behind it.
fn set_part(n: u16, parts: &[Part], pen: Pen) -> Pen
    ensures { result ≡ set_part n parts.now pen }
{
    let joined = joined_len(parts);
    if joined != 0 {
        set_joined(joined, n, parts, pen)
    } else if !is_color_kind(n) {
        set_number(n, pen)
    } else if is_palette_color(parts) {
        set_palette(n, number_at(parts, 1), pen)
    } else if is_mixed_color(parts) {
        set_mixed(
            n,
            number_at(parts, 1),
            number_at(parts, 2),
            number_at(parts, 3),
            pen,
        )
    } else {
        pen
    }
}

// How many of the parts behind it go with a number.
fn taken(n: u16, parts: &[Part]) -> usize
    ensures { result ≡ taken n parts.now }
{
    let joined = joined_len(parts);
    if joined != 0 {
        joined
    } else if !is_color_kind(n) {
        0
    } else if is_palette_color(parts) {
        2
    } else if is_mixed_color(parts) {
        4
    } else {
        parts.len()
    }
}

fn set_parts(pen: Pen, parts: &[Part]) -> Pen
    ensures { result ≡ set_parts pen 0 parts.now }
{
    let mut pen = pen;
    let mut skip: usize = 0;
    let mut rest = parts;
    while let [p, next @ ..] = rest {
        rest = next;
        if skip > 0 {
            skip -= 1;
            continue;
        }
        pen = set_part(p.number, next, pen);
        skip = taken(p.number, next);
    }
    pen
}

/// The pen after a command, by what is behind its ESC.
///
/// # Errors
///
/// Out of memory is the only error.
pub fn pen_after(alloc: Global, pen: Pen, text: &str) -> Result<Pen, AllocError>
    ensures { IfOk result (λ after. after ≡ pen_after pen (chars text.now)) }
{
    match cut_first(text) {
        Some(('[', rest)) => settings_after(alloc, pen, rest),
        _ => Ok(pen),
    }
}

// The pen after a control sequence, by what is behind its bracket.
fn settings_after(alloc: Global, pen: Pen, text: &str) -> Result<Pen, AllocError>
    ensures { IfOk result (λ after. after ≡ (if is_setting (chars text.now) then set_parts pen 0 (parts_from false 0 (chars text.now)) else pen)) }
{
    if !is_setting(text) {
        return Ok(pen);
    }
    let parts = parts_of(alloc, text)?;
    Ok(set_parts(pen, &parts))
}
