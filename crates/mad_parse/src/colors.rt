//! Colors as texts.

ghost use Rattle.std.specs.Prelude.{◌≡◌, ◌<◌, IsErrOf};
ghost use Rattle.std.specs.Char.{is_ascii_hexdigit};
ghost use Rattle.std.specs.List.{list_all};
ghost use Rattle.mad_parse.specs.Colors.{color_of, color_names, color_name, color_text, hex_color, hex_digit, hex_twice, hex_pair, called_color, rgb_parts, ansi_color, gray_color, rgb_color, is_gray};
ghost use Rattle.mad_term.specs.Draws.{Draws};
ghost use Rattle.mad_term.specs.declared.errors.Error.TheVariants.{Memory};
ghost use Rattle.mad_parse.specs.Names.{named};

use crate::errors::ParseColorError;
use crate::names::named;
use crate::numbers::parse_byte;
use mad_style::gray;
use mad_term::{Color, Error, Out, put_displayed};
use std::alloc::Global;
use std::fmt;

/// The color that a text says, without regard to ASCII case. It may be a name, as `red` or `darkgrey`, or
/// `ansi(n)`, `gray(level)`, `rgb(r,g,b)`, or `#` and 3 to 6 hex digits. `black` and `white` are the palette's numbers 16 and 231, since
/// users change its first sixteen colors.
///
/// # Errors
///
/// `InvalidGreyLevel` for a gray above level 23, `Unrecognized` for any other text.
pub fn parse_color(text: &str) -> Result<Color, ParseColorError>
    ensures { result ≡ color_of text.now }
{
    if let Some(digits) = text.strip_prefix('#') {
        return hex_color(digits.as_bytes()).ok_or(ParseColorError::Unrecognized);
    }
    if let Some(color) = named_color(text) {
        return Ok(color);
    }
    let Some(call) = text.strip_suffix(')') else {
        return Err(ParseColorError::Unrecognized);
    };
    let Some((name, inside)) = call.split_once('(') else {
        return Err(ParseColorError::Unrecognized);
    };
    called_color(name, inside)
}

// The colors that have a name.
const COLORS: [(&str, Color); 16] = [
    ("black", Color::AnsiValue(16)),
    ("white", Color::AnsiValue(231)),
    ("red", Color::Red),
    ("green", Color::Green),
    ("yellow", Color::Yellow),
    ("blue", Color::Blue),
    ("magenta", Color::Magenta),
    ("cyan", Color::Cyan),
    ("grey", Color::Grey),
    ("darkred", Color::DarkRed),
    ("darkgreen", Color::DarkGreen),
    ("darkyellow", Color::DarkYellow),
    ("darkblue", Color::DarkBlue),
    ("darkmagenta", Color::DarkMagenta),
    ("darkcyan", Color::DarkCyan),
    ("darkgrey", Color::DarkGrey),
];

fn named_color(text: &str) -> Option<Color>
    ensures { result ≡ named color_names text.now }
{
    named(&COLORS, text)
}

// The color of 3 to 6 hex digits.
fn hex_color(digits: &[u8]) -> Option<Color>
    ensures { result ≡ hex_color digits.now }
{
    if !all_hex(digits) {
        return None;
    }
    let (r, g, b) = match *digits {
        [r, g, b] => (twice(r), twice(g), twice(b)),
        [r, s, g, b] => (pair(r, s), twice(g), twice(b)),
        [r, s, g, h, b] => (pair(r, s), pair(g, h), twice(b)),
        [r, s, g, h, b, c] => (pair(r, s), pair(g, h), pair(b, c)),
        _ => return None,
    };
    Some(Color::Rgb { r, g, b })
}

fn all_hex(digits: &[u8]) -> bool
    ensures { result ≡ list_all is_ascii_hexdigit digits.now }
{
    for digit in digits {
        if !digit.is_ascii_hexdigit() {
            return false;
        }
    }
    true
}

fn twice(digit: u8) -> u8
    ensures { result ≡ hex_twice digit }
{
    pair(digit, digit)
}

// The byte of two hex digits.
fn pair(high: u8, low: u8) -> u8
    ensures { result ≡ hex_pair high low }
{
    hex_value(high) * 16 + hex_value(low)
}

fn hex_value(digit: u8) -> u8
    ensures value { result ≡ hex_digit digit }
    ensures bound { result < 16 }
{
    match digit {
        b'0'..=b'9' => digit - b'0',
        b'a'..=b'f' => digit - b'a' + 10,
        b'A'..=b'F' => digit - b'A' + 10,
        _ => 0,
    }
}

fn called_color(name: &str, inside: &str) -> Result<Color, ParseColorError>
    ensures { result ≡ called_color name.now inside.now }
{
    if name.eq_ignore_ascii_case("ansi") {
        ansi_color(parse_byte(inside))
    } else if is_gray(name) {
        gray_color(parse_byte(inside))
    } else if name.eq_ignore_ascii_case("rgb") {
        rgb_parts(inside)
    } else {
        Err(ParseColorError::Unrecognized)
    }
}

fn is_gray(name: &str) -> bool
    ensures { result ≡ is_gray name.now }
{
    name.eq_ignore_ascii_case("gray")
        || name.eq_ignore_ascii_case("grey")
        || name.eq_ignore_ascii_case("grayscale")
        || name.eq_ignore_ascii_case("greyscale")
}

fn ansi_color(number: Option<u8>) -> Result<Color, ParseColorError>
    ensures { result ≡ ansi_color number }
{
    let number = number.ok_or(ParseColorError::Unrecognized)?;
    Ok(Color::AnsiValue(number))
}

// The gray of a level, if there is one.
fn gray_color(level: Option<u8>) -> Result<Color, ParseColorError>
    ensures { result ≡ gray_color level }
{
    match level {
        Some(level) if level < 24 => Ok(gray(level)),
        Some(level) => Err(ParseColorError::InvalidGreyLevel { level }),
        None => Err(ParseColorError::Unrecognized),
    }
}

fn rgb_color(red: Option<u8>, green: Option<u8>, blue: Option<u8>) -> Result<Color, ParseColorError>
    ensures { result ≡ rgb_color red green blue }
{
    let r = red.ok_or(ParseColorError::Unrecognized)?;
    let g = green.ok_or(ParseColorError::Unrecognized)?;
    let b = blue.ok_or(ParseColorError::Unrecognized)?;
    Ok(Color::Rgb { r, g, b })
}

fn rgb_parts(text: &str) -> Result<Color, ParseColorError>
    ensures { result ≡ rgb_parts text.now }
{
    let Some((red, rest)) = text.split_once(',') else {
        return Err(ParseColorError::Unrecognized);
    };
    let Some((green, blue)) = rest.trim_start().split_once(',') else {
        return Err(ParseColorError::Unrecognized);
    };
    rgb_color(
        parse_byte(red),
        parse_byte(green),
        parse_byte(blue.trim_start()),
    )
}

/// Writes the text of a color; nothing for `Reset`.
///
/// # Errors
///
/// A fault of the device, or out of memory before anything went out.
pub fn write_color<O: Out>(alloc: Global, out: &mut O, color: Color) -> Result<(), Error>
    ensures writes { Draws (O.seen out.old) (color_text color) result (O.seen out.new) }
    ensures early { IsErrOf result Memory → O.seen out.new ≡ O.seen out.old }
{
    put_displayed(alloc, out, 0, &ColorText(color))
}

/// A color as its text.
#[derive(Clone, Copy)]
pub(crate) struct ColorText(pub(crate) Color);

impl fmt::Display for ColorText {
    ghost use Rattle.std.specs.Prelude.{Some};
    ghost use Rattle.mad_parse.specs.Colors.{color_text};

    ghost output = { λ c. Some (color_text c.0) };

    fn fmt<W: fmt::Write>(&self, f: &mut fmt::Formatter<W>) -> fmt::Result {
        match self.0 {
            Color::Rgb { r, g, b } => write!(f, "rgb({r}, {g}, {b})"),
            Color::AnsiValue(number) => write!(f, "ansi({number})"),
            color => f.write_str(color_name(color)),
        }
    }
}

// The name of a color; nothing for `Reset` and for the colors that have none.
fn color_name(color: Color) -> &'static str
    ensures { result.now ≡ color_name color }
{
    match color {
        Color::Black => "Black",
        Color::DarkGrey => "DarkGrey",
        Color::Red => "Red",
        Color::DarkRed => "DarkRed",
        Color::Green => "Green",
        Color::DarkGreen => "DarkGreen",
        Color::Yellow => "Yellow",
        Color::DarkYellow => "DarkYellow",
        Color::Blue => "Blue",
        Color::DarkBlue => "DarkBlue",
        Color::Magenta => "Magenta",
        Color::DarkMagenta => "DarkMagenta",
        Color::Cyan => "Cyan",
        Color::DarkCyan => "DarkCyan",
        Color::White => "White",
        Color::Grey => "Grey",
        Color::Reset | Color::Rgb { .. } | Color::AnsiValue(_) => "",
    }
}
