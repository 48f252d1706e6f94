//! The colors of a pen, as an image has them, on a dark ground or a light one.

ghost use Rattle.std.specs.Prelude.{◌<◌};

use std::fmt;
use termimad::screen::Pen;
use termimad::{Attribute, Color};

/// A mix of red, green and blue.
#[derive(Clone, Copy, PartialEq, Eq)]
pub struct Paint(u8, u8, u8);

/// The colors of a terminal where a pen has none.
#[derive(Clone, Copy)]
pub struct Ground {
    /// What characters are drawn in.
    pub ink: Paint,
    /// What is below them.
    pub paper: Paint,
    /// The line around all.
    pub edge: Paint,
}

/// A dark terminal.
pub const DARK: Ground = Ground {
    ink: Paint(216, 216, 216),
    paper: Paint(22, 24, 28),
    edge: Paint(60, 64, 70),
};

/// A light terminal.
pub const LIGHT: Ground = Ground {
    ink: Paint(36, 41, 47),
    paper: Paint(255, 255, 255),
    edge: Paint(208, 215, 222),
};

// The named colors, by their numbers.
const NAMED: [Paint; 16] = [
    Paint(0, 0, 0),
    Paint(205, 49, 49),
    Paint(13, 188, 121),
    Paint(229, 229, 16),
    Paint(36, 114, 200),
    Paint(188, 63, 188),
    Paint(17, 168, 205),
    Paint(204, 204, 204),
    Paint(102, 102, 102),
    Paint(241, 76, 76),
    Paint(35, 209, 139),
    Paint(245, 245, 67),
    Paint(59, 142, 234),
    Paint(214, 112, 214),
    Paint(41, 184, 219),
    Paint(255, 255, 255),
];

impl fmt::Display for Paint {
    fn fmt<W: fmt::Write>(&self, f: &mut fmt::Formatter<W>) -> fmt::Result {
        let Paint(r, g, b) = *self;
        write!(f, "#{r:02x}{g:02x}{b:02x}")
    }
}

/// The colors of a pen's characters and of what is below them.
pub fn paints_of(pen: Pen, ground: Ground) -> (Paint, Paint) {
    let ink = pen.fg.and_then(paint_of).unwrap_or(ground.ink);
    let paper = pen.bg.and_then(paint_of).unwrap_or(ground.paper);
    if pen.codes.has(Attribute::Reverse) {
        (paper, ink)
    } else {
        (ink, paper)
    }
}

// None, where it is the terminal's own.
fn paint_of(color: Color) -> Option<Paint> {
    match (color, color.number()) {
        (Color::Rgb { r, g, b }, _) => Some(Paint(r, g, b)),
        (_, Some(number)) => Some(paint_of_number(number)),
        (_, None) => None,
    }
}

// The palette: sixteen colors with names, a cube of six levels of each color, and 24 grays.
fn paint_of_number(number: u8) -> Paint {
    match number {
        0..=15 => NAMED[usize::from(number)],
        16..=231 => {
            let place = number - 16;
            Paint(level(place / 36), level(place / 6 % 6), level(place % 6))
        }
        232..=255 => {
            let gray = 8 + 10 * (number - 232);
            Paint(gray, gray, gray)
        }
    }
}

// One of the cube's six levels.
fn level(step: u8) -> u8
    requires { step < 6 }
{
    if step == 0 { 0 } else { 55 + 40 * step }
}
