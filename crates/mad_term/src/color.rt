//! The colors of a terminal.

ghost use Rattle.std.specs.Prelude.{◌≡◌};
ghost use Rattle.mad_term.specs.Color.{color_number, IsColor};

/// A color of the foreground, of the background or of an underline.
///
/// A named color is one of the first sixteen numbers of the terminal's palette, and `AnsiValue` any of
/// its 256. `Reset` is what the terminal shows where no color is set.
#[derive(Clone, Copy, Debug, PartialEq, Eq)]
pub enum Color {
    Reset,
    Black,
    DarkGrey,
    Red,
    DarkRed,
    Green,
    DarkGreen,
    Yellow,
    DarkYellow,
    Blue,
    DarkBlue,
    Magenta,
    DarkMagenta,
    Cyan,
    DarkCyan,
    White,
    Grey,
    /// Amounts of red, green and blue, each from 0 to 255.
    Rgb { r: u8, g: u8, b: u8 },
    /// A number of the palette.
    AnsiValue(u8),
}

impl Color {
    /// Its number in the terminal's palette. `Reset` and a mix of red, green and blue have none.
    pub fn number(self) -> Option<u8>
        ensures value { result ≡ color_number self }

        // Its own numbers are bytes: what reading the color back needs to know.
        ensures bytes { IsColor self }
    {
        match self {
            Color::Reset | Color::Rgb { .. } => None,
            Color::Black => Some(0),
            Color::DarkRed => Some(1),
            Color::DarkGreen => Some(2),
            Color::DarkYellow => Some(3),
            Color::DarkBlue => Some(4),
            Color::DarkMagenta => Some(5),
            Color::DarkCyan => Some(6),
            Color::Grey => Some(7),
            Color::DarkGrey => Some(8),
            Color::Red => Some(9),
            Color::Green => Some(10),
            Color::Yellow => Some(11),
            Color::Blue => Some(12),
            Color::Magenta => Some(13),
            Color::Cyan => Some(14),
            Color::White => Some(15),
            Color::AnsiValue(number) => Some(number),
        }
    }
}
