//! Colors by number.

ghost use Rattle.std.specs.Prelude.{◌≡◌, ◌+◌, ◌≤◌};

use mad_term::Color;

/// The color of these amounts of red, green and blue.
pub fn rgb(r: u8, g: u8, b: u8) -> Color
    ensures { result ≡ Color.Rgb r g b }
{
    Color::Rgb { r, g, b }
}

/// A gray of the terminal's palette, from level 0, nearly black, to level 23, nearly white: its
/// numbers 232 to 255.
pub fn gray(level: u8) -> Color
    requires { level ≤ 23 }
    ensures { result ≡ Color.AnsiValue (232 + level) }
{
    Color::AnsiValue(0xE8 + level)
}

/// The color of this number of the terminal's palette.
pub fn ansi(level: u8) -> Color
    ensures { result ≡ Color.AnsiValue level }
{
    Color::AnsiValue(level)
}
