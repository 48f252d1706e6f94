//! The pen of the plain terminal.

ghost use Rattle.std.specs.Prelude.{◌≡◌, option_map};
ghost use Rattle.mad_screen.specs.Glyph.{look_of};
ghost use Rattle.mad_screen.specs.Pictures.{is_plain};
ghost use Rattle.mad_screen.specs.Terminal.{restyled, attribute_of, switched_on, with_code, with_color};

use mad_term::{Attribute, Attributes, Color};

/// How a terminal shows the characters that it puts on the screen: three colors and a set of attributes.
///
/// A color that is `None` is the terminal's default, as `Reset` makes it. One that is there is an `AnsiValue` (named colors
/// by their numbers) or an `Rgb`.
#[derive(Clone, Copy, Debug, PartialEq, Eq)]
pub struct Pen {
    /// The color of characters.
    pub fg: Option<Color>,
    /// The color of their background.
    pub bg: Option<Color>,
    /// The color of lines below them.
    pub underline: Option<Color>,
    /// The attributes whose codes came since the pen was last made plain. Codes that switch something off are
    /// attributes like the others; `Reset`, code 0, makes the pen plain and isn't kept.
    pub codes: Attributes,
}

impl Default for Pen {
    ghost use Rattle.mad_screen.specs.Glyph.{look_of};
    ghost use Rattle.mad_screen.specs.Grid.{plain_pen};

    ghost is_default = { λ p. look_of p ≡ plain_pen };

    /// The plain pen: no color, no attribute.
    fn default() -> Self {
        Pen {
            fg: None,
            bg: None,
            underline: None,
            codes: Attributes::default(),
        }
    }
}

impl Pen {
    /// Whether it is the plain pen.
    pub(crate) fn is_plain(self) -> bool
        ensures { result ≡ is_plain (look_of self) }
    {
        self.fg.is_none() && self.bg.is_none() && self.underline.is_none() && self.codes.is_empty()
    }

    /// The pen after the command `m` with these numbers, if it is one.
    pub(crate) fn restyled(self, numbers: &[u32]) -> Option<Self>
        ensures { option_map look_of result ≡ restyled numbers.now (look_of self) }
    {
        match numbers {
            [code] => self.with_code(*code),
            [code, 5, n] if *n < 256 => self.with_color(*code, Color::AnsiValue(*n as u8)),
            [code, 2, r, g, b] if *r < 256 && *g < 256 && *b < 256 => {
                let color = Color::Rgb {
                    r: *r as u8,
                    g: *g as u8,
                    b: *b as u8,
                };
                self.with_color(*code, color)
            }
            _ => None,
        }
    }

    fn with_code(self, code: u32) -> Option<Self>
        ensures { option_map look_of result ≡ with_code code (look_of self) }
    {
        match code {
            39 => Some(Pen { fg: None, ..self }),
            49 => Some(Pen { bg: None, ..self }),
            59 => Some(Pen {
                underline: None,
                ..self
            }),
            _ => attribute_of(code).map(|a| self.switched_on(a)),
        }
    }

    fn with_color(self, code: u32, color: Color) -> Option<Self>
        ensures { option_map look_of result ≡ with_color code color (look_of self) }
    {
        match code {
            38 => Some(Pen {
                fg: Some(color),
                ..self
            }),
            48 => Some(Pen {
                bg: Some(color),
                ..self
            }),
            58 => Some(Pen {
                underline: Some(color),
                ..self
            }),
            _ => None,
        }
    }

    fn switched_on(self, attribute: Attribute) -> Self
        ensures { look_of result ≡ switched_on attribute (look_of self) }
    {
        if attribute == Attribute::Reset {
            return Pen::default();
        }
        let mut codes = self.codes;
        codes.set(attribute);
        Pen { codes, ..self }
    }
}

// The attribute of a code.
fn attribute_of(code: u32) -> Option<Attribute>
    ensures { result ≡ attribute_of code }
{
    Attribute::ALL
        .iter()
        .copied()
        .find(|a| u32::from(a.code()) == code)
}
