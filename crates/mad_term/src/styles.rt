//! Styles, and the commands that a piece, a text in a style, is written with.
//!
//! The commands are SGR of ECMA-48. The numbers after 38 and 48, the codes 58 and 59 and the meaning
//! of 21 are those of this project's profile. A color that is set is written whatever the environment says: `NO_COLOR` isn't read.

ghost use Rattle.std.specs.Prelude.{◌≡◌, ◌++◌, ◌↔◌, IsTrue, OnOk, string_bytes};
ghost use Rattle.mad_term.specs.Styles.{foreground_bytes, background_bytes, piece_bytes, closing_bytes, IsStyle};

use crate::attribute::Attribute;
use crate::attributes::Attributes;
use crate::color::Color;
use std::alloc::AllocError;
use std::fmt;

/// How a text is written: a color that is `None` and an attribute that the set hasn't got stay as
/// they are.
#[derive(Clone, Copy, Debug, PartialEq, Eq)]
pub struct ContentStyle {
    /// The color of the characters.
    pub foreground_color: Option<Color>,
    /// The color of their cells.
    pub background_color: Option<Color>,
    /// The color of the line below them, where an attribute draws one.
    pub underline_color: Option<Color>,
    /// The attributes that are set.
    pub attributes: Attributes,
}

impl Default for ContentStyle {
    ghost use Rattle.mad_term.specs.Styles.{IsUnstyled};

    ghost is_default = { IsUnstyled };

    fn default() -> ContentStyle {
        ContentStyle {
            foreground_color: None,
            background_color: None,
            underline_color: None,
            attributes: Attributes::default(),
        }
    }
}

impl ContentStyle {
    ghost use Rattle.mad_term.specs.Styles.{IsUnstyled, IsStyle};

    /// Whether the style sets nothing.
    pub fn is_unstyled(self) -> bool
        ensures unstyled { IsTrue result ↔ IsUnstyled self }

        // The numbers of its colors are bytes: what reading the piece back needs to know.
        ensures bytes { IsStyle self }
    {
        self.foreground_color.is_none()
            && self.background_color.is_none()
            && self.underline_color.is_none()
            && self.attributes.is_empty()
    }
}

// The first number of the command that sets a color: what is colored. One more gives its default.
const FOREGROUND: u8 = 38;

const BACKGROUND: u8 = 48;

const UNDERLINE: u8 = 58;

// The command that sets a color, or nothing where there is none.
#[derive(Clone, Copy)]
pub(crate) struct ColorCommand {
    kind: u8,
    color: Option<Color>,
}

impl ColorCommand {
    ghost use Rattle.std.specs.Prelude.{Some};

    /// The command that sets the foreground.
    pub(crate) fn foreground(color: Color) -> ColorCommand
        ensures { result ≡ record { kind = 38; color = Some color } }
    {
        ColorCommand {
            kind: FOREGROUND,
            color: Some(color),
        }
    }

    /// The command that sets the background.
    pub(crate) fn background(color: Color) -> ColorCommand
        ensures { result ≡ record { kind = 48; color = Some color } }
    {
        ColorCommand {
            kind: BACKGROUND,
            color: Some(color),
        }
    }
}

impl fmt::Display for ColorCommand {
    ghost use Rattle.std.specs.Prelude.{Some};
    ghost use Rattle.mad_term.specs.Styles.{present_bytes, color_bytes};

    ghost output = { λ c. Some (present_bytes (color_bytes c.kind) c.color) };

    fn fmt<W: fmt::Write>(&self, f: &mut fmt::Formatter<W>) -> fmt::Result {
        let kind = self.kind;
        let Some(color) = self.color else {
            return Ok(());
        };
        if let Color::Rgb { r, g, b } = color {
            return write!(f, "\x1b[{kind};2;{r};{g};{b}m");
        }
        match color.number() {
            Some(number) => write!(f, "\x1b[{kind};5;{number}m"),
            None => {
                let default = u32::from(kind) + 1;
                write!(f, "\x1b[{default}m")
            }
        }
    }
}

// The commands that set the attributes of a set, each its own.
#[derive(Clone, Copy)]
struct AttributeCommands(Attributes);

impl fmt::Display for AttributeCommands {
    ghost use Rattle.std.specs.Prelude.{Some};
    ghost use Rattle.mad_term.specs.Styles.{attributes_bytes};

    ghost output = { λ c. Some (attributes_bytes c.0) };

    fn fmt<W: fmt::Write>(&self, f: &mut fmt::Formatter<W>) -> fmt::Result {
        // Most styles have none.
        if self.0.is_empty() {
            return Ok(());
        }
        for attribute in &Attribute::ALL {
            if self.0.has(*attribute) {
                let code = attribute.code();
                write!(f, "\x1b[{code}m")?;
            }
        }
        Ok(())
    }
}

/// What a style writes before a text.
#[derive(Clone, Copy)]
pub struct StyleOpening(pub ContentStyle);

impl fmt::Display for StyleOpening {
    ghost use Rattle.std.specs.Prelude.{Some};
    ghost use Rattle.mad_term.specs.Styles.{opening_bytes};

    ghost output = { λ o. Some (opening_bytes o.0) };

    fn fmt<W: fmt::Write>(&self, f: &mut fmt::Formatter<W>) -> fmt::Result {
        let background = ColorCommand {
            kind: BACKGROUND,
            color: self.0.background_color,
        };
        let foreground = ColorCommand {
            kind: FOREGROUND,
            color: self.0.foreground_color,
        };
        let underline = ColorCommand {
            kind: UNDERLINE,
            color: self.0.underline_color,
        };
        let attributes = AttributeCommands(self.0.attributes);
        write!(f, "{background}{foreground}{underline}{attributes}")
    }
}

/// What makes the pen plain again after a text in this style.
#[tactic(auto, using(std::proofs::lemmas::Fmt::decimal_digit))]
pub fn closing_text(style: ContentStyle) -> &'static str
    ensures { result.now ≡ closing_bytes style }
{
    if style.underline_color.is_some() || !style.attributes.is_empty() {
        return "\x1b[0m";
    }
    match (style.background_color, style.foreground_color) {
        (Some(_), Some(_)) => "\x1b[49m\x1b[39m",
        (Some(_), None) => "\x1b[49m",
        (None, Some(_)) => "\x1b[39m",
        (None, None) => "",
    }
}

/// A piece: a text in a style. It is written as its style's commands, the text, and what makes the
/// pen plain again.
#[derive(Clone, Copy, Debug, PartialEq, Eq)]
pub struct StyledContent<'a> {
    /// How the text looks.
    pub style: ContentStyle,
    /// The text.
    pub content: &'a str,
}

impl fmt::Display for StyledContent<'_> {
    ghost use Rattle.std.specs.Prelude.{Some};
    ghost use Rattle.mad_term.specs.Styles.{piece_bytes};

    ghost output = { λ p. Some (piece_bytes p.style p.content.now) };

    fn fmt<W: fmt::Write>(&self, f: &mut fmt::Formatter<W>) -> fmt::Result {
        // Most texts have no style, and need no commands.
        if self.style.is_unstyled() {
            return f.write_str(self.content);
        }
        let opening = StyleOpening(self.style);
        let content = self.content;
        let closing = closing_text(self.style);
        write!(f, "{opening}{content}{closing}")
    }
}

/// A number in a style, in decimal, as one piece.
#[derive(Clone, Copy, Debug, PartialEq, Eq)]
pub struct StyledNumber {
    /// How the number looks.
    pub style: ContentStyle,
    /// The number.
    pub number: u32,
}

impl fmt::Display for StyledNumber {
    ghost use Rattle.std.specs.Prelude.{Some, decimal};
    ghost use Rattle.mad_term.specs.Styles.{piece_bytes};

    ghost output = { λ n. Some (piece_bytes n.style (decimal n.number)) };

    fn fmt<W: fmt::Write>(&self, f: &mut fmt::Formatter<W>) -> fmt::Result {
        let opening = StyleOpening(self.style);
        let number = self.number;
        let closing = closing_text(self.style);
        write!(f, "{opening}{number}{closing}")
    }
}

/// Appends the command that sets the foreground.
///
/// # Errors
///
/// Out of memory. What the row then ends with is open.
pub fn push_foreground(row: &mut String, color: Color) -> Result<(), AllocError>
    ensures { OnOk result (string_bytes row.new ≡ string_bytes row.old ++ foreground_bytes color) }
{
    let command = ColorCommand::foreground(color);
    write!(row, "{command}")
}

/// Appends the command that sets the background.
///
/// # Errors
///
/// Out of memory. What the row then ends with is open.
pub fn push_background(row: &mut String, color: Color) -> Result<(), AllocError>
    ensures { OnOk result (string_bytes row.new ≡ string_bytes row.old ++ background_bytes color) }
{
    let command = ColorCommand::background(color);
    write!(row, "{command}")
}

/// Appends a piece: a text in a style. An empty text writes its style's commands too, and a text without
/// style none.
///
/// # Errors
///
/// Out of memory. What the row then ends with is open.
pub fn push_styled(row: &mut String, style: ContentStyle, text: &str) -> Result<(), AllocError>
    ensures writes { OnOk result (string_bytes row.new ≡ string_bytes row.old ++ piece_bytes style text.now) }

    // The numbers of its colors are bytes: what reading the piece back needs to know.
    ensures bytes { IsStyle style }
{
    let piece = StyledContent {
        style,
        content: text,
    };
    write!(row, "{piece}")
}
