//! Style tokens, and their texts.

ghost use Rattle.std.specs.Prelude.{◌≡◌, Some};
ghost use Rattle.mad_parse.specs.Written.{token_text, has_text};

use crate::alignments::align_name;
use crate::attributes::attribute_name;
use crate::colors::ColorText;
use mad_md::Alignment;
use mad_term::{Attribute, Color};
use std::fmt;

/// A word of a text that says a style.
#[derive(Clone, Copy, Debug, PartialEq)]
pub enum StyleToken {
    /// A character that is drawn, as a bullet.
    Char(char),
    /// The foreground, or the background where the foreground is said already.
    Color(Color),
    /// An attribute.
    Attribute(Attribute),
    /// On which side a line is.
    Align(Alignment),
    /// A margin, in columns.
    Dimension(u16),
    /// No color.
    None,
}

impl StyleToken {
    /// Whether it has a text: a color or an attribute that is `Reset` and an alignment that isn't specified have none.
    pub(crate) fn has_text(self) -> bool
        ensures { result ≡ has_text self }
    {
        !matches!(
            self,
            StyleToken::Color(Color::Reset)
                | StyleToken::Attribute(Attribute::Reset)
                | StyleToken::Align(Alignment::Unspecified)
        )
    }
}

impl fmt::Display for StyleToken {
    ghost output = { λ t. Some (token_text t) };

    fn fmt<W: fmt::Write>(&self, f: &mut fmt::Formatter<W>) -> fmt::Result {
        match *self {
            StyleToken::Char(c) => write!(f, "{c}"),
            StyleToken::Color(color) => {
                let text = ColorText(color);
                write!(f, "{text}")
            }
            StyleToken::Attribute(attribute) => f.write_str(attribute_name(attribute)),
            StyleToken::Align(align) => f.write_str(align_name(align)),
            StyleToken::Dimension(number) => write!(f, "{number}"),
            StyleToken::None => f.write_str("none"),
        }
    }
}
