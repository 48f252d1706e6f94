//! A text in a style that owns its characters.

ghost use Rattle.std.specs.Prelude.{◌≡◌, string_bytes};

use mad_term::{ContentStyle, StyledContent};
use std::fmt;

/// A text in a style, as [`StyledContent`], that owns its characters.
#[derive(Debug, Drop, PartialEq)]
pub struct StyledText {
    /// How the text looks.
    pub style: ContentStyle,
    /// The text.
    pub content: String,
}

impl StyledText {
    /// The text in its style, as a piece.
    pub fn as_piece(&self) -> StyledContent<'_>
        ensures style { result.style ≡ self.now.style }
        ensures content { result.content.now ≡ string_bytes self.now.content }
    {
        StyledContent {
            style: self.style,
            content: self.content.as_str(),
        }
    }
}

impl fmt::Display for StyledText {
    ghost use Rattle.std.specs.Prelude.{Some};
    ghost use Rattle.mad_term.specs.Styles.{piece_bytes};

    ghost output = { λ text. Some (piece_bytes text.style (string_bytes text.content)) };

    /// Writes its piece.
    fn fmt<W: fmt::Write>(&self, f: &mut fmt::Formatter<W>) -> fmt::Result {
        let piece = self.as_piece();
        write!(f, "{piece}")
    }
}
