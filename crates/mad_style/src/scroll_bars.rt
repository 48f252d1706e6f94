//! How a scroll bar looks.

ghost use Rattle.std.specs.Prelude.{◌≡◌};

use crate::colors::gray;
use crate::styled_chars::StyledChar;
use mad_term::Color;

// The right half of a cell, so that a bar keeps clear of the text on its left.
const RIGHT_HALF: char = '▐';

/// How a scroll bar looks: the thumb, which is where the shown part is, and the track elsewhere.
#[derive(Clone, Copy, Debug, PartialEq)]
pub struct ScrollBarStyle {
    /// The character of a row where the shown part is not.
    pub track: StyledChar,
    /// The character of a row where the shown part is.
    pub thumb: StyledChar,
}

impl Default for ScrollBarStyle {
    ghost use Rattle.mad_style.specs.Bars.{default_scrollbar};

    ghost is_default = { λ bar. bar ≡ default_scrollbar };

    /// A light gray thumb on a dark gray track.
    fn default() -> Self {
        Self::new()
    }
}

impl From<StyledChar> for ScrollBarStyle {
    ghost use Rattle.mad_style.specs.Bars.{bar_of_char};

    ghost from_gives = { λ c bar. bar ≡ bar_of_char c };

    /// A bar of this character. Its thumb has the character's foreground, and its track has the character's
    /// background as its foreground. Where one is absent it has the gray of the default bar.
    fn from(styled_char: StyledChar) -> Self {
        let nude_char = styled_char.nude_char();
        let track = styled_char.get_bg().unwrap_or(gray(5));
        let thumb = styled_char.get_fg().unwrap_or(gray(21));
        Self {
            track: StyledChar::from_fg_char(track, nude_char),
            thumb: StyledChar::from_fg_char(thumb, nude_char),
        }
    }
}

impl ScrollBarStyle {
    ghost use Rattle.mad_style.specs.Bars.{bar_on, default_scrollbar};

    /// A light gray thumb on a dark gray track, both of the character `▐`.
    pub fn new() -> Self
        ensures { result ≡ default_scrollbar }
    {
        Self {
            track: StyledChar::from_fg_char(gray(5), RIGHT_HALF),
            thumb: StyledChar::from_fg_char(gray(21), RIGHT_HALF),
        }
    }

    /// Sets the background of the track and of the thumb.
    pub fn set_bg(&mut self, bg: Color)
        ensures { self.new ≡ bar_on bg self.old }
    {
        self.track.set_bg(bg);
        self.thumb.set_bg(bg);
    }
}
