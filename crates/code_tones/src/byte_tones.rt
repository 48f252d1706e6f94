//! A cursor over the tones of a text's bytes.

ghost use Rattle.std.specs.Prelude.{◌≡◌, drop, slice_index};
ghost use Rattle.code_tones.specs.Cursor.{tones_left};
ghost use Rattle.code_tones.specs.Tones.{byte_tones};

use crate::classes::tone_of;
use code_colors::tokens::Token;

/// A cursor over the tones of the bytes of tokens.
#[derive(Clone, Copy)]
pub(crate) struct ByteTones<'a> {
    // That of the next bytes, so many of them.
    tone: usize,
    left: usize,
    later: &'a [Token],
}

impl<'a> ByteTones<'a> {
    /// Before the first byte.
    pub(crate) fn new(tokens: &'a [Token]) -> Self
        ensures { tones_left result ≡ byte_tones tokens.entry.now }
    {
        ByteTones {
            tone: 0,
            left: 0,
            later: tokens,
        }
    }

    /// The tone of the next byte, which is passed; 0 where there is none.
    pub(crate) fn next(&mut self) -> usize
        ensures first { result ≡ slice_index (tones_left self.old) 0 }
        ensures rest { tones_left self.new ≡ drop 1 (tones_left self.old) }
    {
        if self.left > 0 {
            self.left -= 1;
            return self.tone;
        }
        match self.later {
            [token, later @ ..] => {
                self.tone = tone_of(token.class);
                self.left = token.more;
                self.later = later;
                self.tone
            }
            [] => 0,
        }
    }

    /// Passes so many bytes.
    pub(crate) fn pass(&mut self, count: usize)
        ensures { tones_left self.new ≡ drop count (tones_left self.old) }
    {
        let mut more = count;
        while more > 0 {
            self.next();
            more -= 1;
        }
    }
}
