//! A character many times, as displayed values.

ghost use Rattle.std.specs.Prelude.{Some};
ghost use Rattle.mad_draw.specs.Pieces.{pieces_bytes, char_repeat, single_chars};

use mad_style::StyledChar;
use mad_term::StyledRepeat;
use std::fmt::{self, Display};

/// A character `count` times, as one piece. A `count` of 0 writes nothing.
#[derive(Clone, Copy)]
pub struct CharRepeat {
    /// The character, in its style.
    pub c: StyledChar,
    /// How many times it is written.
    pub count: usize,
}

impl fmt::Display for CharRepeat {
    ghost output = { λ r. Some (pieces_bytes (char_repeat r.c r.count)) };

    #[tactic(auto, using(crate::proofs::PieceLemmas::repeat_of_chars))]
    fn fmt<W: fmt::Write>(&self, f: &mut fmt::Formatter<W>) -> fmt::Result {
        let mut buffer = [0; 4];
        let repeated = StyledRepeat {
            style: self.c.compound_style().object_style,
            content: self.c.get_char().encode_utf8(&mut buffer),
            count: self.count,
        };
        write!(f, "{repeated}")
    }
}

/// A character `count` times, each a piece of its own.
#[derive(Clone, Copy)]
pub struct SingleChars {
    /// The character, in its style.
    pub c: StyledChar,
    /// How many times it is written.
    pub count: usize,
}

impl fmt::Display for SingleChars {
    ghost output = { λ s. Some (pieces_bytes (single_chars s.c s.count)) };

    fn fmt<W: fmt::Write>(&self, f: &mut fmt::Formatter<W>) -> fmt::Result {
        let c = self.c;
        for _done in 0..self.count {
            c.fmt(f)?;
        }
        Ok(())
    }
}
