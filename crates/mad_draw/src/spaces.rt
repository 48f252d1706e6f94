//! Spaces in a style, as displayed values.

use mad_style::CompoundStyle;
use mad_term::{StyledContent, StyledRepeat};
use std::fmt::{self, Display};

/// `count` spaces as one piece. A `count` of 0 writes nothing.
#[derive(Clone, Copy)]
pub struct Spaces {
    /// How they are written.
    pub style: CompoundStyle,
    /// How many there are.
    pub count: usize,
}

impl fmt::Display for Spaces {
    ghost use Rattle.std.specs.Prelude.{Some};
    ghost use Rattle.mad_draw.specs.Pieces.{pieces_bytes, spaces};

    ghost output = { λ s. Some (pieces_bytes (spaces s.style s.count)) };

    #[tactic(auto, using(crate::proofs::PieceLemmas::repeat_of_spaces))]
    fn fmt<W: fmt::Write>(&self, f: &mut fmt::Formatter<W>) -> fmt::Result {
        // Most lines have none beside them.
        if self.count == 0 {
            return Ok(());
        }
        let repeated = StyledRepeat {
            style: self.style.object_style,
            content: " ",
            count: self.count,
        };
        repeated.fmt(f)
    }
}

/// `count` spaces, each a piece of its own.
#[derive(Clone, Copy)]
pub struct SingleSpaces {
    /// How they are written.
    pub style: CompoundStyle,
    /// How many there are.
    pub count: usize,
}

impl fmt::Display for SingleSpaces {
    ghost use Rattle.std.specs.Prelude.{Some};
    ghost use Rattle.mad_draw.specs.Pieces.{pieces_bytes, single_spaces};

    ghost output = { λ s. Some (pieces_bytes (single_spaces s.style s.count)) };

    fn fmt<W: fmt::Write>(&self, f: &mut fmt::Formatter<W>) -> fmt::Result {
        let space = StyledContent {
            style: self.style.object_style,
            content: " ",
        };
        for _done in 0..self.count {
            space.fmt(f)?;
        }
        Ok(())
    }
}
