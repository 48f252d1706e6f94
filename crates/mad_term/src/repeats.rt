//! A text `count` times, as one piece.

use crate::styles::{ContentStyle, StyleOpening, closing_text};
use std::fmt::{self, Display};

/// A text `count` times in a style, as one piece; nothing at all if `count` is 0.
#[derive(Clone, Copy, Debug, PartialEq, Eq)]
pub struct StyledRepeat<'a> {
    /// How the text looks.
    pub style: ContentStyle,
    /// The text that is repeated.
    pub content: &'a str,
    /// How many times it is written.
    pub count: usize,
}

impl fmt::Display for StyledRepeat<'_> {
    ghost use Rattle.std.specs.Prelude.{Some};
    ghost use Rattle.mad_term.specs.Styles.{styled_repeat_bytes};

    ghost output = { λ r. Some (styled_repeat_bytes r.style r.content.now r.count) };

    fn fmt<W: fmt::Write>(&self, f: &mut fmt::Formatter<W>) -> fmt::Result {
        if self.count == 0 {
            return Ok(());
        }
        let copies = Copies {
            content: self.content,
            count: self.count,
        };
        // Most are spaces without style, and need no commands.
        if self.style.is_unstyled() {
            return copies.fmt(f);
        }
        let opening = StyleOpening(self.style);
        let closing = closing_text(self.style);
        write!(f, "{opening}{copies}{closing}")
    }
}

// 64 spaces. Most repeated texts are spaces, and these go out 64 at a time.
const SPACES: &str = "                                                                ";

// A text `count` times.
#[derive(Clone, Copy)]
struct Copies<'a> {
    content: &'a str,
    count: usize,
}

impl fmt::Display for Copies<'_> {
    ghost use Rattle.std.specs.Prelude.{Some};
    ghost use Rattle.std.specs.List.{repeat};

    ghost output = { λ c. Some (repeat c.count c.content.now) };

    fn fmt<W: fmt::Write>(&self, f: &mut fmt::Formatter<W>) -> fmt::Result {
        // Nothing, however often.
        if self.content.is_empty() {
            return Ok(());
        }
        if self.content == " " {
            let many = EachCopy {
                content: SPACES,
                count: self.count / 64,
            };
            let few = &SPACES[..self.count % 64];
            return write!(f, "{many}{few}");
        }
        let all = EachCopy {
            content: self.content,
            count: self.count,
        };
        all.fmt(f)
    }
}

// The same, one by one.
#[derive(Clone, Copy)]
struct EachCopy<'a> {
    content: &'a str,
    count: usize,
}

impl fmt::Display for EachCopy<'_> {
    ghost use Rattle.std.specs.Prelude.{Some};
    ghost use Rattle.std.specs.List.{repeat};

    ghost output = { λ c. Some (repeat c.count c.content.now) };

    fn fmt<W: fmt::Write>(&self, f: &mut fmt::Formatter<W>) -> fmt::Result {
        for _ in 0..self.count {
            f.write_str(self.content)?;
        }
        Ok(())
    }
}
