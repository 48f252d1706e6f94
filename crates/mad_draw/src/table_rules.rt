//! Rules across the columns of a table, as displayed values.

ghost use Rattle.std.specs.Prelude.{◌≡◌, Some};
ghost use Rattle.std.specs.List.{flat_map};
ghost use Rattle.mad_style.specs.StyledChars.{styled_char};
ghost use Rattle.mad_draw.specs.Pieces.{pieces_bytes};
ghost use Rattle.mad_draw.specs.TableRules.{junction, rule_pieces};

use crate::char_repeats::CharRepeat;
use mad_style::{CompoundStyle, StyledChar};
use std::fmt;

/// The characters of a rule across columns.
#[derive(Clone, Copy)]
pub struct RuleChars {
    /// The left end.
    pub left: char,
    /// What runs over a column.
    pub horizontal: char,
    /// What is between two columns.
    pub between: char,
    /// The right end.
    pub right: char,
}

/// A rule across columns: its ends, its horizontals, each column's as one piece, and a junction between two columns.
#[derive(Clone, Copy)]
pub struct RuleAcross<'a> {
    /// How it is written.
    pub style: CompoundStyle,
    /// Its characters.
    pub chars: RuleChars,
    /// The widths of the columns.
    pub widths: &'a [usize],
}

impl fmt::Display for RuleAcross<'_> {
    ghost output = { λ r. Some (pieces_bytes (rule_pieces r.style r.chars r.widths.now)) };

    fn fmt<W: fmt::Write>(&self, f: &mut fmt::Formatter<W>) -> fmt::Result {
        let left = border(self.style, self.chars.left);
        let right = border(self.style, self.chars.right);
        let Some((first, others)) = self.widths.split_first() else {
            return write!(f, "{left}{right}");
        };
        let horizontals = horizontals(self.style, self.chars, *first);
        let junctions = Junctions {
            style: self.style,
            chars: self.chars,
            widths: others,
        };
        write!(f, "{left}{horizontals}{junctions}{right}")
    }
}

// The horizontals over columns, a junction before each.
#[derive(Clone, Copy)]
struct Junctions<'a> {
    style: CompoundStyle,
    chars: RuleChars,
    widths: &'a [usize],
}

impl fmt::Display for Junctions<'_> {
    ghost output = { λ j. Some (pieces_bytes (flat_map (junction j.style j.chars) j.widths.now)) };

    fn fmt<W: fmt::Write>(&self, f: &mut fmt::Formatter<W>) -> fmt::Result {
        let junction = border(self.style, self.chars.between);
        for width in self.widths {
            let horizontals = horizontals(self.style, self.chars, *width);
            write!(f, "{junction}{horizontals}")?;
        }
        Ok(())
    }
}

// A character of the rule.
fn border(style: CompoundStyle, c: char) -> StyledChar
    ensures { result ≡ styled_char style c }
{
    StyledChar::new(style, c)
}

// The horizontals over one column.
fn horizontals(style: CompoundStyle, chars: RuleChars, width: usize) -> CharRepeat
    ensures { result ≡ record { c = styled_char style chars.horizontal; count = width } }
{
    CharRepeat {
        c: border(style, chars.horizontal),
        count: width,
    }
}
