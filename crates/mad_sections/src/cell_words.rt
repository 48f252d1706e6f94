//! The longest words of cells.

ghost use Rattle.std.specs.Prelude.{◌≡◌, ◌++◌, ◌∷◌, List};
ghost use Rattle.mad_md.specs.Flagged.{FlaggedChar, flags_of, flagged_of, flagged_text};
ghost use Rattle.mad_sections.specs.CellWords.{capped, longest_after, longest_word};

use mad_characters::char_columns;
use mad_md::Compound;

/// The words of a text's beginning, in columns.
#[derive(Clone, Copy, Debug)]
pub(crate) struct Words {
    /// The longest of those that have ended.
    pub longest: usize,
    /// The one that has begun, 0 after a blank.
    pub last: usize,
}

impl Words {
    // The words after one character more of a compound.
    fn with_char(self, compound: &Compound, c: char) -> Words
        ensures { (rest : List FlaggedChar) → longest_after result rest ≡ longest_after self (record { char = c; flags = flags_of compound.now } ∷ rest) }
    {
        if compound.is_blank(c) {
            Words {
                longest: self.longest.max(self.last),
                last: 0,
            }
        } else {
            Words {
                longest: self.longest,
                last: self.last.saturating_add(char_columns(c)),
            }
        }
    }

    // The words after a compound more.
    fn with_compound(self, compound: &Compound) -> Words
        ensures { (rest : List FlaggedChar) → longest_after result rest ≡ longest_after self (flagged_of compound.now ++ rest) }
    {
        let mut words = self;
        for c in compound.src.chars() {
            words = words.with_char(compound, c);
        }
        words
    }
}

/// The columns of the longest word of compounds, 0 where there is none, and the greatest `usize` where it has more. A word goes
/// on over the end of a compound. One pass over the text.
pub fn longest_word(compounds: &[Compound]) -> usize
    ensures { result ≡ capped (longest_word (flagged_text compounds.now)) }
{
    let mut words = Words {
        longest: 0,
        last: 0,
    };
    for compound in compounds {
        words = words.with_compound(compound);
    }
    words.longest.max(words.last)
}
