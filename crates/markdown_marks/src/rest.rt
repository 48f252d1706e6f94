//! What remains of a line, and its blanks as columns.

ghost use Rattle.std.specs.Prelude.{◌≡◌, ◌≤◌, length, option_map};
ghost use Rattle.markdown_marks.specs.Remaining.{remaining, whole, further, one_column, take_columns, columns_in_front, skip};

use crate::bytes::tail;

/// What remains of a line.
#[derive(Debug, Clone, Copy, PartialEq, Eq)]
pub struct Rest<'s> {
    /// The column, counted up to multiples of four, which is all that a tab asks.
    pub column: usize,
    /// The blank columns that a tab, taken in part, has left before the bytes.
    pub pending: usize,
    /// The bytes that remain.
    pub bytes: &'s [u8],
}

impl<'s> Rest<'s> {
    /// A line before anything is taken.
    pub fn whole(line: &'s [u8]) -> Rest<'s>
        ensures { remaining result ≡ whole line.entry.now }
    {
        Rest {
            column: 0,
            pending: 0,
            bytes: line,
        }
    }

    // The rest without one blank column in front, if there is one.
    #[tactic(auto, unfolding(crate::specs::Remaining::one_column))]
    fn one_column(self) -> Option<Rest<'s>>
        ensures { option_map remaining result ≡ one_column (remaining self.entry) }
    {
        let column = self.column % 4 + 1;
        if self.pending > 0 {
            return Some(Rest {
                column,
                pending: self.pending - 1,
                bytes: self.bytes,
            });
        }
        match self.bytes {
            [b' ', bytes @ ..] => Some(Rest {
                column,
                pending: 0,
                bytes,
            }),
            [b'\t', bytes @ ..] => Some(Rest {
                column,
                pending: 3 - self.column % 4,
                bytes,
            }),
            _ => None,
        }
    }

    /// How many blank columns are in front, at most `most`, and the rest without them.
    pub fn indent(self, most: usize) -> (usize, Rest<'s>)
        ensures columns { result.0 ≡ columns_in_front most (remaining self.entry) }
        ensures rest { remaining result.1 ≡ take_columns most (remaining self.entry) }
        ensures few { result.0 ≤ most }
    {
        let mut rest = self;
        let mut columns = 0;
        while columns < most {
            match rest.one_column() {
                Some(next) => {
                    rest = next;
                    columns += 1;
                }
                None => return (columns, rest),
            }
        }
        (columns, rest)
    }

    /// The rest without the blank columns in front, at most `most` of them.
    pub fn take_columns(self, most: usize) -> Rest<'s>
        ensures { remaining result ≡ take_columns most (remaining self.entry) }
    {
        let (_, rest) = self.indent(most);
        rest
    }

    /// The rest without its first `count` bytes, each of one column.
    #[tactic(auto, unfolding(crate::specs::Remaining::skip))]
    pub fn skip(self, count: usize) -> Rest<'s>
        requires { count ≤ length self.bytes.now }
        ensures { remaining result ≡ skip count (remaining self.entry) }
    {
        Rest {
            column: self.column % 4 + count,
            pending: 0,
            bytes: tail(self.bytes, count),
        }
    }
}
