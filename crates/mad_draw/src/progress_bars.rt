//! Progress bars.

ghost use Rattle.std.specs.Prelude.{◌≡◌, ◌≤◌, Some, encode_utf8_all};
ghost use Rattle.mad_draw.specs.ProgressBars.{bar_chars, block};

use mad_term::{ContentStyle, StyledRepeat};
use std::fmt;

/// How much of a length is done, as blocks: whole ones, and one of as many eighths of a column as are left over.
///
/// The eighths are rounded, half of one upwards. A part of no eighths takes no column.
#[derive(Clone, Copy, Debug, PartialEq, Eq)]
pub struct ProgressBar {
    /// How much is done, of `den`.
    pub num: u64,
    /// How much is to be done in all: at least 1.
    pub den: u64,
    /// The columns of the whole.
    pub chars_len: usize,
    ghost some: { 1 ≤ den },
    ghost part: { num ≤ den },
}

impl ProgressBar {
    /// A bar of `chars_len` columns of which the part `num / den` is done: `den` is 1 at least, and `num` at most `den`.
    pub fn new(num: u64, den: u64, chars_len: usize) -> Self
        requires some { 1 ≤ den }
        requires part { num ≤ den }
        ensures num { result.num ≡ num }
        ensures den { result.den ≡ den }
        ensures chars_len { result.chars_len ≡ chars_len }
    {
        Self {
            num,
            den,
            chars_len,
        }
    }
}

impl fmt::Display for ProgressBar {
    ghost output = { λ bar. Some (encode_utf8_all (bar_chars bar.num bar.den bar.chars_len)) };

    fn fmt<W: fmt::Write>(&self, f: &mut fmt::Formatter<W>) -> fmt::Result {
        let den = self.den as u128;
        let done = self.chars_len as u128 * self.num as u128;
        let whole = StyledRepeat {
            style: ContentStyle::default(),
            content: "█",
            count: (done / den) as usize,
        };
        let eighths = (16 * (done % den) + den) / (2 * den);
        let last = block_text(eighths as u8);
        write!(f, "{whole}{last}")
    }
}

// The block of so many eighths; nothing of none.
fn block_text(eighths: u8) -> &'static str
    requires { eighths ≤ 8 }
    ensures { result.now ≡ encode_utf8_all (block eighths) }
{
    match eighths {
        0 => "",
        1 => "▏",
        2 => "▎",
        3 => "▍",
        4 => "▌",
        5 => "▋",
        6 => "▊",
        7 => "▉",
        _ => "█",
    }
}
