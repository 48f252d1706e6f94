//! Where blocks of html end.

ghost use Rattle.std.specs.Prelude.{◌≡◌};
ghost use Rattle.markdown_html.specs.Ends.{contains, ends_tag, closes_raw, has_raw_end, ends_html};

use crate::names::{cut_word, is_raw_name};
use crate::starts::{Ending, begins};
use markdown_marks::bytes::{first, tail};

// Whether these bytes are somewhere.
#[tactic(auto, unfolding(crate::specs::Ends::contains))]
fn contains(needle: &[u8], bytes: &[u8]) -> bool
    ensures { result ≡ contains needle.now bytes.now }
{
    let mut rest = bytes;
    while let [_, next @ ..] = rest {
        if begins(rest, needle) {
            return true;
        }
        rest = next;
    }
    false
}

// Whether a name whose content is raw is in front, and `>` behind it.
fn ends_tag(bytes: &[u8]) -> bool
    ensures { result ≡ ends_tag bytes.now }
{
    let (word, after) = cut_word(bytes);
    is_raw_name(word) && first(after) == b'>'
}

// Whether a closing tag is in front, of those whose content is raw.
fn closes_raw(bytes: &[u8]) -> bool
    ensures { result ≡ closes_raw bytes.now }
{
    begins(bytes, b"</") && ends_tag(tail(bytes, 2))
}

// Whether such a closing tag is somewhere.
#[tactic(auto, unfolding(crate::specs::Ends::has_raw_end))]
fn has_raw_end(bytes: &[u8]) -> bool
    ensures { result ≡ has_raw_end bytes.now }
{
    let mut rest = bytes;
    while let [_, next @ ..] = rest {
        if closes_raw(rest) {
            return true;
        }
        rest = next;
    }
    false
}

/// Whether the block ends with this line, which belongs to it. A blank line, which doesn't, is no such end.
#[tactic(auto, unfolding(crate::specs::Ends::ends_html))]
pub fn ends_html(ending: Ending, bytes: &[u8]) -> bool
    ensures { result ≡ ends_html ending bytes.now }
{
    match ending {
        Ending::RawTag => has_raw_end(bytes),
        Ending::Comment => contains(b"-->", bytes),
        Ending::Instruction => contains(b"?>", bytes),
        Ending::Declaration => contains(b">", bytes),
        Ending::Cdata => contains(b"]]>", bytes),
        Ending::BlankLine => false,
    }
}
