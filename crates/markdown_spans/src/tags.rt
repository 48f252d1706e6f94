//! Tags of html in a line.

ghost use Rattle.std.specs.Prelude.{◌≡◌};
ghost use Rattle.std.specs.Option.{option_copied};
ghost use Rattle.markdown_spans.specs.Tags.{is_nowhere, after_tag, tag_end, closes};

use crate::code::spaced;
use markdown_marks::bytes::first;
use markdown_marks::tags::{Place, is_after, next_place};

// Whether it is no tag any more.
fn is_nowhere(place: Place) -> bool
    ensures { result ≡ is_nowhere place }
{
    matches!(place, Place::Nowhere)
}

// Whether a byte that leads there ends a tag.
fn closes(b: u8, place: Place) -> bool
    ensures { result ≡ closes b place }
{
    b == b'>' && is_after(place)
}

// What follows a tag, from a place in it on. The end of a line is a blank.
#[tactic(auto, unfolding(crate::specs::Tags::after_tag))]
fn after_tag(place: Place, bytes: &[u8]) -> Option<&[u8]>
    ensures { option_copied result ≡ after_tag place bytes.entry.now }
{
    let mut rest = bytes;
    let mut here = place;
    while let [b, next @ ..] = rest {
        here = next_place(here, spaced(*b));
        if closes(*b, here) {
            return Some(next);
        }
        if is_nowhere(here) {
            return None;
        }
        rest = next;
    }
    None
}

/// What follows an opening tag with its attributes, or a closing one, after its angle bracket.
pub(crate) fn tag_end(bytes: &[u8]) -> Option<&[u8]>
    ensures { option_copied result ≡ tag_end bytes.entry.now }
{
    match bytes {
        [] => None,
        [b, bs @ ..] => {
            if b.is_ascii_alphabetic() {
                return after_tag(Place::Name, bs);
            }
            if *b == b'/' && first(bs).is_ascii_alphabetic() {
                return after_tag(Place::CloseName, bs);
            }
            None
        }
    }
}
