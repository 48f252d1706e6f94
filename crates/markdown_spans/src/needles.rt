//! Where certain bytes stand in a text.

ghost use Rattle.std.specs.Prelude.{◌≡◌, ◌+◌, ◌<◌, ◌≤◌, length, drop};
ghost use Rattle.std.specs.Option.{option_copied};
ghost use Rattle.markdown_spans.specs.Needles.{after_first, IsLast};

use markdown_html::starts::begins;
use markdown_marks::bytes::tail;

/// What follows these bytes where they stand first.
#[tactic(auto, unfolding(crate::specs::Needles::after_first))]
pub fn after_first<'t>(needle: &[u8], text: &'t [u8]) -> Option<&'t [u8]>
    ensures { option_copied result ≡ after_first needle.now text.entry.now }
{
    let mut rest = text;
    while let [_, next @ ..] = rest {
        if begins(rest, needle) {
            return Some(tail(rest, needle.len()));
        }
        rest = next;
    }
    None
}

/// The place from which on these bytes begin nowhere.
pub(crate) fn last_place(needle: &[u8], text: &[u8]) -> usize
    requires { 0 < length needle.now }
    ensures last { IsLast needle.now result text.now }
{
    let mut last = text.len();
    while last > 0 && !begins(tail(text, last - 1), needle) {
        last -= 1;
    }
    last
}

/// What follows these bytes where they stand first, `skip` bytes behind a place. They begin nowhere from `last` on.
pub(crate) fn after_known<'t>(
    needle: &[u8],
    last: usize,
    text: &'t [u8],
    at: usize,
    skip: usize,
) -> Option<&'t [u8]>
    requires last { IsLast needle.now last text.now }
    requires within { at + skip ≤ length text.now }
    ensures { option_copied result ≡ after_first needle.now (drop skip (drop at text.entry.now)) }
{
    if last <= at + skip {
        return None;
    }
    after_first(needle, tail(tail(text, at), skip))
}
