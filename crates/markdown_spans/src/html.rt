//! Raw html in a line.

ghost use Rattle.std.specs.Prelude.{◌≡◌, ◌+◌, ◌<◌, ◌≤◌, length, drop, IfSome};
ghost use Rattle.std.specs.Option.{option_copied};
ghost use Rattle.markdown_spans.specs.Html.{after_comment, other_end, html_end, html_len, AreEnds};

use crate::needles::{after_known, last_place};
use crate::tags::tag_end;
use markdown_html::starts::{begins, is_declaration};
use markdown_marks::bytes::tail;
use memchr::memchr;

/// Where in a text the ends of raw html begin last: from these places on none does.
#[derive(Debug, Clone, Copy)]
pub struct Ends {
    /// `-->`
    pub comment: usize,
    /// `?>`
    pub instruction: usize,
    /// `]]>`
    pub cdata: usize,
    /// `>`
    pub declaration: usize,
}

// No end of raw html begins from the end of a text on.
fn no_ends(text: &[u8]) -> Ends
    ensures { AreEnds result text.now }
{
    Ends {
        comment: text.len(),
        instruction: text.len(),
        cdata: text.len(),
        declaration: text.len(),
    }
}

/// Where in a text the ends of raw html begin last. It isn't looked for where no sign `<` is: there is no html.
pub fn ends_of(text: &[u8]) -> Ends
    ensures { AreEnds result text.now }
{
    if memchr(b'<', text).is_none() {
        return no_ends(text);
    }
    Ends {
        comment: last_place(b"-->", text),
        instruction: last_place(b"?>", text),
        cdata: last_place(b"]]>", text),
        declaration: last_place(b">", text),
    }
}

// What follows a comment, whose `!--` begins at this place.
fn after_comment<'t>(ends: &Ends, text: &'t [u8], at: usize) -> Option<&'t [u8]>
    requires ends { AreEnds ends.now text.now }
    requires within { at + 3 ≤ length text.now }
    ensures { option_copied result ≡ after_comment (drop 3 (drop at text.entry.now)) }
{
    let inside = tail(tail(text, at), 3);
    if begins(inside, b">") {
        return Some(tail(inside, 1));
    }
    if begins(inside, b"->") {
        return Some(tail(inside, 2));
    }
    after_known(b"-->", ends.comment, text, at, 3)
}

// What follows raw html that is no tag, after its sign `<`.
fn other_end<'t>(ends: &Ends, text: &'t [u8], at: usize) -> Option<&'t [u8]>
    requires ends { AreEnds ends.now text.now }
    requires within { at ≤ length text.now }
    ensures { option_copied result ≡ other_end (drop at text.entry.now) }
{
    let bytes = tail(text, at);
    if begins(bytes, b"!--") {
        return after_comment(ends, text, at);
    }
    if begins(bytes, b"?") {
        return after_known(b"?>", ends.instruction, text, at, 1);
    }
    if begins(bytes, b"![CDATA[") {
        return after_known(b"]]>", ends.cdata, text, at, 8);
    }
    if is_declaration(bytes) {
        return after_known(b">", ends.declaration, text, at, 1);
    }
    None
}

// What follows raw html, after its sign `<`.
fn html_end<'t>(ends: &Ends, text: &'t [u8], at: usize) -> Option<&'t [u8]>
    requires ends { AreEnds ends.now text.now }
    requires within { at ≤ length text.now }
    ensures { option_copied result ≡ html_end (drop at text.entry.now) }
{
    match tag_end(tail(text, at)) {
        Some(rest) => Some(rest),
        None => other_end(ends, text, at),
    }
}

/// How many bytes raw html has after its sign `<`, which ends at this place.
pub fn html_len(ends: &Ends, text: &[u8], at: usize) -> Option<usize>
    requires ends { AreEnds ends.now text.now }
    requires within { at ≤ length text.now }
    ensures value { result ≡ html_len (drop at text.now) }
    ensures within { IfSome result (λ len. len ≤ length (drop at text.now)) }
{
    match html_end(ends, text, at) {
        None => None,
        Some(after) => Some(tail(text, at).len().saturating_sub(after.len())),
    }
}
