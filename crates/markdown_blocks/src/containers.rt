//! Which containers go on in a line, and which begin in it.

ghost use Rattle.std.specs.Prelude.{◌≡◌, ◌≤◌, ◌<◌, ◌+◌, ◌-◌, ◌==◌, ◌&&◌, ◌++◌, length, drop, option_map, false, IfOk, OnErr};
ghost use Rattle.markdown_marks.specs.Remaining.{remaining};
ghost use Rattle.markdown_blocks.specs.Laws.{HasFront};
ghost use Rattle.markdown_blocks.specs.Containers.{quote_goes_on, item_goes_on, goes_on, match_more, matched, opened_by, gap_after, item_before, item_of, item_start, container_after, container_start, opened, is_item, ends_in_item, after_quote};

use markdown_marks::bytes::{first, is_blank};
use markdown_marks::items::{Marker, marker_start, may_interrupt};
use markdown_marks::marks::{is_rule, underline_level};
use markdown_marks::rest::Rest;
use std::alloc::AllocError;

/// How many containers can be open, one in the other. A sign of a further one is text.
pub const MAX_CONTAINERS: usize = 64;

/// A container of blocks.
#[derive(Debug, Clone, Copy, PartialEq, Eq)]
pub enum Container {
    /// A block quote.
    Quote,
    /// An item of a list. Neighbouring items with one sign are a list.
    Item {
        /// The bullet `-`, `+` or `*`, or what stands after a number: `.` or `)`.
        sign: u8,
        /// The number, which has at most nine digits; 0 after a bullet.
        number: u32,
        /// How many columns its content is indented by, counted from the content of the container that it is in.
        content: usize,
    },
}

/// A container that begins, and what is left of the line for its content.
#[derive(Debug, Clone, Copy)]
pub(crate) struct Opening<'s> {
    pub(crate) container: Container,
    pub(crate) rest: Rest<'s>,
}

/// Whether the container is an item.
pub(crate) fn is_item(container: Container) -> bool
    ensures { result ≡ is_item container }
{
    match container {
        Container::Quote => false,
        Container::Item { .. } => true,
    }
}

// ---- what goes on

// What follows the sign of a quote.
fn after_quote<'s>(rest: Rest<'s>) -> Rest<'s>
    requires { 1 ≤ length rest.bytes.now }
    ensures { remaining result ≡ after_quote (remaining rest.entry) }
{
    rest.skip(1).take_columns(1)
}

// What a line has for a quote that goes on in it.
fn quote_goes_on<'s>(rest: Rest<'s>) -> Option<Rest<'s>>
    ensures { option_map remaining result ≡ quote_goes_on (remaining rest.entry) }
{
    let (columns, after) = rest.indent(4);
    if columns == 4 || first(after.bytes) != b'>' {
        return None;
    }
    Some(after_quote(after))
}

// What a line has for an item that goes on in it.
fn item_goes_on<'s>(content: usize, bare: bool, rest: Rest<'s>) -> Option<Rest<'s>>
    ensures { option_map remaining result ≡ item_goes_on content bare (remaining rest.entry) }
{
    let (columns, after) = rest.indent(content);
    let goes_on = if is_blank(rest.bytes) {
        !bare
    } else {
        columns == content
    };
    if goes_on { Some(after) } else { None }
}

// What a line has for the content of a container that goes on in it.
#[tactic(auto, unfolding(crate::specs::Containers::goes_on))]
fn goes_on<'s>(container: Container, bare: bool, rest: Rest<'s>) -> Option<Rest<'s>>
    ensures { option_map remaining result ≡ goes_on container bare (remaining rest.entry) }
{
    match container {
        Container::Quote => quote_goes_on(rest),
        Container::Item { content, .. } => item_goes_on(content, bare, rest),
    }
}

// Whether the container at this place is the last, and bare.
fn is_bare_at(containers: &[Container], at: usize, bare: bool) -> bool
    requires { at < length containers.now }
    ensures { result ≡ (bare && (length (drop (at + 1) containers.now) == 0)) }
{
    bare && at + 1 == containers.len()
}

// What a line has for the content of the container at this place. The clause says how that decides what the containers from it on make of the line.
fn goes_on_at<'s>(
    containers: &[Container],
    at: usize,
    bare: bool,
    rest: Rest<'s>,
) -> Option<Rest<'s>>
    requires { at < length containers.now }
    ensures { matched bare (drop at containers.now) (remaining rest.entry) ≡ match_more (option_map remaining result) (remaining rest.entry) (matched bare (drop (at + 1) containers.now)) }
{
    let bare_here = is_bare_at(containers, at, bare);
    goes_on(containers[at], bare_here, rest)
}

/// How many containers go on, and what is left of the line for their content.
pub(crate) fn matched<'s>(containers: &[Container], bare: bool, rest: Rest<'s>) -> (usize, Rest<'s>)
    ensures count { result.0 ≡ (matched bare containers.now (remaining rest.entry)).count }
    ensures rest { remaining result.1 ≡ (matched bare containers.now (remaining rest.entry)).rest }
    ensures within { result.0 ≤ length containers.now }
{
    let mut left = rest;
    let mut count = 0;
    while count < containers.len() {
        match goes_on_at(containers, count, bare, left) {
            Some(next) => {
                left = next;
                count += 1;
            }
            None => return (count, left),
        }
    }
    (count, left)
}

// ---- what begins

// How many blank columns after a marker belong to it.
fn gap_after(rest: Rest<'_>) -> usize
    ensures value { result ≡ gap_after (remaining rest.entry) }
    ensures few { result ≤ 5 }
{
    let (columns, _) = rest.indent(5);
    if is_blank(rest.bytes) || columns > 4 {
        1
    } else {
        columns
    }
}

// The item with this marker.
fn item_before<'s>(indent: usize, marker: Marker, rest: Rest<'s>) -> Opening<'s>
    requires indent { indent ≤ 4 }
    requires few { marker.length ≤ 10 }
    ensures { opened_by result ≡ item_before indent marker (remaining rest.entry) }
{
    let gap = gap_after(rest);
    let content = indent + marker.length + gap;
    Opening {
        container: Container::Item {
            sign: marker.sign,
            number: marker.number,
            content,
        },
        rest: rest.take_columns(gap),
    }
}

// The item that begins after these columns.
fn item_start<'s>(in_paragraph: bool, indent: usize, rest: Rest<'s>) -> Option<Opening<'s>>
    requires { indent ≤ 4 }
    ensures { option_map opened_by result ≡ item_start in_paragraph indent (remaining rest.entry) }
{
    if is_rule(rest.bytes) || (in_paragraph && underline_level(rest.bytes).is_some()) {
        return None;
    }
    let marker = marker_start(rest.bytes)?;
    if in_paragraph && !may_interrupt(marker, rest.bytes) {
        return None;
    }
    Some(item_before(indent, marker, rest.skip(marker.length)))
}

// The container that begins after these columns.
fn container_after<'s>(in_paragraph: bool, indent: usize, rest: Rest<'s>) -> Option<Opening<'s>>
    requires { indent ≤ 4 }
    ensures { option_map opened_by result ≡ container_after in_paragraph indent (remaining rest.entry) }
{
    if first(rest.bytes) == b'>' {
        return Some(Opening {
            container: Container::Quote,
            rest: after_quote(rest),
        });
    }
    item_start(in_paragraph, indent, rest)
}

// The container that begins the rest, which may be a paragraph's next line.
#[tactic(auto, unfolding(crate::specs::Containers::container_start))]
pub(crate) fn container_start<'s>(in_paragraph: bool, rest: Rest<'s>) -> Option<Opening<'s>>
    ensures { option_map opened_by result ≡ container_start in_paragraph (remaining rest.entry) }
{
    let (columns, after) = rest.indent(4);
    if columns == 4 {
        return None;
    }
    container_after(in_paragraph, columns, after)
}

/// Opens the containers that begin in the rest, at most `most`, after those that are open. The rest may be a paragraph's next line. Says whether
/// the last that began is an item, and what is left of the line.
///
/// # Errors
///
/// Out of memory. Some may have begun then.
pub(crate) fn open_containers<'s>(
    containers: &mut Vec<Container>,
    most: usize,
    in_paragraph: bool,
    rest: Rest<'s>,
) -> Result<(bool, Rest<'s>), AllocError>
    ensures items { IfOk result (λ _. containers.new.items ≡ containers.old.items ++ (opened most in_paragraph (remaining rest.entry)).containers) }
    ensures bare { IfOk result (λ end. end.0 ≡ ends_in_item false (opened most in_paragraph (remaining rest.entry)).containers) }
    ensures rest { IfOk result (λ end. remaining end.1 ≡ (opened most in_paragraph (remaining rest.entry)).rest) }
    ensures err { OnErr result (HasFront containers.old.items containers.new.items) }
{
    let mut left = rest;
    let mut room = most;
    let mut interrupts = in_paragraph;
    let mut is_bare = false;
    while room > 0 {
        match container_start(interrupts, left) {
            Some(opening) => {
                containers.push(opening.container)?;
                is_bare = is_item(opening.container);
                left = opening.rest;
                room -= 1;
                interrupts = false;
            }
            None => return Ok((is_bare, left)),
        }
    }
    Ok((is_bare, left))
}
