//! The text of a leaf's lines, and in which of these a place is.

ghost use Rattle.std.specs.Prelude.{◌≡◌, ◌-◌, ◌≤◌, IfOk, length, map, string_bytes};
ghost use Rattle.markdown_marks.specs.Remaining.{remaining};
ghost use Rattle.markdown_inline_events.specs.Contents.{event_of};
ghost use Rattle.markdown_inline_events.specs.Leaf.{IsReached, event_place, leaf_source, line_place};

use crate::events::InlineEvent;
use markdown_leaves::defining::joined;
use markdown_marks::headings::without_end;
use markdown_marks::rest::Rest;
use std::alloc::{AllocError, Global};

/// A place in a leaf's lines.
#[derive(Debug, Clone, Copy, PartialEq, Eq)]
pub struct LinePlace {
    /// The number of the line, counted from the first of the leaf, which is 0.
    pub line: usize,
    /// How many of its bytes are before the place. At its end are as many as it has.
    pub byte: usize,
}

/// The text of a leaf with these lines: one after another, with newlines between them, without the blanks at its end. What isn't UTF-8 is U+FFFD there.
///
/// # Errors
///
/// Out of memory is the only error.
pub fn leaf_source(alloc: Global, lines: &[Rest<'_>]) -> Result<String, AllocError>
    ensures { IfOk result (λ text. string_bytes text ≡ leaf_source (map remaining lines.now)) }
{
    let bytes = joined(alloc, lines)?;
    let text = String::from_utf8_lossy(alloc, without_end(b' ', b'\t', bytes.as_slice()))?;
    Ok(text)
}

// A line, and how many bytes of the text are before it.
#[derive(Clone, Copy)]
pub(crate) struct Reached {
    pub line: usize,
    pub before: usize,
}

// The line in which a place is, at or behind one that was reached.
fn reach(lines: &[Rest<'_>], from: Reached, place: usize) -> Reached
    requires reached { IsReached (map remaining lines.now) from.line from.before }
    requires behind { from.before ≤ place }
    ensures reached { IsReached (map remaining lines.now) result.line result.before }
    ensures behind { result.before ≤ place }
    ensures place { line_place 0 place (map remaining lines.now) ≡ record { line = result.line; byte = place - result.before } }
{
    let mut reached = from;
    while reached.line < lines.len() {
        let len = lines[reached.line].bytes.len();
        if place - reached.before <= len {
            return reached;
        }
        reached = Reached {
            line: reached.line + 1,
            before: reached.before + len + 1,
        };
    }
    reached
}

/// In which of a leaf's lines its events are, by the places of these in its text. Where the lines are UTF-8 these are bytes of the source. It takes time in
/// proportion to the lines and the events, if the places rise, as those of [`crate::read_inlines`] do.
///
/// # Errors
///
/// Out of memory is the only error.
pub fn line_places(
    alloc: Global,
    lines: &[Rest<'_>],
    events: &[InlineEvent<'_>],
) -> Result<Vec<LinePlace>, AllocError>
    ensures { IfOk result (λ places. places.items ≡ map (event_place (map remaining lines.now)) (map event_of events.now)) }
{
    let mut places = Vec::with_capacity(alloc, events.len())?;
    let first = Reached { line: 0, before: 0 };
    let mut reached = first;
    for event in events {
        if event.place < reached.before {
            reached = first;
        }
        reached = reach(lines, reached, event.place);
        places.push(LinePlace {
            line: reached.line,
            byte: event.place - reached.before,
        })?;
    }
    Ok(places)
}
