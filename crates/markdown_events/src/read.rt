//! Reading the events of a text.

ghost use Rattle.std.specs.Prelude.{◌≡◌, IfOk, map};
ghost use Rattle.markdown_events.specs.Contents.{event_of};
ghost use Rattle.markdown_events.specs.Walks.{events_of};

use crate::events::Event;
use crate::walk::Walk;
use markdown_leaves::read_parts;
use std::alloc::{AllocError, Global};

/// The blocks of a text as events, in the order of the source: what begins, what ends, and the lines of leaves. Each line is read once, and its text
/// is borrowed from the source.
///
/// # Errors
///
/// Out of memory is the only error.
pub fn read_events<'s>(alloc: Global, text: &'s [u8]) -> Result<Vec<Event<'s>>, AllocError>
    ensures { IfOk result (λ events. map event_of events.items ≡ events_of text.entry.now) }
{
    let parts = read_parts(alloc, text)?;
    let mut walk = Walk::new(alloc);
    for part in &parts {
        walk.tell(part)?;
    }
    walk.into_events()
}
