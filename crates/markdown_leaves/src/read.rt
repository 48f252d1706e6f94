//! Reading the blocks of a text with their lines.

ghost use Rattle.std.specs.Prelude.{◌≡◌, IfOk, map};
ghost use Rattle.markdown_leaves.specs.Parts.{part_of};
ghost use Rattle.markdown_leaves.specs.Told.{parts_of};

use crate::gather::Gatherer;
use crate::parts::Part;
use markdown_blocks::BlockCursor;
use std::alloc::{AllocError, Global};

/// The parts of a text, in the order of the source: containers that begin and end, and leaves with their lines. Each line is read once.
///
/// # Errors
///
/// Out of memory is the only error.
pub fn read_parts<'s>(alloc: Global, text: &'s [u8]) -> Result<Vec<Part<'s>>, AllocError>
    ensures { IfOk result (λ parts. map part_of parts.items ≡ parts_of text.entry.now) }
{
    let mut cursor = BlockCursor::new(alloc, text);
    let mut gatherer = Gatherer::new(alloc);
    loop {
        let before = cursor.containers().len();
        match cursor.next_line()? {
            None => {
                gatherer.leave_all(alloc, before)?;
                gatherer.close(alloc)?;
                return Ok(gatherer.into_parts());
            }
            Some(read) => gatherer.read(alloc, before, cursor.containers(), read)?,
        }
    }
}
