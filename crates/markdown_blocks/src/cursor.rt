//! Reading the blocks of a text.

ghost use Rattle.std.specs.Prelude.{◌≡◌, [], IfOk, OnErr};
ghost use Rattle.markdown_blocks.specs.Events.{unread, IsRead};
ghost use Rattle.markdown_blocks.specs.Steps.{state_of};

use crate::containers::Container;
use crate::leaves::Leaf;
use crate::lines::cut_line;
use crate::reader::{BlockReader, LineRead};
use std::alloc::{AllocError, Global};

/// A position in a text, from which its blocks are read line by line, each line once. A line ends with a newline, a return, or both together.
#[derive(Debug, Drop)]
pub struct BlockCursor<'s> {
    rest: &'s [u8],
    reader: BlockReader,
}

impl<'s> BlockCursor<'s> {
    /// The position before the first line.
    pub fn new(alloc: Global, text: &'s [u8]) -> BlockCursor<'s>
        ensures { unread result ≡ record { text = text.entry.now; state = record { containers = []; leaf = Leaf.Nothing; defining = []; cells = 0 } } }
    {
        BlockCursor {
            rest: text,
            reader: BlockReader::new(alloc),
        }
    }

    /// The containers that are open, from the outermost on.
    pub fn containers(&self) -> &[Container]
        ensures { result.now ≡ (state_of self.now.reader).containers }
    {
        self.reader.containers()
    }

    /// Reads the next line, and moves on after it; none if there is no more. At the end the containers and the leaf that are open end.
    ///
    /// # Errors
    ///
    /// Out of memory is the only error. The cursor is then as it was, before that line.
    pub fn next_line(&mut self) -> Result<Option<LineRead<'s>>, AllocError>
        ensures ok { IfOk result (λ read. IsRead (unread self.old) read (unread self.new)) }
        ensures err { OnErr result (unread self.new ≡ unread self.old) }
    {
        if self.rest.is_empty() {
            return Ok(None);
        }
        let (line, after) = cut_line(self.rest);
        let read = self.reader.read_line(line)?;
        self.rest = after;
        Ok(Some(read))
    }
}
