//! A device of one's own: it keeps all that it takes, in memory that grows.

use std::alloc::Global;
use std::io;
use std::io::{Error as IoError, ErrorKind};
use termimad::Out;

/// The bytes that were written on it, and how often it failed and was flushed.
#[derive(Drop)]
pub struct Page {
    pub bytes: Vec<u8>,
    faults: u64,
    flushes: u64,
}

impl Page {
    ghost use Rattle.std.specs.Prelude.{◌≡◌};
    ghost use Rattle.examples_drawn.specs.Page.{page_trace, empty_page};

    /// A page on which nothing is written yet.
    pub fn new(alloc: Global) -> Self
        ensures { page_trace result ≡ empty_page }
    {
        Page {
            bytes: Vec::new(alloc),
            faults: 0,
            flushes: 0,
        }
    }
}

// A device says what a contract sees of it (`seen`), and keeps the contracts that `Out` states of a put and a flush.
impl Out for Page {
    ghost use Rattle.examples_drawn.specs.Page.{page_trace};

    ghost seen = { page_trace };

    #[tactic(auto, unfolding(mad_term::specs::Trace::after, mad_term::specs::Trace::failed))]
    fn put(&mut self, bytes: &[u8]) -> io::Result<usize> {
        if self.bytes.extend_from_slice(bytes).is_err() {
            self.faults = self.faults.saturating_add(1);
            return Err(IoError::from(ErrorKind::OutOfMemory));
        }
        Ok(bytes.len())
    }

    #[tactic(auto, unfolding(mad_term::specs::Trace::flushed))]
    fn flush(&mut self) -> io::Result<()> {
        self.flushes = self.flushes.saturating_add(1);
        Ok(())
    }
}
