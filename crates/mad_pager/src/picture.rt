//! Bytes that are drawn in memory.

ghost use Rattle.std.specs.Prelude.{◌≡◌, [], Some};
ghost use Rattle.mad_term.specs.Trace.{Puts, Flushes};
ghost use Rattle.mad_pager.specs.Pictures.{picture_trace};

use mad_term::Out;
use std::alloc::Global;
use std::io;

/// A device that keeps all that it takes. Its only fault is out of memory.
#[derive(Drop)]
pub(crate) struct Picture {
    bytes: Vec<u8>,
    faults: u64,
    flushes: u64,
}

impl Picture {
    /// One that has taken nothing.
    pub fn new(alloc: Global) -> Picture
        ensures { (picture_trace result).bytes ≡ Some [] }
    {
        Picture {
            bytes: Vec::new(alloc),
            faults: 0,
            flushes: 0,
        }
    }

    /// All the bytes that it took.
    pub fn taken(&self) -> &[u8]
        ensures { (picture_trace self.now).bytes ≡ Some result.now }
    {
        self.bytes.as_slice()
    }
}

impl Out for Picture {
    ghost use Rattle.mad_pager.specs.Pictures.{picture_trace};

    ghost seen = { picture_trace };

    #[tactic(auto, unfolding(mad_term::specs::Trace::after, mad_term::specs::Trace::failed))]
    fn put(&mut self, bytes: &[u8]) -> io::Result<usize>
        ensures { Puts (picture_trace self.old) bytes.now result (picture_trace self.new) }
    {
        if self.bytes.extend_from_slice(bytes).is_err() {
            self.faults = self.faults.saturating_add(1);
            return Err(io::Error::from(io::ErrorKind::OutOfMemory));
        }
        Ok(bytes.len())
    }

    #[tactic(auto, unfolding(mad_term::specs::Trace::flushed))]
    fn flush(&mut self) -> io::Result<()>
        ensures { Flushes (picture_trace self.old) result (picture_trace self.new) }
    {
        self.flushes = self.flushes.saturating_add(1);
        Ok(())
    }
}
