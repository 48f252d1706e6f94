//! A device in memory.

ghost use Rattle.std.specs.Prelude.{◌≡◌, IfOk, IsOk, length};
ghost use Rattle.mad_term.specs.Trace.{Puts, Flushes};
ghost use Rattle.mad_frames.specs.Gathered.{gathered_trace, untouched};

use mad_term::Out;
use std::alloc::Global;
use std::io;

/// A device that keeps all that it takes, in memory that grows. It fails only where there is none.
#[derive(Drop)]
pub struct Gathered {
    /// All that it took.
    pub bytes: Vec<u8>,
    faults: u64,
    flushes: u64,
}

impl Gathered {
    /// A device that took nothing yet.
    pub fn new(alloc: Global) -> Self
        ensures { gathered_trace result ≡ untouched }
    {
        Gathered {
            bytes: Vec::new(alloc),
            faults: 0,
            flushes: 0,
        }
    }
}

impl Out for Gathered {
    ghost seen = { gathered_trace };

    #[tactic(auto, unfolding(mad_term::specs::Trace::after, mad_term::specs::Trace::failed))]
    fn put(&mut self, bytes: &[u8]) -> io::Result<usize>
        ensures puts { Puts (gathered_trace self.old) bytes.now result (gathered_trace self.new) }
        ensures whole { IfOk result (λ count. count ≡ length bytes.now) }
    {
        if self.bytes.extend_from_slice(bytes).is_err() {
            self.faults = self.faults.saturating_add(1);
            return Err(io::Error::from(io::ErrorKind::OutOfMemory));
        }
        Ok(bytes.len())
    }

    #[tactic(auto, unfolding(mad_term::specs::Trace::flushed))]
    fn flush(&mut self) -> io::Result<()>
        ensures flushes { Flushes (gathered_trace self.old) result (gathered_trace self.new) }
        ensures always { IsOk result }
    {
        self.flushes = self.flushes.saturating_add(1);
        Ok(())
    }
}
