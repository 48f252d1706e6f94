//! The readers and writers of the standard library as devices.

ghost use Rattle.std.specs.Prelude.{◌≡◌};
ghost use Rattle.std.specs.Io.KnownBytes.{Keeps, ReadConsumes, WriteAppends};
ghost use Rattle.mad_term.specs.Trace.{failed, Puts, Flushes, Gets, Fills};
ghost use Rattle.mad_term.specs.Stream.{stream_trace, stream_inner, untold, GetConsumes};

use crate::devices::{Out, Source};
use std::io;

/// A reader or a writer of the standard library as a device. It tells no bytes.
///
/// A writer that takes none of some bytes has failed, so that no call repeats it for ever.
#[derive(Drop)]
pub struct Stream<S> {
    inner: S,
    faults: u64,
    flushes: u64,
}

impl<S> Stream<S> {
    /// A device over `inner`, without a fault so far.
    pub fn new(inner: S) -> Self
        ensures inner { stream_inner result ≡ inner }
        ensures trace { stream_trace result ≡ untold }
    {
        Stream {
            inner,
            faults: 0,
            flushes: 0,
        }
    }

    // Counts a fault. The count stays at its greatest value.
    #[tactic(auto, unfolding(crate::specs::Trace::failed))]
    fn count_fault(&mut self)
        ensures inner { stream_inner self.new ≡ stream_inner self.old }
        ensures counted { stream_trace self.new ≡ failed (stream_trace self.old) }
    {
        self.faults = self.faults.saturating_add(1);
    }
}

impl<W: io::Write> Out for Stream<W> {
    ghost seen = { stream_trace };

    #[tactic(auto, unfolding(crate::specs::Trace::after))]
    fn put(&mut self, bytes: &[u8]) -> io::Result<usize>
        ensures puts { Puts (stream_trace self.old) bytes.now result (stream_trace self.new) }

        // What the writer knows of itself: it has what was taken, and nothing of a put that failed.
        ensures hands_on { WriteAppends (W.contents (stream_inner self.old))
            (W.contents (stream_inner self.new)) result bytes.now }
    {
        if bytes.is_empty() {
            return Ok(0);
        }
        match self.inner.write(bytes) {
            Ok(0) => {
                self.count_fault();
                Err(io::Error::new(io::ErrorKind::WriteZero, "nothing was taken"))
            }
            Ok(count) => Ok(count),
            Err(e) => {
                self.count_fault();
                Err(e)
            }
        }
    }

    #[tactic(auto, unfolding(crate::specs::Trace::flushed))]
    fn flush(&mut self) -> io::Result<()>
        ensures flushes { Flushes (stream_trace self.old) result (stream_trace self.new) }
        ensures keeps { Keeps (W.contents (stream_inner self.old)) (W.contents (stream_inner self.new)) }
    {
        let flushed = self.inner.flush();
        match flushed {
            Ok(()) => self.flushes = self.flushes.saturating_add(1),
            Err(_) => self.count_fault(),
        }
        flushed
    }
}

impl<R: io::Read> Source for Stream<R> {
    ghost seen = { stream_trace };

    #[tactic(auto, unfolding(crate::specs::Trace::ahead))]
    fn get(&mut self) -> io::Result<Option<u8>>
        ensures gets { Gets (stream_trace self.old) result (stream_trace self.new) }

        // What the reader knows of itself: it had this byte first, or none.
        ensures hands_out { GetConsumes (R.remaining (stream_inner self.old))
            (R.remaining (stream_inner self.new)) result }
    {
        let mut byte = [0];
        match self.inner.read(&mut byte) {
            Ok(0) => Ok(None),
            Ok(_) => Ok(Some(byte[0])),
            Err(e) => {
                self.count_fault();
                Err(e)
            }
        }
    }

    #[tactic(auto, unfolding(crate::specs::Trace::ahead_all))]
    fn fill(&mut self, buffer: &mut [u8]) -> io::Result<usize>
        ensures fills { Fills (stream_trace self.old) buffer.new result (stream_trace self.new) }

        // What the reader knows of itself: these bytes were its first.
        ensures hands_out { ReadConsumes (R.remaining (stream_inner self.old))
            (R.remaining (stream_inner self.new)) result buffer.new }
    {
        let filled = self.inner.read(buffer);
        if filled.is_err() {
            self.count_fault();
        }
        filled
    }
}
