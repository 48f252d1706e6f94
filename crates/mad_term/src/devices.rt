//! What takes bytes, and what gives them. A contract sees of a device one value, its *trace*.

ghost use Rattle.std.specs.Prelude.{◌≤◌, length};
ghost use Rattle.mad_term.specs.Trace.{Trace, TakesFront, Writes, Puts, Flushes, Gets, Fills};

use std::io;

/// Something that takes bytes.
pub trait Out {
    /// The bytes that it has taken, where it tells them, how often it has failed, and how often it was flushed.
    ghost seen: { Self → Trace };

    /// Takes a front of `bytes`, at least one byte where there is one, and answers how many.
    ///
    /// # Errors
    ///
    /// A fault of the device: nothing of `bytes` was taken, and its count of faults is one higher, unless it is at its
    /// greatest.
    fn put(&mut self, bytes: &[u8]) -> io::Result<usize>
        ensures { Puts (seen self.old) bytes.now result (seen self.new) };

    /// Hands on what it has kept back; its count of flushes is one higher, unless it is at its greatest.
    ///
    /// # Errors
    ///
    /// A fault of the device; its count of faults is one higher, unless it is at its greatest.
    fn flush(&mut self) -> io::Result<()>
        ensures { Flushes (seen self.old) result (seen self.new) };
}

/// Something that gives bytes, one at a time or a block at a time.
pub trait Source {
    /// The bytes that it has left, where it tells them, and how often it has failed.
    ghost seen: { Self → Trace };

    /// The next byte, or `None` at the end.
    ///
    /// # Errors
    ///
    /// A fault of the device: no byte is lost, and its count of faults is one higher, unless it is at its greatest.
    fn get(&mut self) -> io::Result<Option<u8>>
        ensures { Gets (seen self.old) result (seen self.new) };

    /// Puts the next bytes into the front of `buffer` and answers how many: none only at the end, or into an empty buffer.
    ///
    /// # Errors
    ///
    /// A fault of the device: no byte is lost, and its count of faults is one higher, unless it is at its greatest.
    fn fill(&mut self, buffer: &mut [u8]) -> io::Result<usize>
        ensures { Fills (seen self.old) buffer.new result (seen self.new) };
}

/// Puts all of `bytes`, by as many puts as the device asks for. Answers how many bytes the device took, and the first fault of
/// a put, which isn't repeated: these bytes were taken before it.
pub fn put_counted<O: Out>(out: &mut O, bytes: &[u8]) -> (usize, io::Result<()>)
    ensures within { result.0 ≤ length bytes.now }
    ensures taken { TakesFront (O.seen out.old) bytes.now result.0 result.1 (O.seen out.new) }
{
    let mut done = 0;
    while done < bytes.len() {
        match out.put(&bytes[done..]) {
            Ok(count) => done += count,
            Err(error) => return (done, Err(error)),
        }
    }
    (done, Ok(()))
}

/// Puts all of `bytes`, by as many puts as the device asks for.
///
/// # Errors
///
/// The first fault of a put: a front of `bytes` was taken before it, and the put isn't repeated.
pub fn put_all<O: Out>(out: &mut O, bytes: &[u8]) -> io::Result<()>
    ensures { Writes (O.seen out.old) bytes.now result (O.seen out.new) }
{
    put_counted(out, bytes).1
}
