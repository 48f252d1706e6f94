//! What a device sends that sends only what changes.

ghost use Rattle.std.specs.Prelude.{◌^◌, ◌-◌, None};

use crate::screens::bytes_of;
use crate::words::pair;
use mad_frames::{Shows, Sparing};
use mad_term::{Out, put_all};
use std::alloc::{AllocError, Global};
use std::io;

/// A device that takes so many bytes, then fails once, and takes all after that.
#[derive(Drop)]
struct Halting {
    room: Option<usize>,
    taken: Vec<u8>,
}

impl Out for Halting {
    ghost seen = { λ _. record { bytes = None; faults = 2 ^ 64 - 1; flushes = 2 ^ 64 - 1 } };

    #[tactic(auto, unfolding(mad_term::specs::Trace::after, mad_term::specs::Trace::failed))]
    fn put(&mut self, bytes: &[u8]) -> io::Result<usize> {
        let count = match self.room {
            None => bytes.len(),
            Some(0) => {
                self.room = None;
                return Err(io::Error::from(io::ErrorKind::StorageFull));
            }
            Some(room) => {
                let count = room.min(bytes.len());
                self.room = Some(room - count);
                count
            }
        };
        match self.taken.extend_from_slice(&bytes[..count]) {
            Ok(()) => Ok(count),
            Err(_) => Err(io::Error::from(io::ErrorKind::OutOfMemory)),
        }
    }

    #[tactic(auto, unfolding(mad_term::specs::Trace::flushed, mad_term::specs::Trace::failed))]
    fn flush(&mut self) -> io::Result<()> {
        Ok(())
    }
}

// One step: a text that is put, a size that is told, or a flush, whose bytes are written.
fn step(
    alloc: Global,
    sparing: &mut Sparing<Halting>,
    line: &str,
    answer: &mut String,
) -> Result<(), AllocError> {
    let (name, rest) = line.split_once(' ').unwrap_or((line, ""));
    match name {
        "put" => match put_all(sparing, &bytes_of(alloc, rest)?) {
            Ok(()) => Ok(()),
            Err(_) => Err(AllocError),
        },
        "sized" => {
            let (columns, rows) = pair(rest);
            sparing.sized(columns, rows);
            Ok(())
        }
        _ => {
            let before = sparing.below().taken.len();
            let done = sparing.flush();
            let taken = sparing.below().taken.as_slice();
            let sent = &taken[before.min(taken.len())..];
            let text = String::from_utf8_lossy(alloc, sent)?;
            let fault = if done.is_ok() { "" } else { "a fault; " };
            let count = sent.len();
            write!(answer, "{fault}{count} bytes: {text}\n")
        }
    }
}

/// What such a device sends over steps, one a line, on a screen of a size. The word before the size is how many bytes are taken before a fault, or `whole`.
pub fn spared(alloc: Global, call: &str, text: &str) -> Result<String, AllocError> {
    let (room, size) = call.split_once(' ').unwrap_or((call, ""));
    let (columns, rows) = pair(size);
    let below = Halting {
        room: room.parse().ok(),
        taken: Vec::new(alloc),
    };
    let mut sparing = Sparing::new(alloc, below, columns, rows)?;
    let mut answer = String::new(alloc);
    for line in text.split('\n') {
        step(alloc, &mut sparing, line, &mut answer)?;
    }
    Ok(answer)
}
