//! A source that hands out a block a line, and a device that knows its pictures apart.

ghost use Rattle.std.specs.Prelude.{◌^◌, ◌-◌, None};

use mad_frames::Shows;
use mad_term::{Out, Source};
use std::alloc::Global;
use std::io;

/// A source whose fills hand out a line each, without its newline. After the last line, and at an empty one, it is at its end.
#[derive(Drop)]
pub struct Blocks<'s> {
    left: &'s str,
}

impl<'s> Blocks<'s> {
    /// A source of these lines.
    pub fn new(lines: &'s str) -> Self {
        Blocks { left: lines }
    }
}

impl Source for Blocks<'_> {
    ghost seen = { λ _. record { bytes = None; faults = 0; flushes = 0 } };

    #[tactic(auto, unfolding(mad_term::specs::Trace::ahead))]
    fn get(&mut self) -> io::Result<Option<u8>> {
        let mut byte = [0];
        let count = self.fill(&mut byte)?;
        Ok(if count == 0 { None } else { Some(byte[0]) })
    }

    #[tactic(auto, unfolding(mad_term::specs::Trace::ahead_all))]
    fn fill(&mut self, buffer: &mut [u8]) -> io::Result<usize> {
        let (line, rest) = self.left.split_once('\n').unwrap_or((self.left, ""));
        let count = line.len().min(buffer.len());
        buffer[..count].copy_from_slice(&line.as_bytes()[..count]);
        self.left = rest;
        Ok(count)
    }
}

/// A text that comes in parts, between which a line `++` stands: one each time that it is read up to where it ends by then. A part has less than 4 KiB.
#[derive(Drop)]
pub struct Parts<'s> {
    left: &'s str,
    pauses: bool,
}

impl<'s> Parts<'s> {
    /// A source of these parts.
    pub fn new(parts: &'s str) -> Self {
        Parts {
            left: parts,
            pauses: false,
        }
    }
}

impl Source for Parts<'_> {
    ghost seen = { λ _. record { bytes = None; faults = 0; flushes = 0 } };

    #[tactic(auto, unfolding(mad_term::specs::Trace::ahead))]
    fn get(&mut self) -> io::Result<Option<u8>> {
        let mut byte = [0];
        let count = self.fill(&mut byte)?;
        Ok(if count == 0 { None } else { Some(byte[0]) })
    }

    #[tactic(auto, unfolding(mad_term::specs::Trace::ahead_all))]
    fn fill(&mut self, buffer: &mut [u8]) -> io::Result<usize> {
        if self.pauses {
            self.pauses = false;
            return Ok(0);
        }
        let (part, rest) = self.left.split_once("++\n").unwrap_or((self.left, ""));
        let count = part.len().min(buffer.len());
        buffer[..count].copy_from_slice(&part.as_bytes()[..count]);
        self.left = rest;
        self.pauses = count > 0;
        Ok(count)
    }
}

/// A mark that has its byte after so many looks.
#[derive(Drop)]
pub struct Mark {
    looks: usize,
    byte: u8,
}

impl Mark {
    /// One that has this byte after so many looks.
    pub fn new(looks: usize, byte: u8) -> Self {
        Mark { looks, byte }
    }
}

impl Source for Mark {
    ghost seen = { λ _. record { bytes = None; faults = 0; flushes = 0 } };

    #[tactic(auto, unfolding(mad_term::specs::Trace::ahead))]
    fn get(&mut self) -> io::Result<Option<u8>> {
        let mut byte = [0];
        let count = self.fill(&mut byte)?;
        Ok(if count == 0 { None } else { Some(byte[0]) })
    }

    #[tactic(auto, unfolding(mad_term::specs::Trace::ahead_all))]
    fn fill(&mut self, buffer: &mut [u8]) -> io::Result<usize> {
        if self.looks > 0 || buffer.is_empty() {
            self.looks = self.looks.saturating_sub(1);
            return Ok(0);
        }
        buffer[0] = self.byte;
        Ok(1)
    }
}

/// A device that keeps what it takes up to each flush apart. Its faults are out of memory.
#[derive(Drop)]
pub struct Pictures {
    done: Vec<Vec<u8>>,
    last: Vec<u8>,
}

impl Pictures {
    /// One that has taken nothing.
    pub fn new(alloc: Global) -> Self {
        Pictures {
            done: Vec::new(alloc),
            last: Vec::new(alloc),
        }
    }

    /// What it took before each flush, after the one before.
    pub fn each(&self) -> &[Vec<u8>] {
        self.done.as_slice()
    }
}

impl Out for Pictures {
    ghost seen = { λ _. record { bytes = None; faults = 2 ^ 64 - 1; flushes = 2 ^ 64 - 1 } };

    #[tactic(auto, unfolding(mad_term::specs::Trace::after, mad_term::specs::Trace::failed))]
    fn put(&mut self, bytes: &[u8]) -> io::Result<usize> {
        match self.last.extend_from_slice(bytes) {
            Ok(()) => Ok(bytes.len()),
            Err(_) => Err(io::Error::from(io::ErrorKind::OutOfMemory)),
        }
    }

    #[tactic(auto, unfolding(mad_term::specs::Trace::flushed, mad_term::specs::Trace::failed))]
    fn flush(&mut self) -> io::Result<()> {
        let alloc = *self.last.allocator();
        let taken = std::mem::replace(&mut self.last, Vec::new(alloc));
        match self.done.push(taken) {
            Ok(()) => Ok(()),
            Err(_) => Err(io::Error::from(io::ErrorKind::OutOfMemory)),
        }
    }
}

impl Shows for Pictures {
    fn sized(&mut self, _columns: u16, _rows: u16) {}
}
