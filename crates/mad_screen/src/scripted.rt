//! Devices for tests: all that they took or have left can be read, and they fail where one wants them to.

ghost use Rattle.std.specs.Prelude.{◌≡◌, ◌<◌, ◌≤◌, ◌+◌, ◌-◌, ◌^◌, ◌↔◌, IfOk, IsErr, IsTrue, Some, [], length, max, min, vec_capacity};
ghost use Rattle.mad_term.specs.Trace.{Puts, Flushes, Gets, Fills, failed};

use mad_term::{Out, Source};
use std::alloc::{AllocError, Global};
use std::io;

/// A device that takes a few bytes at a time, has room for a given number in all, and may fail at its flush.
#[derive(Debug, Drop)]
pub struct CutOut {
    taken: Vec<u8>,
    step: usize,
    room: usize,
    flush_fails: bool,
    faults: u64,
    flushes: u64,
    puts: u64,
    ghost reserved: { room ≤ vec_capacity taken },
}

impl CutOut {
    ghost use Rattle.mad_screen.specs.Scripted.{cut_trace, cut_puts, IsCutOut, IsSameDevice};

    /// A device that takes at most `step` bytes at a put and `room` bytes in all. A put that could take
    /// nothing is a fault, and so is each flush if `flush_fails`.
    ///
    /// Its room is reserved here, so that no put takes memory. Out of memory is the only error.
    pub fn new(
        alloc: Global,
        step: usize,
        room: usize,
        flush_fails: bool,
    ) -> Result<Self, AllocError>
        ensures { IfOk result (λ out. IsCutOut out step room flush_fails) }
    {
        Ok(CutOut {
            taken: Vec::with_capacity(alloc, room)?,
            step,
            room,
            flush_fails,
            faults: 0,
            flushes: 0,
            puts: 0,
        })
    }

    /// All the bytes that it took.
    pub fn taken(&self) -> &[u8]
        ensures { (cut_trace self.now).bytes ≡ Some result.now }
    {
        self.taken.as_slice()
    }

    /// How often it failed.
    pub fn faults(&self) -> u64
        ensures { result ≡ (cut_trace self.now).faults }
    {
        self.faults
    }

    /// How often it was flushed.
    pub fn flushes(&self) -> u64
        ensures { result ≡ (cut_trace self.now).flushes }
    {
        self.flushes
    }

    /// How often it was put to, puts of nothing and refused ones too.
    pub fn puts(&self) -> u64
        ensures { result ≡ cut_puts self.now }
    {
        self.puts
    }

    // Counts a fault and answers it.
    #[tactic(auto, unfolding(mad_term::specs::Trace::failed))]
    fn fail(&mut self) -> io::Error
        ensures counted { cut_trace self.new ≡ failed (cut_trace self.old) }
        ensures puts { cut_puts self.new ≡ cut_puts self.old }
        ensures keeps { IsSameDevice self.old self.new }
    {
        self.faults = self.faults.saturating_add(1);
        io::Error::new(io::ErrorKind::Other, "no more room")
    }
}

impl Out for CutOut {
    ghost use Rattle.mad_screen.specs.Scripted.{cut_trace, cut_puts, cut_count, refuses_flushes, IsSameDevice};

    ghost seen = { cut_trace };

    #[tactic(auto, unfolding(mad_term::specs::Trace::after))]
    fn put(&mut self, bytes: &[u8]) -> io::Result<usize>
        ensures puts { Puts (cut_trace self.old) bytes.now result (cut_trace self.new) }
        ensures count { IfOk result (λ count. count ≡ cut_count self.old (length bytes.now)) }
        ensures fault { IsErr result ↔ (0 < length bytes.now) × (cut_count self.old (length bytes.now) ≡ 0) }
        ensures counted { cut_puts self.new ≡ min (cut_puts self.old + 1) (2 ^ 64 - 1) }
        ensures keeps { IsSameDevice self.old self.new }
    {
        self.puts = self.puts.saturating_add(1);
        if bytes.is_empty() {
            return Ok(0);
        }
        let left = self.room.saturating_sub(self.taken.len());
        let count = bytes.len().min(self.step).min(left);
        if count == 0 {
            return Err(self.fail());
        }
        self.taken.extend_from_slice(&bytes[..count]).unwrap();
        Ok(count)
    }

    #[tactic(auto, unfolding(mad_term::specs::Trace::flushed))]
    fn flush(&mut self) -> io::Result<()>
        ensures flushes { Flushes (cut_trace self.old) result (cut_trace self.new) }
        ensures fault { IsErr result ↔ IsTrue (refuses_flushes self.old) }
        ensures no_put { cut_puts self.new ≡ cut_puts self.old }
        ensures keeps { IsSameDevice self.old self.new }
    {
        if self.flush_fails {
            return Err(self.fail());
        }
        self.flushes = self.flushes.saturating_add(1);
        Ok(())
    }
}

/// A source that hands out given bytes. After these it is at its end, or each call that asks for a byte is a fault.
#[derive(Debug, Drop)]
pub struct ScriptSource<'s> {
    left: &'s [u8],
    step: usize,
    fails: bool,
    faults: u64,
    ghost some: { 0 < step },
}

impl<'s> ScriptSource<'s> {
    ghost use Rattle.mad_screen.specs.Scripted.{script_trace, IsScript};

    /// A source of `bytes`; after them it fails if `fails`, else it is at its end. A fill hands out all that it has room for.
    pub fn new(bytes: &'s [u8], fails: bool) -> Self
        ensures { IsScript result bytes.entry.now (2 ^ 64 - 1) fails }
    {
        Self::in_steps(bytes, usize::MAX, fails)
    }

    /// The same, whose fills hand out at most `step` bytes each, and at least one. A step of 0 is one of 1.
    pub fn in_steps(bytes: &'s [u8], step: usize, fails: bool) -> Self
        ensures { IsScript result bytes.entry.now (max step 1) fails }
    {
        ScriptSource {
            left: bytes,
            step: step.max(1),
            fails,
            faults: 0,
        }
    }

    /// The bytes that it has left.
    pub fn left(&self) -> &'s [u8]
        ensures { (script_trace self.now).bytes ≡ Some result.now }
    {
        self.left
    }

    /// How often it failed.
    pub fn faults(&self) -> u64
        ensures { result ≡ (script_trace self.now).faults }
    {
        self.faults
    }
}

impl ScriptSource<'_> {
    ghost use Rattle.mad_screen.specs.Scripted.{script_trace, IsSameSource};

    // Counts a fault and answers it.
    #[tactic(auto, unfolding(mad_term::specs::Trace::failed))]
    fn fail(&mut self) -> io::Error
        ensures counted { script_trace self.new ≡ failed (script_trace self.old) }
        ensures keeps { IsSameSource self.old self.new }
    {
        self.faults = self.faults.saturating_add(1);
        io::Error::new(io::ErrorKind::Other, "the script ends in a fault")
    }
}

impl Source for ScriptSource<'_> {
    ghost use Rattle.mad_screen.specs.Scripted.{script_trace, script_count, ends_in_fault, IsSameSource};

    ghost seen = { script_trace };

    #[tactic(auto, unfolding(mad_term::specs::Trace::ahead))]
    fn get(&mut self) -> io::Result<Option<u8>>
        ensures gets { Gets (script_trace self.old) result (script_trace self.new) }
        ensures fault { IsErr result ↔ ((script_trace self.old).bytes ≡ Some []) × IsTrue (ends_in_fault self.old) }
        ensures keeps { IsSameSource self.old self.new }
    {
        if let [first, rest @ ..] = self.left {
            self.left = rest;
            return Ok(Some(*first));
        }
        if self.fails {
            return Err(self.fail());
        }
        Ok(None)
    }

    #[tactic(auto, unfolding(mad_term::specs::Trace::ahead_all))]
    fn fill(&mut self, buffer: &mut [u8]) -> io::Result<usize>
        ensures fills { Fills (script_trace self.old) buffer.new result (script_trace self.new) }
        ensures count { IfOk result (λ count. count ≡ script_count self.old (length buffer.old)) }
        ensures fault { IsErr result ↔ (0 < length buffer.old) × ((script_trace self.old).bytes ≡ Some []) × IsTrue (ends_in_fault self.old) }
        ensures keeps { IsSameSource self.old self.new }
    {
        if self.fails && self.left.is_empty() && !buffer.is_empty() {
            return Err(self.fail());
        }
        let count = buffer.len().min(self.step).min(self.left.len());
        let (front, rest) = self.left.split_at(count);
        buffer[..count].copy_from_slice(front);
        self.left = rest;
        Ok(count)
    }
}
