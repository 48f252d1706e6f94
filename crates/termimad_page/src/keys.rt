//! Keys that a run begins with.

ghost use Rattle.std.specs.Prelude.{◌≡◌, ◌<◌, [], IfOk, length, min};
ghost use Rattle.mad_term.specs.Trace.{Fills, Gets, ahead_all};

use mad_term::Source;
use std::io;

/// A source that hands out some bytes first, in blocks of their own, and then those of another one.
#[derive(Drop)]
pub(crate) struct KeysFirst<'w, I: Source> {
    /// What it hands out first.
    pub first: &'w [u8],
    /// The other one.
    pub input: I,
}

impl<'w, I: Source> KeysFirst<'w, I> {
    /// A source that hands out what the other one does.
    pub(crate) fn new(input: I) -> Self
        ensures first { result.first.now ≡ [] }
        ensures input { result.input ≡ input }
    {
        KeysFirst { first: &[], input }
    }

    /// Hands out these bytes before those of the other one, and none that were to come before them.
    pub(crate) fn begin_with(&mut self, first: &'w [u8])
        ensures first { self.new.first.now ≡ first.now }
        ensures input { self.new.input ≡ self.old.input }
    {
        self.first = first;
    }
}

impl<I: Source> Source for KeysFirst<'_, I> {
    ghost seen = { λ keys. ahead_all keys.first.now (I.seen keys.input) };

    fn get(&mut self) -> io::Result<Option<u8>> {
        if let [byte, rest @ ..] = self.first {
            self.first = rest;
            return Ok(Some(*byte));
        }
        self.input.get()
    }

    fn fill(&mut self, buffer: &mut [u8]) -> io::Result<usize>
        ensures fills { Fills (ahead_all self.old.first.now (I.seen self.old.input)) buffer.new result (ahead_all self.new.first.now (I.seen self.new.input)) }

        // A block of the first ones has no byte of the other source.
        ensures apart { 0 < length self.old.first.now → IfOk result (λ count. count ≡ min (length buffer.old) (length self.old.first.now)) }
    {
        if self.first.is_empty() {
            return self.input.fill(buffer);
        }
        let count = buffer.len().min(self.first.len());
        let (front, rest) = self.first.split_at(count);
        buffer[..count].copy_from_slice(front);
        self.first = rest;
        Ok(count)
    }
}
