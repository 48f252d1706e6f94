//! Reading a source to its end.

ghost use Rattle.std.specs.Prelude.{MatchResult};
ghost use Rattle.termimad_run.specs.Reading.{ReadsWhole, ReadingFails};

use mad_term::Source;
use std::alloc::Global;
use termimad_words::Failure;

// How many bytes one fill is asked for.
const BLOCK: usize = 1 << 14;

/// All the bytes that a source has.
///
/// # Errors
///
/// The first fault of the source, or out of memory for its bytes. Those that were read by then are gone.
pub fn read_all<I: Source>(alloc: Global, input: &mut I) -> Result<Vec<u8>, Failure>
    ensures { MatchResult result (λ bytes. ReadsWhole (I.seen input.old) bytes.items (I.seen input.new))
        (λ failure. ReadingFails (I.seen input.old) failure (I.seen input.new)) }
{
    let mut bytes = Vec::new(alloc);
    let mut block = [0; BLOCK];
    loop {
        let count = input.fill(&mut block)?;
        if count == 0 {
            return Ok(bytes);
        }
        bytes.extend_from_slice(&block[..count])?;
    }
}
