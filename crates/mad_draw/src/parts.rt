//! Texts that go out in parts.

ghost use Rattle.std.specs.Prelude.{◌≡◌, ℕ, List, ◌++◌, ◌<◌, OnOk, string_bytes};
ghost use Rattle.mad_term.specs.Draws.{Draws};
ghost use Rattle.mad_draw.specs.Parts.{parts_bytes};

use mad_term::{Error, Out, put_text};
use std::alloc::{AllocError, Global};

/// A text that comes in parts, as the rows of a drawing.
pub trait Parts {
    /// How many parts there are.
    ghost count: { Self → ℕ };

    /// The bytes of each part, by its number, counted from 0.
    ghost part: { Self → ℕ → List ℕ };

    /// How many parts there are.
    fn count(&self) -> usize
        ensures { result ≡ count self.now };

    /// Appends the part of this number.
    ///
    /// # Errors
    ///
    /// Out of memory. What the text then ends with is open.
    fn push_part(&self, bytes: &mut String, number: usize) -> Result<(), AllocError>
        requires { number < count self.now }
        ensures { OnOk result (string_bytes bytes.new ≡ string_bytes bytes.old ++ part self.now number) };
}

/// Writes all parts, one after the other. Nothing is flushed.
///
/// Each goes to the device in one put, as long as that takes all of it. There is never more than one in memory.
///
/// # Errors
///
/// A fault of the device, or out of memory. What went out by then is a beginning of the whole.
pub fn put_parts<O: Out, P: Parts>(alloc: Global, out: &mut O, parts: &P) -> Result<(), Error>
    ensures { Draws (O.seen out.old) (parts_bytes (P.part parts.now) (P.count parts.now)) result (O.seen out.new) }
{
    let mut bytes = String::new(alloc);
    let count = parts.count();
    for number in 0..count {
        put_part(out, &mut bytes, parts, number)?;
    }
    Ok(())
}

// Writes one part. It is made in `bytes` first.
#[tactic(auto, using(mad_term::proofs::QueueExits::memory_first))]
fn put_part<O: Out, P: Parts>(
    out: &mut O,
    bytes: &mut String,
    parts: &P,
    number: usize,
) -> Result<(), Error>
    requires { number < P.count parts.now }
    ensures { Draws (O.seen out.old) (P.part parts.now number) result (O.seen out.new) }
{
    bytes.clear();
    parts.push_part(bytes, number)?;
    put_text(out, bytes)
}
