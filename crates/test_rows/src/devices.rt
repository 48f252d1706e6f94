//! Devices that fail: what a row writes goes to each of them.

use mad_screen::CutOut;
use mad_term::Error;
use std::alloc::{AllocError, Global};

/// What writes.
pub trait Writing {
    /// Writes to a device.
    ///
    /// # Errors
    ///
    /// A fault of the device; out of memory; anything else that the call is refused by.
    fn write(&self, alloc: Global, out: &mut CutOut) -> Result<(), Error>;
}

// More bytes than what is tried may write.
const ROOM: usize = 20_000;

/// Whether a line of an answer tells of a call that devices were tried on, and that did on each what it should.
pub fn is_cut(line: &str) -> bool {
    line.contains("cut after each of ")
}

/// Whether a line of an answer tells of a device on which a call did otherwise than it should.
pub fn is_fault(line: &str) -> bool {
    line.starts_with("not cut after ")
        || line.starts_with("other bytes")
        || line.ends_with("goes wrong")
}

// How a call ended on a device, and the device.
#[derive(Drop)]
struct Run {
    end: Result<(), Error>,
    out: CutOut,
}

impl Run {
    fn is_done(&self) -> bool {
        self.end.is_ok()
    }

    // Whether the device's one fault is what the call is refused by.
    fn is_cut(&self) -> bool {
        matches!(self.end, Err(Error::IO(_))) && self.out.faults() == 1
    }
}

fn run_on<W: Writing>(
    alloc: Global,
    writing: &W,
    step: usize,
    room: usize,
    flush_fails: bool,
) -> Result<Run, AllocError> {
    let mut out = CutOut::new(alloc, step, room, flush_fails)?;
    let end = writing.write(alloc, &mut out);
    if matches!(end, Err(Error::Memory)) {
        return Err(AllocError);
    }
    Ok(Run { end, out })
}

/// Tries devices that fail after any count of the bytes that are written, that take a byte at a time, and whose flush fails. It tells the count
/// of the bytes and whether the call flushes, or the first device on which it did otherwise than it should.
///
/// # Errors
///
/// Out of memory.
pub fn tried<W: Writing>(alloc: Global, writing: &W) -> Result<String, AllocError> {
    let whole = run_on(alloc, writing, ROOM, ROOM, false)?;
    if let Err(error) = whole.end {
        return format!(in alloc; "refused: {error}");
    }
    let bytes = whole.out.taken();
    let flushes = whole.out.flushes();
    for room in 0..bytes.len() {
        if !is_cut_at(alloc, writing, bytes, room)? {
            return format!(in alloc; "not cut after {room} bytes");
        }
    }
    let slow = run_on(alloc, writing, 1, bytes.len(), false)?;
    if !slow.is_done() || slow.out.taken() != bytes {
        return String::from_str(alloc, "other bytes, one at a time");
    }
    if !minds_flushes(alloc, writing, bytes, flushes)? {
        return String::from_str(alloc, "a flush that fails goes wrong");
    }
    let flushed = if flushes > 0 {
        ", and at its flush"
    } else {
        ""
    };
    format!(in alloc; "cut after each of {} bytes{flushed}", bytes.len())
}

// Whether a device that fails after some bytes got just these: all of them at once, or one at a time.
fn is_cut_at<W: Writing>(
    alloc: Global,
    writing: &W,
    bytes: &[u8],
    room: usize,
) -> Result<bool, AllocError> {
    for step in [ROOM, 1] {
        let cut = run_on(alloc, writing, step, room, false)?;
        let taken = cut.out.taken();
        if !cut.is_cut() || taken.len() != room || !bytes.starts_with(taken) {
            return Ok(false);
        }
    }
    Ok(true)
}

// Whether a flush that fails is what the call is refused by, if it flushes, after all bytes.
fn minds_flushes<W: Writing>(
    alloc: Global,
    writing: &W,
    bytes: &[u8],
    flushes: u64,
) -> Result<bool, AllocError> {
    let run = run_on(alloc, writing, ROOM, ROOM, true)?;
    let is_due = if flushes > 0 {
        run.is_cut()
    } else {
        run.is_done()
    };
    Ok(is_due && run.out.taken() == bytes)
}
