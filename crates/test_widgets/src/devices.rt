//! The bytes of a field, and devices that fail.

use mad_field::InputField;
use mad_screen::CutOut;
use mad_term::Error;
use std::alloc::{AllocError, Global};
use test_rows::devices::Writing;

// More bytes than a field of a row takes.
const ROOM: usize = 20000;

/// Appends the bytes of a drawing.
pub fn push_bytes(answer: &mut String, field: &InputField) -> Result<(), AllocError> {
    let alloc = *answer.allocator();
    let mut out = CutOut::new(alloc, ROOM, ROOM, false)?;
    if let Err(Error::Memory) = Drawn(field).write(alloc, &mut out) {
        return Err(AllocError);
    }
    let text = String::from_utf8_lossy(alloc, out.taken())?;
    write!(answer, "{text}\n")
}

/// Appends whether devices that fail get what they should of a drawing.
pub fn push_tried(answer: &mut String, field: &InputField) -> Result<(), AllocError> {
    let tried = test_rows::devices::tried(*answer.allocator(), &Drawn(field))?;
    write!(answer, "{tried}\n")
}

// What goes out of a field, with a flush.
#[derive(Drop)]
struct Drawn<'f>(&'f InputField);

impl Writing for Drawn<'_> {
    fn write(&self, _alloc: Global, out: &mut CutOut) -> Result<(), Error> {
        if self.0.area().is_within_limits() {
            self.0.display(out)?;
        }
        Ok(())
    }
}
