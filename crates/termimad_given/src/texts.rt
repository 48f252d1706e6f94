//! What a program asks of texts that have names.

ghost use Rattle.std.specs.Prelude.{ℕ, List, IfOk};

use std::alloc::Global;
use std::io;

/// Where texts are, by their names: files.
pub trait Texts {
    /// Whether these may be the bytes of the text of a name.
    ghost holds: { Self → List ℕ → List ℕ → Type 0 };

    /// The bytes of the text of a name.
    ///
    /// # Errors
    ///
    /// It can't be read, or out of memory.
    fn read(&self, alloc: Global, name: &str) -> io::Result<Vec<u8>>
        ensures { IfOk result (λ bytes. holds self.now name.now bytes.items) };
}
