//! Devices that are told the size of the screen.

ghost use Rattle.std.specs.Prelude.{◌≡◌};

use mad_term::Out;

/// A device that shows pictures: it is told for which screen they are drawn.
pub trait Shows: Out {
    /// Tells it the columns and rows of the screen for which the next pictures are drawn. Nothing that was put changes.
    fn sized(&mut self, columns: u16, rows: u16)
        ensures { Self.seen self.new ≡ Self.seen self.old };
}
