//! What changes from one screen to another, as bytes that a terminal can read.
//!
//! In the order of the work:
//!
//! 1. [`whole`]: screens of whole characters, which bytes can lead to.
//! 2. [`mending`]: rows whose halves of wide characters are spaces.
//! 3. [`runs`]: where a row has changed.
//! 4. [`pieces`]: cells written as pieces of styled text.
//! 5. [`writing`]: the bytes from one screen to another.
//! 6. [`gathered`]: a device in memory.
//! 7. [`errors`], [`frame`]: screens that are drawn into and presented.
//! 8. [`terminal`]: a terminal for tests.
//! 9. [`scrolling`], [`matching`], [`scrolled`]: the bytes from one screen to another on a terminal that scrolls.
//! 10. [`shows`], [`history`], [`messages`], [`sparing`]: a device that sends only what changes.
//! 11. [`laws`]: what is true of a frame and of such a device, whatever is done with them.
#![tactic(auto)]

mod errors;
mod frame;
mod gathered;
mod history;
pub mod laws;
mod matching;
mod mending;
mod messages;
mod pieces;
mod runs;
mod scrolled;
mod scrolling;
mod shows;
mod sparing;
mod terminal;
mod whole;
mod writing;

pub use errors::PresentError;
pub use frame::Frame;
pub use gathered::Gathered;
pub use shows::Shows;
pub use sparing::Sparing;
pub use terminal::TestTerminal;
pub use writing::changes;
