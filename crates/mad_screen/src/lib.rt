//! The plain terminal, which says what bytes show, and devices for tests.
//!
//! In the order of the work:
//!
//! 1. [`pen`]: what a character is written with.
//! 2. [`cell`]: what one position of a screen shows.
//! 3. [`screen`]: cells, a cursor and a pen, and what each character and command does to them.
//! 4. [`reader`]: a text, character by character.
//! 5. [`pictures`]: screens as text.
//! 6. [`laws`]: what drawing relies on.
//! 7. [`scripted`]: devices whose bytes can be read, and which fail where one wants them to.
#![tactic(auto)]

mod cell;
pub mod laws;
mod pen;
mod pictures;
mod reader;
mod screen;
mod scripted;

pub use cell::Cell;
pub use pen::Pen;
pub use pictures::Looks;
pub use reader::NotPlain;
pub use screen::Screen;
pub use scripted::{CutOut, ScriptSource};
