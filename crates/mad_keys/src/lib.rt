//! What a terminal sends, as events: keys, the mouse, the focus and the size.
//!
//! [`Keys`] reads bytes one at a time, and [`event_bytes`] writes an event.
//!
//! In the order of the work:
//!
//! 1. [`steps`]: what a byte does to the beginning of an event's bytes.
//! 2. `characters`, `numbers`, `sequences`, `mouse`: the event of a character, and of a sequence by its numbers and its letter.
//! 3. `meaning`: the event of bytes.
//! 4. [`decoder`]: the events of all bytes, one after another.
//! 5. `forms`, `written`: an event in its plainest form, and the bytes of a form.
//! 6. [`laws`]: what callers rely on.
#![tactic(auto)]

mod characters;
mod decoder;
mod forms;
pub mod laws;
mod meaning;
mod mouse;
mod numbers;
mod sequences;
mod steps;
mod written;

pub use decoder::Keys;
pub use written::event_bytes;
