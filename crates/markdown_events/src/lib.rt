//! The blocks of a text as events: what begins, what ends, and the lines of leaves. Neighbouring items with one sign are in a list. In the order
//! of the work:
//!
//! 1. [`events`]: what happens in a text.
//! 2. [`walk`]: the events so far, and what is open.
//! 3. [`read`]: reading a text.
//! 4. [`places`]: in which line of the source each part begins.
//! 5. [`laws`]: what holds of the events of every text.
#![tactic(auto)]

pub mod events;
pub mod laws;
pub mod places;
pub mod read;
mod walk;

pub use events::{Event, Tag};
pub use places::read_placed;
pub use read::read_events;
