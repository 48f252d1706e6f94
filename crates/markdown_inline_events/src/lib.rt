//! The inlines of a leaf's text as events: texts, code, breaks, html, and what begins and ends around them. Each event has its bytes of the text.
//! In the order of the work:
//!
//! 1. [`events`]: what happens in a text.
//! 2. [`spans`]: what begins and ends, by the pairs of marks and by the brackets.
//! 3. [`lists`]: the spans that begin and end at each piece.
//! 4. [`shares`]: what a piece says, and how many of its bytes each has.
//! 5. [`read`]: reading a text.
//! 6. [`leaf`]: the text of a leaf's lines, and in which of these a place is.
//! 7. [`laws`]: what holds of the events of every text.
#![tactic(auto)]

pub mod events;
pub mod laws;
pub mod leaf;
mod lists;
pub mod read;
mod shares;
mod spans;

pub use events::{Inline, InlineEvent, InlineTag};
pub use leaf::{LinePlace, leaf_source, line_places};
pub use read::read_inlines;
