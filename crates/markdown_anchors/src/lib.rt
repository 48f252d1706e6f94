//! The names of headings, to which links within a text go: those that GitHub gives them.
//!
//! A name is what is shown of a heading, in small letters. Letters, marks, decimal digits, `_` and its like, and hyphens stay, a space becomes a hyphen, and
//! all else is dropped. The second heading of one name gets `-1` after it, the third `-2`.
#![tactic(auto)]

mod names;

pub use names::{find_heading, heading_names, push_heading_name};
