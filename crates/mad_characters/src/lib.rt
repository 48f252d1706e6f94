//! What a character is to a terminal: the columns that it takes, and whether it is shown or obeyed.
//!
//! 1. `wide`: the characters that are known to take two columns. `columns`: those that any character takes.
//! 2. `pictures`: what stands for the characters that a terminal obeys.
#![tactic(auto)]

mod columns;
mod pictures;
mod wide;

pub use columns::char_columns;
pub use pictures::{is_printable_char, picture};
pub use wide::is_known_wide;
