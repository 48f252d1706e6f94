//! Text that isn't Markdown, as it is written: its lines, wrapped at a width, in their styles.
//!
//! 1. [`rows`]: what a row writes.
//! 2. [`lines`]: the rows of a line.
//! 3. [`writing`]: a text.
#![tactic(auto)]

mod lines;
mod rows;
mod writing;

pub use rows::pen_written;
pub use writing::write_plain_on;
