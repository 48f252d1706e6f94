//! Rows of composites that were read, put after a string without a layout in between: [`read_rows`].
#![tactic(auto)]

pub mod read_rows;

pub use read_rows::{append_read, is_aligned_left};
