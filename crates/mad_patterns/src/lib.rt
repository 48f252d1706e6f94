//! What is sought in a text that is laid out in rows, by a regular expression.
//!
//! 1. [`letters`], [`faults`], [`readings`]: what is sought: a text, read as a regular expression.
//! 2. [`breaks`], [`found`]: the hits in a line of the text; [`search`]: which row has one.
//! 3. [`laws`]: what is found of a text.
#![tactic(auto)]

mod breaks;
mod faults;
mod found;
pub mod laws;
mod letters;
mod readings;
mod search;

pub use faults::Fault;
pub use found::{FoundLine, composite_text, found_line, hits_in};
pub use readings::Sought;
pub use search::{next_row_in, previous_row_in};
