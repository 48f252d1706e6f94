//! Marks beside rows: for each composite of a row, how many counted characters of the text stand before it.
#![tactic(auto)]

mod numbers;

pub use numbers::{RowNumbers, count_in, count_in_compound, firsts_of, has_mark};
