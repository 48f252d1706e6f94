//! Tables of data whose cells are handed as one text and the length of each, in bytes.
//!
//! In the order of the work:
//!
//! 1. [`cells`]: the text cut into cells, and these as rows.
//! 2. [`data_table`]: the rows as a table.
#![tactic(auto)]

mod cells;
mod data_table;

pub use cells::{cut_cells, rows_of};
pub use data_table::table_of_cells;
