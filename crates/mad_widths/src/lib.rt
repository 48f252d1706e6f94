//! The widths of a table's columns, from the widths of its cells and the width of the table.
//!
//! In the order of the work:
//!
//! 1. [`TblFit`]: a table that sees the widths of its cells, and fits its columns to its width ([`TblFitResult`]).
//! 2. `column_widths`: the three cases, columns that fit, a single column, and several that are too wide.
//! 3. `sharing`: the two steps by which the columns of the last case give up what is too wide.
//! 4. `word_widths`: the widths of columns that are no narrower than their longest words, where these fit together.
//! 5. [`laws`]: worked rows of the definition, and widths that are not the definition's.
#![tactic(auto)]

mod column_widths;
pub mod laws;
mod sharing;
mod tbl_fit;
mod word_widths;

pub use tbl_fit::{TblFit, TblFitResult};
