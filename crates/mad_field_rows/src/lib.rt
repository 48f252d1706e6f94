//! What an input field shows: where it is scrolled to, and a line in its row of the screen. No field is known here.
//!
//! In the order of the work:
//!
//! 1. [`scrolls`]: where a field is scrolled to, by numbers.
//! 2. [`positions`]: which characters of a line are at a column, and which are selected.
//! 3. [`line_rows`]: the characters of a line in a row, one after another: with `…` where some are hidden, and spaces up to the row's end.
//! 4. [`row_pieces`]: what is drawn of them, and where the last marked one is.
//! 5. [`laws`]: what scrolls and rows keep.
#![tactic(auto)]

pub mod laws;
mod line_rows;
mod positions;
mod row_pieces;
mod scrolls;

pub use line_rows::{LineRow, RowChar};
pub use positions::{end_selected, first_selected, index_at};
pub use row_pieces::{last_marked, push_blanks, push_chars};
pub use scrolls::{columns_hidden, lines_hidden, text_width};
