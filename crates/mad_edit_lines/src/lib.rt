//! The lines of a text, positions in them, and edits between two positions.
//!
//! In the order of the work:
//!
//! 1. [`line`]: a line, and its columns.
//! 2. [`position`], [`positions`]: positions in lines, what is at them, and what is between two.
//! 3. [`chars`]: the characters between two positions. [`words`]: which characters are in one word.
//! 4. [`edits`]: a text put in place of what is between two positions.
#![tactic(auto)]

mod chars;
mod edits;
mod line;
mod position;
mod positions;
mod words;

pub use chars::Chars;
pub use edits::edit_lines;
pub use line::{Line, char_width, columns, index_at_column};
pub use position::{Pos, Range};
pub use positions::{
    char_at, clear_lines, clone_lines, end_position, front_at, in_order, is_before, line_at,
    line_count, line_len, position_after, position_before, position_past, rest_at, swap_lines,
    text_between, valid_pos,
};
pub use words::{CharClass, is_alphanumeric};
