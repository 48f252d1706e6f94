//! Rows of pieces in an area of the screen. No skin is known here.
//!
//! In the order of the work:
//!
//! 1. [`spaces`], [`char_repeats`]: spaces, and other characters many times, as displayed values.
//! 2. [`table_rules`]: rules across the columns of a table, as displayed values.
//! 3. [`rows_in_area`]: the rows of an area, each after a move to its position; no other cell changes.
//! 4. [`scroll_bars`]: rows beside a scroll bar, which follows each row or has moves of its own.
//! 5. [`parts`]: texts that go out in parts.
//! 6. [`rects`]: rectangles with a border. [`progress_bars`]: progress bars.
//! 7. [`fillings`]: one character over many columns. [`crop_writer`]: no more columns than a limit. [`spaced_texts`]: texts in
//!    a place of some columns.
//! 8. [`laws`]: what holds of rows beside a bar, of areas that are drawn one after the other, of pieces at any positions, of crop
//!    writers and of progress bars. [`untrusted`]: that printable texts have no control characters.
#![tactic(auto)]

pub mod char_repeats;
pub mod crop_writer;
pub mod fillings;
pub mod laws;
pub mod parts;
pub mod progress_bars;
pub mod rects;
pub mod rows_in_area;
pub mod scroll_bars;
pub mod spaced_texts;
pub mod spaces;
pub mod table_rules;
pub mod untrusted;

pub use char_repeats::{CharRepeat, SingleChars};
pub use crop_writer::CropWriter;
pub use fillings::{Filling, fill_bg, queue_spaces};
pub use parts::{Parts, put_parts};
pub use progress_bars::ProgressBar;
pub use rects::{
    BORDER_STYLE_BLAND, BORDER_STYLE_HALF_WIDTH_OUTSIDE, BORDER_STYLE_MIDDLE_ROUND_LINE,
    BORDER_STYLE_MIDDLE_SQUARE_LINE, Rect, RectBorderStyle,
};
pub use rows_in_area::{Rows, draw_rows};
pub use scroll_bars::{RowsBeside, ScrollBar, columns_beside, draw_rows_beside};
pub use spaced_texts::WriteSpaced;
pub use spaces::{SingleSpaces, Spaces};
pub use table_rules::{RuleAcross, RuleChars};
