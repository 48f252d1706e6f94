//! Rows of a page that is laid out as lines and fronts, on a screen, and what is sought, marked in them: it is drawn once more,
//! in a style over that of its characters.
//!
//! 1. [`columns`]: the columns in front of a row's line. [`rooms`]: those that rows have. [`rows`], [`panes`]: rows in an area of the screen, beside a scroll bar.
//! 2. [`styled`]: the characters of a composite, each in its style.
//! 3. [`places`]: where the texts of a row begin; [`parts`]: the part of a hit that is in a text; [`hits`]: what is drawn of a row.
//! 4. [`drawing`]: all of it, over rows that were drawn, behind the fronts.
//! 5. [`own_rows`]: rows whose characters have styles of their own, and their hits.
//! 6. [`laws`]: what hits change.
#![tactic(auto)]

mod columns;
mod drawing;
mod hits;
pub mod laws;
mod own_rows;
mod panes;
mod parts;
mod places;
mod rooms;
mod rows;
mod styled;

pub use columns::columns_in_front;
pub use drawing::{columns_before, draw_chars, draw_row_hits};
pub use hits::{Hit, row_hits};
pub use own_rows::draw_own_rows;
pub use panes::{draw_page_rows, left_columns};
pub use places::column_in_row;
pub use rooms::RowRoom;
pub use rows::FrontRows;
