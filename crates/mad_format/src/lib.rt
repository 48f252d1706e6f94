//! Lines in limited width: composites and lines of tables, what a skin says of them, and wrapping.
//!
//! In the order of the work:
//!
//! 1. [`line_skin`]: what laying out asks of a skin.
//! 2. [`indents`], [`room`]: the columns that a line of a kind has for its text.
//! 3. [`composite`], [`table`], [`line`]: a line with its cached width; rows of a table, and rules across it.
//! 4. [`fitter`]: a composite fitted to a width, with an ellipsis in place of what goes.
//! 5. [`wrap`]: wrapping composites and lists of lines, with the fewest lines.
//! 6. [`plain`]: wrapping a plain text.
//! 7. [`bound`]: starts of lines that show that no fitting break has fewer.
//!
//! Tables, blocks of code and whole texts are laid out in `mad_blocks`.
#![tactic(auto)]

pub mod bound;
pub mod composite;
pub mod fitter;
pub mod indents;
pub mod line;
pub mod line_skin;
pub mod plain;
pub mod room;
pub mod table;
pub mod wrap;

pub use bound::{WrapBound, check_wrap_bound, wrap_bound};
pub use composite::FmtComposite;
pub use fitter::Fitter;
pub use indents::{composite_columns, composite_kind_widths, follow_up, indent_of};
pub use line::{FmtLine, put_line, rule_columns};
pub use line_skin::{LineSkin, around_cell, beside_cell};
pub use plain::wrap_text;
pub use room::{margins_and_rest, room_of};
pub use table::{FmtTableRow, FmtTableRule, RelativePosition};
pub use wrap::{hard_wrap_composite, hard_wrap_lines, push_composite, push_read, wrap_composite};
