//! Rows: what is written of the lines of a text, piece by piece.
//!
//! In the order of the work:
//!
//! 1. [`page_styles`], [`row_skin`]: what rows are drawn in, the part of a skin that they show.
//! 2. [`rows`]: where a line is in its row, and the columns that no text fills.
//! 3. [`composites`], [`tables`], [`lines`]: a composite, a line of a table, and any line or row as displayed values.
//! 4. [`style_commands`]: the commands of a style, made once.
//! 5. `placed_writing`, [`row_writing`]: lines and rows put after a string.
#![tactic(auto)]

pub mod composites;
pub mod lines;
pub mod page_styles;
mod placed_writing;
pub mod row_skin;
pub mod row_writing;
pub mod rows;
pub mod style_commands;
pub mod tables;

pub use composites::{CompositeEnd, CompositeFront, FreeComposite, PlacedComposite};
pub use lines::{PlacedLine, PlacedLines, PlacedRow};
pub use page_styles::{PageStyles, TitleStyles};
pub use row_skin::{
    FlagStyles, HeaderStyles, OrderedItemStyles, RowSkin, ToneStyles, item_style_at, sets_nothing,
    style_of_compound, style_of_kind,
};
pub use row_writing::{TextRows, append_line, append_lines};
pub use rows::{
    RowPlace, cell_columns, cell_margins, composite_blanks, inner_blanks, inner_columns, know_row,
    know_styles, line_blanks, margins_of, outer_blanks, row_blanks, row_columns,
};
pub use style_commands::StyleCommands;
pub use tables::{spaces_beside, vertical};
