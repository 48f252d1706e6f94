//! Tables, blocks of code and whole texts, laid out in limited width.
//!
//! In the order of the work:
//!
//! 1. `table_columns`: the widths of a table's columns, and how cells are aligned in them.
//! 2. [`table_rows`]: the rows that a row of a table becomes.
//! 3. [`table_layout`]: whole tables; [`table_cursor`]: line by line.
//! 4. [`code_blocks`]: finding and placing blocks of code by themselves.
//! 5. [`laying`]: what becomes of a line, and of a block of code. [`part_cursor`]: the parts of a text, read and laid out one after another.
//! 6. [`texts`]: the lines of whole texts.
//! 7. [`laws`]: what is no layout, and that a layout part by part is what passes make.
//!
//! A single line, and how it is wrapped, is in `mad_format`.
#![tactic(auto)]

pub mod code_blocks;
pub mod laws;
pub mod laying;
pub mod part_cursor;
mod table_columns;
pub mod table_cursor;
pub mod table_layout;
pub mod table_rows;
pub mod texts;

pub use code_blocks::{CodeBlock, find_blocks, justify_blocks};
pub use laying::{push_read_at, wrap_width};
pub use part_cursor::PartCursor;
pub use table_cursor::TableCursor;
pub use table_layout::{Table, fix_all_tables, table_rules};
pub use table_rows::lay_row;
pub use texts::{lay_front, lay_source, lay_text};
