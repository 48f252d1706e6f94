//! Pages written with their links, as commands that terminals can follow (OSC 8).
//!
//! In the order of the work:
//!
//! 1. `open_composites`: a composite with its links. `cells`: a row of a table with its links. `row_ends`: no row ends in a blank that no style shows.
//! 2. [`linked_rows`]: a row of a page, between the faces of its gutters and the other sides of boxes.
//! 3. `column_marks`: the marks of the columns of tables. `cell_marks`: what rows take of these.
//! 4. [`linked_page_writing`]: the rows of a section, each with a newline.
//! 5. `link_marks`: the links of a text, numbered, and their addresses.
//! 6. [`linked_writing`]: a text of Markdown.
//! 7. [`laws`]: links change nothing of what is shown, each is where it belongs, and none is open at a row's end.
#![tactic(auto)]

mod cell_marks;
mod cells;
mod column_marks;
pub mod laws;
mod link_marks;
pub mod linked_page_writing;
pub mod linked_rows;
pub mod linked_writing;
mod open_composites;
mod row_ends;

pub use linked_page_writing::{append_linked_page_row, append_linked_section};
pub use linked_rows::{LinkedSkin, append_linked_row};
pub use linked_writing::write_markdown_with_links_on;
