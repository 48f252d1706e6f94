//! Pages written and drawn: of Markdown as people write it, and made by hand.
//!
//! 1. `row_ends`: no row ends in a blank that no style shows.
//! 2. [`page_writing`]: the rows of a section, put after a string.
//! 3. [`writing`]: a whole page.
//! 4. [`dressed_markdown`]: a text that was read, with what stands beside its headings and at its words.
//! 5. [`typed_pages`]: what types promise of a page. [`drawing`]: the first rows of a page in an area of the screen.
//! 6. [`laws`]: what is said of all pages.
#![tactic(auto)]

pub mod drawing;
pub mod dressed_markdown;
pub mod laws;
pub mod page_writing;
mod row_ends;
pub mod typed_pages;
pub mod writing;

pub use drawing::{draw_markdown, draw_page, lay_markdown, read_drawable};
pub use dressed_markdown::DressedMarkdown;
pub use page_writing::{append_page_row, append_section};
pub use writing::{append_sections, write_markdown_on, write_page_on};
