//! A text that is paged, and rows of it that are looked for.
//!
//! 1. [`paged`], [`plain`], [`row_pages`]: the sections of the text; [`dressed_pages`]: each with what is put into its page with it.
//! 2. [`headers`]: which rows begin a header.
//! 3. [`kept`]: which section has a row, and which row stays on top where the width changes.
#![tactic(auto)]

mod dressed_pages;
mod headers;
mod kept;
mod paged;
mod plain;
mod row_pages;

pub use dressed_pages::dress_each;
pub use headers::{next_header, previous_header};
pub use kept::{row_in_parts, section_at, start_at};
pub use paged::PagedText;
pub use plain::plain_page;
