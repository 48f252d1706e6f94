//! What a page over a text shows: the text with numbers at its links, these links in lines, or its headers.
//!
//! 1. [`sources`]: what is shown, a text or such a page, laid out.
//! 2. [`links`], [`contents`]: the lines of such a page.
//! 3. [`numbers`]: the numbers of sections; [`numbering`]: those of links on a screen.
#![tactic(auto)]

mod contents;
mod links;
mod numbering;
mod numbers;
mod sources;

pub use contents::{CONTENTS_NAME, NO_HEADERS};
pub use links::{LINKS_NAME, NEVER_LINKS, NO_LINKS, NUMBERS_NAME, links_before, nth_link};
pub use mad_search::{section_at, start_at};
pub use numbering::link_numbers;
pub use numbers::{count_below, header_numbers};
pub use sources::Source;
