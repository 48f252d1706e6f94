//! Pages as Markdown, whose blocks are read back. In the order of the work:
//!
//! 1. [`blocks`]: what a page is made of.
//! 2. [`words`]: words, in which a backslash stands before each sign that could be a mark.
//! 3. [`phrases`]: words, code, emphasis and links, one behind the other.
//! 4. [`fronts`]: a text as a quote, and as an item of a list.
//! 5. [`tables`]: rows of cells between bars.
//! 6. [`writing`]: blocks one below the other.
//! 7. [`laws`]: what is read of them.
#![tactic(auto)]

pub mod blocks;
pub mod fronts;
pub mod laws;
pub mod phrases;
pub mod tables;
pub mod words;
pub mod writing;

pub use blocks::{PageBlock, PagePhrase};
pub use words::escaped;
pub use writing::markdown_of;
