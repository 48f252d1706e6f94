//! A text of code by itself, such as a file, shown as Markdown shows it in a fence.
//!
//! 1. [`reading`]: a text of code as the section that a fence around it would be.
//! 2. [`writing`]: its rows, written as those of a page.
//! 3. [`laws`]: a fence around a text shows that text.
#![tactic(auto)]

pub mod laws;
pub mod reading;
pub mod writing;

pub use code_words::language_word;
pub use reading::read_code;
pub use writing::write_code_on;
