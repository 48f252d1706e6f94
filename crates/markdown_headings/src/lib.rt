//! The headings of a text as it was read, the names that links within it go to, and where such a link goes. In the order of the work:
//!
//! 1. [`titles`]: which sections are headings, and what these show.
//! 2. [`names`]: their names.
//! 3. [`naming`]: each with its name.
//! 4. [`targets`]: where `#name` goes.
#![tactic(auto)]

mod names;
mod naming;
mod targets;
mod titles;

pub use naming::{Heading, headings};
pub use targets::{find_section, find_target};
