//! Blocks of html: how each of the seven kinds begins, and where it ends. In the order of the work:
//!
//! 1. [`names`]: names of tags.
//! 2. [`starts`]: how blocks begin, and what ends each.
//! 3. [`ends`]: whether a line has that end.
#![tactic(auto)]

mod ends;
pub mod names;
pub mod starts;

pub use ends::ends_html;
pub use starts::{Ending, html_start};
