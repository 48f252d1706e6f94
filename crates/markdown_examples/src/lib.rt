//! Examples of Markdown, as theorems: 450 texts of our own, computed.
//!
//! In the order of the work:
//!
//! 1. [`blocks`]: what one sees of their blocks.
//! 2. [`sections`]: the sections that are shown, and their links.
//! 3. [`html`]: their html.
#![tactic(auto)]

pub mod blocks;
pub mod html;
pub mod sections;
