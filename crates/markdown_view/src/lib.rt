//! Views of Markdown: pages that are shown in an area of the screen, and scrolled in it.
//!
//! 1. [`views`]: a text of Markdown in an area.
#![tactic(auto)]

pub mod views;

pub use views::MarkdownView;
