//! Views: texts that are shown in an area of the screen, and scrolled in it.
//!
//! 1. [`scrolls`]: how far texts are scrolled, in any view; `keys`: the keys that scroll them.
//! 2. [`text_view`]: a laid out text in an area.
//! 3. [`mad_view`]: a Markdown text in an area, and several of them.
#![tactic(auto)]

mod keys;
pub mod mad_view;
pub mod scrolls;
pub mod text_view;

pub use mad_view::{MadView, draw_views};
pub use text_view::TextView;
