//! Where links begin in rows of a page that are on a screen, and their numbers, drawn there.
//!
//! 1. [`places`]: where links begin in the rows of a section.
//! 2. [`drawing`]: numbers over rows that were drawn.
//! 3. [`laws`]: where numbers stand.
#![tactic(auto)]

mod drawing;
pub mod laws;
mod places;

pub use drawing::draw_numbers;
pub use places::{LinkPlace, Spot, push_section_places};
