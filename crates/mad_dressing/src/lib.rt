//! What stands in the rows of a page and isn't the text's own, put into its sections: rules below headings, signs in front of them, marks at words, and
//! signs in front of pictures.
//!
//! In the order of the work:
//!
//! 1. [`heading_marks`]: which headings have rules below, which have signs, and whether marks stand at words. [`page_marks`]: these, and the sign of pictures.
//! 2. [`dressings`]: what is put into a page with a section.
//! 3. `word_marks`, `marked_sections`: a section with marks at its words. `picture_signs`: one with signs in front of pictures.
//! 4. [`dressed_sections`]: the sections that are shown in the place of one.
//! 5. [`pages`]: whole pages.
//! 6. [`laws`]: no character of the text changes, and what is new is rules, signs and marks alone.
#![tactic(auto)]

pub mod dressed_sections;
pub mod dressings;
pub mod heading_marks;
pub mod laws;
mod marked_sections;
pub mod page_marks;
pub mod pages;
mod picture_signs;
mod word_marks;

pub use dressed_sections::{Dressed, dress};
pub use dressings::{Dressing, HeadingDressing, dressing_of};
pub use heading_marks::HeadingMarks;
pub use page_marks::PageMarks;
pub use pages::{dress_page, dressings_of};
