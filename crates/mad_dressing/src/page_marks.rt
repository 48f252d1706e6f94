//! What stands in a page and isn't its text's own: beside headings, at words, and in front of pictures.

use crate::heading_marks::HeadingMarks;

/// What stands in a page and isn't its text's own, but for gutters.
#[derive(Debug, Clone, Copy, PartialEq, Eq)]
pub struct PageMarks {
    /// What stands beside headings, and at words.
    pub headings: HeadingMarks,
    /// The sign in front of what is said of a picture. To be shown as it is, it takes one column.
    pub sign: char,
}
