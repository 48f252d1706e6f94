//! Which headings have rules below, and which have signs in front; and whether marks stand at words.

/// What stands beside headings, and at words.
#[derive(Debug, Clone, Copy, PartialEq, Eq)]
pub struct HeadingMarks {
    /// How many levels of headings have a rule below, from the first on.
    pub rules: u8,
    /// Whether the headings of all other levels have signs in front.
    pub signs: bool,
    /// Whether marks stand at the words of links, of code, and of what is bold, italic or struck out.
    pub words: bool,
}
