//! What a text is told as: containers that begin and end, and leaves with their lines.

use markdown_blocks::Container;
use markdown_marks::rest::Rest;

/// What a leaf is.
#[derive(Debug, Clone, Copy, PartialEq, Eq)]
pub enum Kind {
    /// There is no leaf.
    Nothing,
    /// A paragraph. Its lines have no blanks in front.
    Paragraph,
    /// A heading of this level, 1 to 6. One that is underlined may have several lines.
    Heading(usize),
    /// Code behind four blank columns, without them. It doesn't end with a blank line.
    Indented,
    /// Code between fences. Its first line is what stands behind the first fence, without blanks at both ends.
    Fenced,
    /// A block of html, with the blanks in front of its lines.
    Html,
    /// A table of so many columns. Its first line is the head, its second the row of delimiters.
    Table(usize),
    /// A thematic break, with the line that it is.
    Rule,
    /// The lines of a paragraph that are definitions of links.
    Definitions,
}

/// A leaf and its lines.
#[derive(Debug, Drop)]
pub struct Block<'s> {
    /// What the leaf is.
    pub kind: Kind,
    /// Whether blank lines are before it, since the last leaf ended or the last container began.
    pub apart: bool,
    /// Its lines, each without what belongs to containers.
    pub lines: Vec<Rest<'s>>,
}

/// A part of a text, in the order of the source.
#[derive(Debug, Drop)]
pub enum Part<'s> {
    /// A container begins, and whether blank lines are before it.
    Begins(Container, bool),
    /// The last container that is open ends.
    Ends,
    /// A leaf of the last container that is open.
    Block(Block<'s>),
}
