//! What happens in a text.

use markdown_leaves::Kind;
use markdown_marks::rest::Rest;

/// What begins and ends.
#[derive(Debug, Clone, Copy, PartialEq, Eq)]
pub enum Tag {
    /// A block quote.
    Quote,
    /// A list: neighbouring items with one sign.
    List {
        /// The bullet `-`, `+` or `*` of its items, or what stands after their numbers: `.` or `)`.
        sign: u8,
        /// The number of its first item; 0 after a bullet.
        number: u32,
    },
    /// An item of a list.
    Item,
    /// A leaf, and what it is.
    Leaf(Kind),
}

/// What happens in a text, in the order of the source.
#[derive(Debug, Clone, Copy)]
pub enum Event<'s> {
    /// This begins, and whether blank lines are before it.
    Start(Tag, bool),
    /// This ends, which began last of what is open.
    End(Tag),
    /// A line of the leaf that is open, without what belongs to containers.
    Line(Rest<'s>),
}
