//! The columns that a pager gives the text of a page.

/// The columns that a pager gives the text of a page. Where a caller says a width, the text has that width.
#[derive(Clone, Copy, PartialEq, Debug)]
pub struct TextRoom {
    /// The free columns on each side of the text, where it keeps enough of them.
    pub margin: u16,
    /// The most columns of the text; 0 for as many as there are.
    pub columns: u16,
}

impl TextRoom {
    /// As many columns as there are.
    pub const WHOLE: TextRoom = TextRoom {
        margin: 0,
        columns: 0,
    };

    /// Rows that are read with ease: 100 columns at most, and two free ones on each side.
    pub const READABLE: TextRoom = TextRoom {
        margin: 2,
        columns: 100,
    };
}
