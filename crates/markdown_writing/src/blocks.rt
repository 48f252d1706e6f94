//! What a page is made of.

use mad_md::Alignment;

/// A phrase of a line.
#[derive(Clone, Copy)]
pub enum PagePhrase<'p> {
    /// Words, which are shown as they are.
    Words(&'p str),
    /// Code within the line.
    Code(&'p str),
    /// Emphasized words.
    Emphasis(&'p str),
    /// Words with strong emphasis.
    Strong(&'p str),
    /// Words that are a link, and where it leads.
    Link(&'p str, &'p str),
}

/// A block of a page.
#[derive(Clone, Copy)]
pub enum PageBlock<'p> {
    /// A heading of this level, 1 to 6, and its phrases.
    Heading(usize, &'p [PagePhrase<'p>]),
    /// The lines of a paragraph, one at least, each with its phrases.
    Paragraph(&'p [&'p [PagePhrase<'p>]]),
    /// Code: the name of its language, which may be empty, and its lines without their ends.
    Code(&'p str, &'p [&'p str]),
    /// A thematic break.
    Break,
    /// A table: the alignment of each column, one at least, the cells of its head, and its rows. The head and each row have as many cells as there are
    /// columns. A cell has its phrases, or none.
    Table(&'p [Alignment], &'p [&'p [PagePhrase<'p>]], &'p [&'p [&'p [PagePhrase<'p>]]]),
    /// A quote of these blocks, one at least.
    Quote(&'p [PageBlock<'p>]),
    /// An item of a list, that holds these blocks, one at least. Items one below the other are a list.
    Item(&'p [PageBlock<'p>]),
}
