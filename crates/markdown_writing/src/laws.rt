//! What is read of a page that was written.

ghost use Rattle.markdown_writing.specs.Reading.{PageIsReadBack, TablesAreReadBack};

/// A page that is written as Markdown is read as its blocks, one after the other, and nothing else is.
#[tactic(auto, using(crate::proofs::PageLemmas::read_back))]
pub fn page_is_read_back()
    ensures { PageIsReadBack }
{}

/// Of the lines of a table that was written the first is read as its head, the second as its alignments, and each other as a row of it.
pub fn tables_are_read_back()
    ensures { TablesAreReadBack }
{}
