//! Laws, each the contract of a small function: what is shown of rows with links, and where they lead.

ghost use Rattle.markdown_linked_pages.specs.CellLaws.{CellsHaveTheirMarks, TablesHaveTheirMarks};
ghost use Rattle.markdown_linked_pages.specs.LinkedPageLaws.{PagesAreWritten, RowsAreWritten};
ghost use Rattle.markdown_linked_pages.specs.LinkedRowLaws.{LinksAreInTheirCells, LinksChangeNothing, NoAddressNoByte, RowsAreTheSame, RowsAreWoven};
ghost use Rattle.markdown_linked_pages.specs.MarkLaws.{RowsHaveTheirMarks};

/// A row with links shows what it shows without marks, character by character, each with the same pen.
#[tactic(auto, using(crate::proofs::LinkedLemmas::row_unchanged))]
pub fn links_change_nothing()
    ensures { LinksChangeNothing }
{}

/// What is written of a row with links is what is written of its pieces, with commands of links between them: a terminal that passes over these ends as the
/// plain one without them.
#[tactic(auto, using(crate::proofs::LinkedLemmas::row_woven, crate::proofs::LinkedLemmas::row_same))]
pub fn rows_are_woven()
    ensures woven { RowsAreWoven }
    ensures same { RowsAreTheSame }
{}

/// A row writes its cells, each in the link of its part, and leaves none open.
#[tactic(auto, using(crate::proofs::LinkedLemmas::row_leads))]
pub fn links_are_in_their_cells()
    ensures { LinksAreInTheirCells }
{}

/// Without an address nothing is written of links.
#[tactic(auto, using(crate::proofs::LinkedLemmas::row_unaddressed))]
pub fn no_address_no_byte()
    ensures { NoAddressNoByte }
{}

/// What is written of a row is its pieces less blanks at its end, each in its link, and no link is open before the newline.
#[tactic(auto, using(crate::proofs::CutLemmas::row_written))]
pub fn rows_are_written()
    ensures { RowsAreWritten }
{}

/// A terminal that passes over links ends as the one does that reads a page's rows without them. On one with links each row's cells are in the links of
/// their pieces.
#[tactic(auto, using(crate::proofs::PageLinkLemmas::pages_written))]
pub fn pages_are_written()
    ensures { PagesAreWritten }
{}

/// Over the rows of a section without tables, one below the other, the k-th character that belongs to links has the k-th mark of the section, which tells its link.
#[tactic(auto, using(crate::proofs::RowMarkLemmas::rows_have_marks))]
pub fn rows_have_their_marks()
    ensures { RowsHaveTheirMarks }
{}

/// Down each column of a table the k-th character that belongs to links has the k-th of the column's marks, over all rows that are drawn of the table.
#[tactic(auto, using(crate::proofs::CellLawLemmas::cells_have_marks))]
pub fn cells_have_their_marks()
    ensures { CellsHaveTheirMarks }
{}

/// Where a section with links is shown as a whole table, each column has the characters of links that the text says, in order, each with the mark that it has in the
/// section.
pub fn tables_have_their_marks()
    ensures { TablesHaveTheirMarks }
{}
