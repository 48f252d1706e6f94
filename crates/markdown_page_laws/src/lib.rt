//! Laws of pages and of Markdown, each the contract of a small function: no character is lost between what is read and the rows that are shown.
#![tactic(auto)]

ghost use Rattle.markdown_page_laws.specs.CellBlanks.{CellsHaveBlanks};
ghost use Rattle.markdown_page_laws.specs.KeptMarkdown.{MarkdownIsKept, PagesShow};
ghost use Rattle.markdown_page_laws.specs.KeptOutput.{AreasShow, DrawingShows, WritingShows};
ghost use Rattle.markdown_page_laws.specs.KeptPages.{PagesKeep};
ghost use Rattle.markdown_page_laws.specs.Marks.{OthersAreMarks};
ghost use Rattle.markdown_page_laws.specs.PlainPages.{PlainHasNoEscape, PlainIsText, RowsEndInNoBlank};
ghost use Rattle.markdown_page_laws.specs.SkinTexts.{SkinsKeepText, TextIsTold};
ghost use Rattle.markdown_page_laws.specs.TableSections.{TablesMayBeLists};

/// The rows of a page keep the flagged characters of the sections that are shown, in order and on the fewest rows.
pub fn pages_keep()
    ensures { PagesKeep }
{}

/// So they show each character that isn't whitespace once, in order. A table is there with all of its cells, or as the list of them, where its section may be one.
pub fn pages_show()
    ensures { PagesShow }
{}

/// A section of Markdown has no row of a table, or is a table that may be shown as a list.
pub fn tables_may_be_lists()
    ensures { TablesMayBeLists }
{}

/// The rows of a text of Markdown show each character of its sections that isn't whitespace once, in order, cell by cell. Else they show labels of lists, rules
/// below headings, signs of pictures, and marks at words alone.
pub fn markdown_is_kept()
    ensures { MarkdownIsKept }
{}

/// So do the rows that are written of it, those that are drawn in an area, and those that a plain terminal shows there.
pub fn output_is_kept()
    ensures written { WritingShows }
    ensures drawn { DrawingShows }
    ensures shown { AreasShow }
{}

/// A row has the text of its line between marks: in front of it blanks, bars, bullets, numbers, boxes and signs, and behind it blanks. So has each cell of a
/// table, behind a border. A rule is marks alone.
pub fn others_are_marks()
    ensures { OthersAreMarks }
{}

/// In a skin that has blanks beside cells, one is at both sides of each cell of a table, between its text and the borders.
pub fn cells_have_blanks()
    ensures { CellsHaveBlanks }
{}

/// What is shown of a text is told by four things of the skin: whether the boxes of tasks are of ASCII characters, whether words have marks, whether blanks are
/// beside cells, and the sign of pictures. Two skins that agree in these show the same characters in the same order.
pub fn skins_keep_text()
    ensures told { TextIsTold }
    ensures alike { SkinsKeepText }
{}

/// A page in the skin without styles is its texts and newlines alone. It has no ESC, with which each command begins, where its text has none.
pub fn plain_pages_have_no_styles()
    ensures text { PlainIsText }
    ensures no_escape { PlainHasNoEscape }
{}

/// No row that is written has a blank in front of its newline.
pub fn rows_end_in_no_blank()
    ensures { RowsEndInNoBlank }
{}
