//! Laws, each the contract of a small function: what is said of all pages.

ghost use Rattle.mad_layout.specs.MadeSkins.{dark_skin, light_skin, limited_to_ascii};
ghost use Rattle.mad_layout.specs.Skins.{default_skin, no_style_skin};
ghost use Rattle.markdown_layout.specs.KeptPremises.{AreMarksShown};
ghost use Rattle.markdown_layout.specs.NestedRows.{RowsNest};
ghost use Rattle.markdown_layout.specs.RowEnds.{RowsEnd};
ghost use Rattle.markdown_layout.specs.ShownFaces.{ListsShowFaces};
ghost use Rattle.markdown_layout.specs.TableCells.{CellsArePlain, SectionsKeepWords};
ghost use Rattle.mad_page_skin.specs.DarkSkins.{dark_page_skin};
ghost use Rattle.mad_page_skin.specs.LightSkins.{light_page_skin};
ghost use Rattle.mad_page_skin.specs.PageSkins.{page_row_skin, page_skin_of};
ghost use Rattle.mad_page_skin.specs.PlainSkins.{plain_skin};
ghost use Rattle.mad_page_skin.specs.SixteenSkins.{sixteen_page_skin};

/// A row that is written loses blanks and newlines at its end alone, and all of these.
#[tactic(auto, using(crate::proofs::EndLemmas::rows_end))]
pub fn rows_end()
    ensures { RowsEnd }
{}

/// Where its gutters take less than half of the width, each row of a section is behind all of them, and the first row has the first faces of
/// those that begin with the section.
pub fn rows_nest()
    ensures { RowsNest }
{}

/// Where a table is shown as a list, each item has its bullet once, and the faces that begin with the table are in front of the first item.
pub fn lists_show_faces()
    ensures { ListsShowFaces }
{}

/// The cells of each table of a text are paragraphs. So where words stay whole, no word is parted of a table that is shown as one.
#[tactic(auto, using(crate::proofs::CellLemmas::cells_are_plain, crate::proofs::CellLemmas::sections_keep_words))]
pub fn table_words_stay_whole()
    ensures cells { CellsArePlain }
    ensures words { SectionsKeepWords }
{}

/// The marks of the skins of pages that are made are shown: of those for a dark and a light background, of that of sixteen colors, and of the one
/// without styles.
pub fn made_marks_are_shown()
    ensures dark { AreMarksShown (page_row_skin dark_page_skin) }
    ensures light { AreMarksShown (page_row_skin light_page_skin) }
    ensures sixteen { AreMarksShown (page_row_skin sixteen_page_skin) }
    ensures plain { AreMarksShown (page_row_skin plain_skin) }
{}

/// The same of the skins of the smaller grammar that are made: of the default one, of those for a dark and a light background, of the one without
/// style, and of that one on an ASCII terminal.
pub fn other_marks_are_shown()
    ensures by_default { AreMarksShown (page_row_skin (page_skin_of default_skin)) }
    ensures dark { AreMarksShown (page_row_skin (page_skin_of dark_skin)) }
    ensures light { AreMarksShown (page_row_skin (page_skin_of light_skin)) }
    ensures without_style { AreMarksShown (page_row_skin (page_skin_of no_style_skin)) }
    ensures ascii { AreMarksShown (page_row_skin (page_skin_of (limited_to_ascii no_style_skin))) }
{}
