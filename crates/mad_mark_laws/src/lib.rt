//! The marks of a text's rows are those that the text says.
#![tactic(auto)]

ghost use Rattle.mad_mark_laws.specs.Laws.{CodeAndLinksFollow, RowsHaveTheTextsMarks};

/// The rows of every layout, tables included, have numbers with which each of their composites has the marks that the text says.
#[tactic(auto, using(crate::proofs::NumberedLemmas::layout_numbered))]
pub fn rows_have_the_texts_marks()
    ensures { RowsHaveTheTextsMarks }
{}

/// Of code and links the rows that follow a line count what it counts.
#[tactic(auto, using(crate::proofs::TextLemmas::has_mark_follows))]
pub fn code_and_links_follow()
    ensures { CodeAndLinksFollow }
{}
