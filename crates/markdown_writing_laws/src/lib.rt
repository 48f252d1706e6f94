//! Laws of words, code, emphasis and links that were written: what they show. Each is a function that does nothing and states its law.
#![tactic(auto)]

ghost use Rattle.markdown_writing_laws.specs.Printed.{PhrasesArePrinted};
ghost use Rattle.markdown_writing_laws.specs.Said.{WordsAreSaid};

/// Escaped words of a line without tabs are read as these words: each byte stands for itself, and nothing is a mark, a link, code or html.
#[tactic(auto, using(crate::proofs::PieceLemmas::words_said))]
pub fn words_are_said()
    ensures { WordsAreSaid }
{}

/// Of words, code spans, emphasis and links the html (`inline_html`) is these, one after the other: there is no other element.
#[tactic(auto, using(crate::proofs::PrintLemmas::phrases_printed))]
pub fn phrases_are_printed()
    ensures { PhrasesArePrinted }
{}
