//! Laws, each the contract of a small function.

ghost use Rattle.markdown_code.specs.FencedTexts.{FencesShowTheirText};

/// What is shown of Markdown that is one fence, from the first column on, is what is shown of the text in it by itself, with the word that stands behind the fence. No line of the text
/// may close the fence; a longer fence has none that does.
#[tactic(auto, using(crate::proofs::FenceLemmas::fences_show_their_text))]
pub fn fences_show_their_text()
    ensures { FencesShowTheirText }
{}
