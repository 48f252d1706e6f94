//! What each part of a text adds to the sections that are shown of it.
#![tactic(auto)]

ghost use Rattle.markdown_section_laws.specs.LeavesShown.{LeavesAreShown};

/// Each leaf of a text is shown once, in order: by the lines of its kind, in a section of its own, behind a blank row or none. Else there are only rows of items that
/// show nothing.
#[tactic(auto, using(crate::proofs::LeafLemmas::leaves_shown))]
pub fn leaves_are_shown()
    ensures { LeavesAreShown }
{}
