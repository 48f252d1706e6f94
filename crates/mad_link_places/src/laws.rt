//! Laws, each the contract of a small function: where numbers stand.

ghost use Rattle.mad_link_places.specs.NumberLaws.{NumbersStandAtLinks};

/// Each number stands at a character of its link.
#[tactic(auto, using(crate::proofs::StandLemmas::numbers_stand))]
pub fn numbers_stand_at_links()
    ensures { NumbersStandAtLinks }
{}
