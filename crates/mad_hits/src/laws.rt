//! Laws, each the contract of a small function: what hits change.

ghost use Rattle.mad_hits.specs.HitLaws.{DrawnHitsStand, HitsChangeNoCharacter};

/// Marking the hits of a row changes no character of any of its cells.
pub fn hits_change_no_character()
    ensures { HitsChangeNoCharacter }
{}

/// So it is with all hits that are drawn over rows.
pub fn drawn_hits_stand()
    ensures { DrawnHitsStand }
{}
