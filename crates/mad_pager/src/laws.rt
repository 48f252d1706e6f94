//! Laws, each the contract of a small function: what marking hits changes on the screen, and what Up brings into a search.

ghost use Rattle.mad_pager.specs.ScreenLaws.{ScreenHitsStand};
ghost use Rattle.mad_pager.specs.SearchLaws.{UpBringsTheLast};

/// Marking what is sought changes no character of any cell.
pub fn screen_hits_stand()
    ensures { ScreenHitsStand }
{}

/// Up brings the text that was sought last: those of its characters that can be typed, with the cursor at their end.
pub fn up_brings_the_last()
    ensures { UpBringsTheLast }
{}
