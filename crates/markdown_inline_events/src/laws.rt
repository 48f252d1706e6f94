//! What holds of the events of every text: laws, functions that do nothing and state them.

ghost use Rattle.markdown_inline_events.specs.Laws.{EventsAreShown, InlinesNest, PlacesRise};

/// The texts of the events, one after another, are what is shown of the leaf, but for the names of files of images that have nothing between their
/// brackets.
#[tactic(auto, using(crate::proofs::ShownLemmas::all_shown))]
pub fn events_are_shown()
    ensures { EventsAreShown }
{}

/// The events of a text nest: what ends is what began last of all that is open, and at the end nothing is.
#[tactic(auto, using(crate::proofs::NestLemmas::all_nest))]
pub fn inlines_nest()
    ensures { InlinesNest }
{}

/// Each event begins where the one before it ended, or later, and all are within the text.
#[tactic(auto, using(crate::proofs::RiseLemmas::all_rising))]
pub fn places_rise()
    ensures { PlacesRise }
{}
