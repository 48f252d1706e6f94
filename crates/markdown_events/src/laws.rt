//! What holds of the events of every text: laws, functions that do nothing and state them.

ghost use Rattle.markdown_events.specs.Laws.{EventsNest, LinesInOrder};

/// The events of a text nest: what ends is what began last of all that is open, and at the end nothing is. A list holds items, and an item is in a list.
/// A leaf holds lines alone, and a line is in a leaf.
pub fn events_nest()
    ensures { EventsNest }
{}

/// The lines of the events are those of the text's leaves, in their order.
#[tactic(auto, using(crate::proofs::LineLemmas::lines_in_order))]
pub fn lines_in_order()
    ensures { LinesInOrder }
{}
