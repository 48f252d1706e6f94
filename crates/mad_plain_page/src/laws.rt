//! What callers rely on: a law, as a function that does nothing and states it.

ghost use Rattle.mad_plain_page.specs.Laws.{DrawnAsSaid};

/// What a page says of a row is what is drawn of it, whatever the styles.
#[tactic(auto, using(crate::proofs::RowLemmas::drawn_as_said))]
pub fn drawn_as_said()
    ensures { DrawnAsSaid }
{}
