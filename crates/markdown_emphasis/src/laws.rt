//! What callers rely on: laws of the definition, each a function that does nothing and states its law.

ghost use Rattle.markdown_emphasis.specs.Examples.{FollowsTheRules};
ghost use Rattle.markdown_emphasis.specs.Laws.{PairsAreNested, NothingIsLeft};

/// Pairs lie within the runs, nested or one after the other.
pub fn pairs_are_nested()
    ensures { PairsAreNested }
{}

/// No run gives more marks than it has. Of two runs that fit and have marks left, the first lies inside a pair that is closed before
/// the second could close.
pub fn nothing_is_left()
    ensures { NothingIsLeft }
{}

/// The pairs of the examples beside CommonMark's rules 9 to 16, and of some tildes.
pub fn rules_are_followed()
    ensures { FollowsTheRules }
{}
