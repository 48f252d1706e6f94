//! Laws, each the contract of a small function: what is found of a text.

ghost use Rattle.mad_patterns.specs.SearchLaws.{TextIsFoundAsItStands};

/// A text without signs of regular expressions stands for itself: where it has a capital, its hits are the places where it stands.
pub fn text_is_found_as_it_stands()
    ensures { TextIsFoundAsItStands }
{}
