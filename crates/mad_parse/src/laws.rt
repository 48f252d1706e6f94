//! What the definitions of this crate say of a few texts: laws, each a function that does nothing and states its law.

ghost use Rattle.mad_parse.specs.Laws.{NamesAreWhole, TokensAreInOrder, BackgroundsAreToldApart, LaterNoneChangesNothing};

/// A name counts as a whole: `darkblue` isn't blue, and `centered` is refused.
pub fn names_are_whole()
    ensures { NamesAreWhole }
{}

/// A text has all its tokens, in its order.
pub fn tokens_are_in_order()
    ensures { TokensAreInOrder }
{}

/// A background alone isn't written as a foreground is.
pub fn backgrounds_are_told_apart()
    ensures { BackgroundsAreToldApart }
{}

/// A `none` after the foreground changes nothing, whatever follows.
pub fn later_none_changes_nothing()
    ensures { LaterNoneChangesNothing }
{}
