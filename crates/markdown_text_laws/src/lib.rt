//! Laws of what is shown of a leaf's text. Each is a function that does nothing and states its law.
#![tactic(auto)]

ghost use Rattle.markdown_text_laws.specs.Shown.{EachPieceIsShown};

/// Each piece of a leaf's text is shown once, in order: words and code as they are, without their markup.
pub fn each_piece_is_shown()
    ensures { EachPieceIsShown }
{}
