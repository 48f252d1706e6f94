//! What callers rely on.

ghost use Rattle.markdown_pieces.specs.Spelling.{PiecesSpellTheirText};

/// The pieces of a text, one after another, are the text: no byte is lost.
pub fn pieces_spell_their_text()
    ensures { PiecesSpellTheirText }
{}
