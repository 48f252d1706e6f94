//! Laws of the rows of a leaf and of a cell: no word of the text is lost in them. Each is a function that does nothing and states its law.
#![tactic(auto)]

ghost use Rattle.markdown_row_laws.specs.Bytes.{BytesAreKept};
ghost use Rattle.markdown_row_laws.specs.Rows.{CellsKeepText, RowsKeepText};

use markdown_pieces::laws::pieces_spell_their_text;

/// The rows of a leaf say its characters, one row after another. Breaks alone cut them, and blanks alone are lost: at the ends of rows, but not in code.
#[tactic(auto, using(crate::proofs::RowLemmas::rows_keep))]
pub fn rows_keep_text()
    ensures { RowsKeepText }
{}

/// A cell of a table says the same rows, with a space between two of them.
#[tactic(auto, using(crate::proofs::CellLemmas::cells_keep))]
pub fn cells_keep_text()
    ensures { CellsKeepText }
{}

/// Each byte of a leaf's text is of one piece. What is shown of a piece is on the rows, but for blanks at their ends.
#[tactic(auto, using(crate::proofs::ByteLemmas::bytes_kept))]
pub fn bytes_are_kept()
    ensures { BytesAreKept }
{
    pieces_spell_their_text();
}
