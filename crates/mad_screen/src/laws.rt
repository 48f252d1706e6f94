//! What drawing relies on: laws of the plain terminal, each a function that does nothing and states its law.

ghost use Rattle.mad_screen.specs.TerminalLaws.{ReadsInTurn, MovesTheCursor, Erases, ErasesPositions, Colors, ResetsThePen, ShowsCharacters, CountsColumns, PaintedIsRead, Composes, ChangesNoOtherPosition, DrawsRows, DrawsStrips};

/// A text after another is read from the screen that the first one leaves.
pub fn texts_are_read_in_turn()
    ensures { ReadsInTurn }
{}

/// A move on the screen sets the cursor and nothing else.
pub fn moves_set_the_cursor()
    ensures { MovesTheCursor }
{}

/// Each erasure leaves spaces of the pen's background in its positions, and the cursor where it was.
pub fn erasures_leave_spaces()
    ensures { Erases }
{}

/// Erased positions are spaces with the pen's background alone, and the others stay.
pub fn erased_positions_are_spaces()
    ensures { ErasesPositions }
{}

/// The command of a foreground or a background gives the pen that color.
pub fn colors_are_set()
    ensures { Colors }
{}

/// Code 0 makes any pen the plain one.
pub fn code_zero_resets_the_pen()
    ensures { ResetsThePen }
{}

/// Characters show their cells in the pen: wide ones with tails, widthless ones joined.
pub fn characters_are_shown()
    ensures { ShowsCharacters }
{}

/// A text has as many cells as columns.
pub fn cells_are_columns()
    ensures { CountsColumns }
{}

/// Bytes that paint cells write them from the cursor on, and leave the plain pen.
pub fn painted_cells_are_read()
    ensures { PaintedIsRead }
{}

/// A text in the plain pen, a piece in a style and one after another paint their cells.
pub fn pieces_paint()
    ensures { Composes }
{}

/// Painted cells are at their positions, and no other position has changed.
pub fn other_positions_stay()
    ensures { ChangesNoOtherPosition }
{}

/// Rows of bytes that paint rows of cells show these in an area, and change no cell outside it.
pub fn rows_are_drawn()
    ensures { DrawsRows }
{}

/// Cells side by side at any positions are shown there, the later ones over those before, and nothing else changes.
pub fn strips_are_drawn()
    ensures { DrawsStrips }
{}
