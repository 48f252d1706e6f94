//! What the definition of column widths says of given tables, each a function that does nothing and states its law.

ghost use Rattle.mad_widths.specs.WorkedWidths.{AreWorkedWidths, RefusedWidths};

/// The definition gives the widths of worked tables: of columns that fit, of a single one, and of several that are too wide, also
/// with regard to words.
pub fn worked_widths()
    ensures { AreWorkedWidths }
{}

/// Widths are not the definition's where their sum is one column too few or too many, or where each is three though more is
/// available. Nor are they where one is under three, where one is wider than its cells need, or where they are not called
/// reduced. With regard to words they aren't where a column is narrower than its longest word though all have room.
pub fn other_widths_are_refused()
    ensures { RefusedWidths }
{}
