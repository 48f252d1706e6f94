//! Positions in a text, and ranges of them.

ghost use Rattle.std.specs.Prelude.{◌≡◌, ◌↔◌, IsTrue};
ghost use Rattle.mad_edit_lines.specs.PositionOrder.{IsNotAfter};

/// A position in a text, before a character or at a line's end. Positions are ordered by line, then by character.
#[derive(Clone, Copy, Debug, PartialEq, Eq, PartialOrd, Ord, Default)]
pub struct Pos {
    /// Its line, counted from 0 at the top.
    pub y: usize,
    /// How many characters of the line are before it.
    pub x: usize,
}

impl Pos {
    /// The position before character `x` of line `y`, both counted from 0.
    pub fn new(x: usize, y: usize) -> Pos
        ensures { result ≡ record { y = y; x = x } }
    {
        Pos { y, x }
    }
}

/// A range of positions; both ends are in it.
#[derive(Clone, Copy, Debug, PartialEq, Eq)]
pub struct Range {
    /// Its first position.
    pub min: Pos,
    /// Its last position.
    pub max: Pos,
}

impl Range {
    /// Whether the position before character `x` of line `y` is in the range.
    pub fn contains(&self, x: usize, y: usize) -> bool
        ensures { IsTrue result ↔ (IsNotAfter self.now.min (record { y = y; x = x }) × IsNotAfter (record { y = y; x = x }) self.now.max) }
    {
        self.contains_pos(Pos { y, x })
    }

    /// Whether a position is in the range.
    pub fn contains_pos(&self, pos: Pos) -> bool
        ensures { IsTrue result ↔ (IsNotAfter self.now.min pos × IsNotAfter pos self.now.max) }
    {
        self.min <= pos && pos <= self.max
    }
}
