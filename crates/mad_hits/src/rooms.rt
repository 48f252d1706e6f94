//! The columns that rows of a page have.

ghost use Rattle.mad_hits.specs.Rooms.{room_columns};
ghost use Rattle.std.specs.Prelude.{◌≡◌};

/// The columns that rows of a page have on a screen. All others, but that of a scroll bar, are blank.
#[derive(Clone, Copy, Debug, PartialEq, Eq)]
pub struct RowRoom {
    /// The first of them, counted from 0.
    pub left: u16,
    /// The one after the last of them.
    pub end: u16,
}

impl RowRoom {
    /// How many they are.
    pub fn columns(self) -> u16
        ensures { result ≡ room_columns self }
    {
        self.end.saturating_sub(self.left)
    }
}
