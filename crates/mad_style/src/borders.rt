//! The characters that a table's borders are drawn with.

ghost use Rattle.std.specs.Prelude.{◌≡◌, ◌≢◌, ℕ, List, Some, IfSome, IfNone};

/// The characters that a table's borders are drawn with.
#[derive(Clone, Copy, Debug, PartialEq)]
pub struct TableBorderChars {
    /// A rule between two columns' borders.
    pub horizontal: char,
    /// A border between two cells of a row, and at its ends.
    pub vertical: char,
    /// Where the top rule meets the left border.
    pub top_left_corner: char,
    /// Where the top rule meets the right border.
    pub top_right_corner: char,
    /// Where the bottom rule meets the right border.
    pub bottom_right_corner: char,
    /// Where the bottom rule meets the left border.
    pub bottom_left_corner: char,
    /// Where the top rule meets a border between two columns.
    pub top_junction: char,
    /// Where a rule inside the table meets the right border.
    pub right_junction: char,
    /// Where the bottom rule meets a border between two columns.
    pub bottom_junction: char,
    /// Where a rule inside the table meets the left border.
    pub left_junction: char,
    /// Where a rule inside the table meets a border between two columns.
    pub cross: char,
}

/// Lines with square corners.
pub const STANDARD_TABLE_BORDER_CHARS: TableBorderChars = TableBorderChars {
    horizontal: '─',
    vertical: '│',
    top_left_corner: '┌',
    top_right_corner: '┐',
    bottom_right_corner: '┘',
    bottom_left_corner: '└',
    top_junction: '┬',
    right_junction: '┤',
    bottom_junction: '┴',
    left_junction: '├',
    cross: '┼',
};

/// Hyphens and bars, and a plus sign where they meet.
pub const ASCII_TABLE_BORDER_CHARS: TableBorderChars = TableBorderChars {
    horizontal: '-',
    vertical: '|',
    top_left_corner: '+',
    top_right_corner: '+',
    bottom_right_corner: '+',
    bottom_left_corner: '+',
    top_junction: '+',
    right_junction: '+',
    bottom_junction: '+',
    left_junction: '+',
    cross: '+',
};

/// Lines with round corners.
pub const ROUNDED_TABLE_BORDER_CHARS: TableBorderChars = TableBorderChars {
    horizontal: '─',
    vertical: '│',
    top_left_corner: '╭',
    top_right_corner: '╮',
    bottom_right_corner: '╯',
    bottom_left_corner: '╰',
    top_junction: '┬',
    right_junction: '┤',
    bottom_junction: '┴',
    left_junction: '├',
    cross: '┼',
};

impl TableBorderChars {
    ghost use Rattle.mad_style.specs.Borders.{borders_named};

    /// The name of the set that these characters are, if they are one of the three with a name.
    pub fn key(&self) -> Option<&'static str>
        ensures some { IfSome result (λ name. borders_named name.now ≡ Some self.now) }
        ensures none { IfNone result ((name : List ℕ) → borders_named name ≢ Some self.now) }
    {
        if *self == STANDARD_TABLE_BORDER_CHARS {
            Some("standard")
        } else if *self == ASCII_TABLE_BORDER_CHARS {
            Some("ascii")
        } else if *self == ROUNDED_TABLE_BORDER_CHARS {
            Some("rounded")
        } else {
            None
        }
    }

    /// The set of this name: `standard`, `ascii` or `rounded`.
    pub fn by_key(key: &str) -> Option<Self>
        ensures { result ≡ borders_named key.now }
    {
        match key {
            "standard" => Some(STANDARD_TABLE_BORDER_CHARS),
            "ascii" => Some(ASCII_TABLE_BORDER_CHARS),
            "rounded" => Some(ROUNDED_TABLE_BORDER_CHARS),
            _ => None,
        }
    }
}
