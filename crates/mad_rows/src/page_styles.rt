//! How what a page shows beside its text looks, and the words that say what an alert is.

use mad_style::{CompoundStyle, StyledChar};

/// How what a page shows beside its text looks: the boxes of tasks, the bars of alerts, and the rules below headings.
#[derive(Clone, Copy, PartialEq, Debug)]
pub struct PageStyles {
    /// The box of an open task.
    pub task: StyledChar,
    /// The box of a task that is done.
    pub done: StyledChar,
    /// The bar of a note.
    pub note: StyledChar,
    /// The bar of a tip.
    pub tip: StyledChar,
    /// The bar of what is important.
    pub important: StyledChar,
    /// The bar of a warning.
    pub warning: StyledChar,
    /// The bar of a caution.
    pub caution: StyledChar,
    /// What a rule below a heading of the first level is drawn with.
    pub below_first: StyledChar,
    /// The same below a heading of any other level.
    pub below_others: StyledChar,
}

/// What the word adds to bold text that says what an alert is.
#[derive(Clone, Copy, PartialEq, Debug)]
pub struct TitleStyles {
    /// That of a note.
    pub note: CompoundStyle,
    /// That of a tip.
    pub tip: CompoundStyle,
    /// That of what is important.
    pub important: CompoundStyle,
    /// That of a warning.
    pub warning: CompoundStyle,
    /// That of a caution.
    pub caution: CompoundStyle,
}

impl Default for TitleStyles {
    ghost use Rattle.std.specs.Prelude.{◌≡◌};
    ghost use Rattle.mad_rows.specs.RowStyles.{unstyled_titles};

    ghost is_default = { λ styles. styles ≡ unstyled_titles };

    /// Titles in which nothing is set.
    fn default() -> Self {
        let style = CompoundStyle::default();
        Self {
            note: style,
            tip: style,
            important: style,
            warning: style,
            caution: style,
        }
    }
}
