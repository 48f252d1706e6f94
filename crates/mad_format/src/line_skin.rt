//! What laying out lines asks of a skin.

ghost use Rattle.std.specs.Prelude.{◌≡◌};
ghost use Rattle.mad_format.specs.LineRules.{LineRules, around_cell, beside_cell};

use mad_style::{CompositeKind, LineStyle, ListItemsIndentationMode};

/// A skin, as far as lines are laid out by it. Its colors and characters count only where the lines are written.
pub trait LineSkin {
    /// How items are indented, whether words stay whole, whether blanks are beside cells, and how each kind of line looks.
    ghost rules: { Self → LineRules };

    /// How the lines of a list's items are indented.
    fn items_indentation(&self) -> ListItemsIndentationMode
        ensures { result ≡ (rules self.now).list_items_indentation_mode };

    /// Whether a word that fits on a line stays whole, over compounds.
    fn whole_words(&self) -> bool
        ensures { result ≡ (rules self.now).whole_words };

    /// Whether a blank is at both sides of each cell of a table.
    fn cell_blanks(&self) -> bool
        ensures { result ≡ (rules self.now).cell_blanks };

    /// The style of a line of this kind, which has its margins.
    fn style_of(&self, kind: CompositeKind) -> &LineStyle
        ensures { result.now ≡ (rules self.now).line_style kind };
}

/// The blank columns at each side of a cell.
pub fn beside_cell(cell_blanks: bool) -> usize
    ensures { result ≡ beside_cell cell_blanks }
{
    if cell_blanks { 1 } else { 0 }
}

/// The blank columns at both sides of a cell.
pub fn around_cell(cell_blanks: bool) -> usize
    ensures { result ≡ around_cell cell_blanks }
{
    if cell_blanks { 2 } else { 0 }
}
