//! How the numbers of an ordered list look, and how far its items are indented.

ghost use Rattle.std.specs.Prelude.{◌≡◌, length, decimal};
ghost use Rattle.mad_style.specs.OrderedItems.{ordered_indent};

use crate::colors::gray;
use crate::compound_styles::CompoundStyle;
use crate::styled_chars::StyledChar;

/// How many levels of an ordered list have a style of their own; deeper ones take the last.
pub const MAX_ORDERED_LIST_DEPTH: usize = 4;

/// How the number of an item of an ordered list looks, and the character after it.
#[derive(Clone, Copy, Debug, PartialEq)]
pub struct OrderedItemStyle {
    /// How the number looks.
    pub index_style: CompoundStyle,
    /// The character after the number.
    pub index_suffix: StyledChar,
}

impl Default for OrderedItemStyle {
    ghost use Rattle.mad_style.specs.OrderedItems.{default_item};

    ghost is_default = { λ style. style ≡ default_item };

    /// A number without style, and a gray dot.
    fn default() -> Self {
        Self {
            index_style: CompoundStyle::default(),
            index_suffix: StyledChar::from_fg_char(gray(12), '.'),
        }
    }
}

impl OrderedItemStyle {
    ghost use Rattle.mad_style.specs.OrderedItems.{unstyled_item};

    /// A number and a dot without style.
    pub fn no_style() -> Self
        ensures { result ≡ unstyled_item }
    {
        Self {
            index_style: CompoundStyle::default(),
            index_suffix: StyledChar::nude('.'),
        }
    }
}

/// The columns in front of the text of an item of an ordered list: one for each level and each digit of
/// its number. The character and the space after the number take one each.
pub fn ordered_item_indent(level: u8, index: u32) -> usize
    ensures { result ≡ ordered_indent level index }
{
    digit_count(index) as usize + 2 + usize::from(level)
}

// The digits that a number is written with.
#[tactic(auto, using(std::proofs::lemmas::Fmt::decimal_digit, crate::proofs::Digits::length_decimal))]
fn digit_count(number: u32) -> u32
    ensures { result ≡ length (decimal number) }
{
    match number.checked_ilog10() {
        Some(power) => power + 1,
        None => 1,
    }
}
