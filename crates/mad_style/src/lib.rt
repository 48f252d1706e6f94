//! Styles: how the parts of a text look, and the writing of pieces in them.
//!
//! In the order of the work:
//!
//! 1. [`colors`]: colors by number;
//! 2. [`compound_styles`]: how the text of a compound looks;
//! 3. [`pieces`]: the writing of texts in such a style;
//! 4. [`styled_texts`], [`styled_chars`]: a text or a character in a style;
//! 5. [`line_styles`]: how a line looks, and its margins;
//! 6. [`kinds`]: what a line is; [`ordered_items`], [`scroll_bars`], [`borders`]: what it is drawn with.
#![tactic(auto)]

mod borders;
mod colors;
mod compound_styles;
mod kinds;
mod line_styles;
mod ordered_items;
mod pieces;
mod scroll_bars;
mod styled_chars;
mod styled_texts;

pub use borders::{
    ASCII_TABLE_BORDER_CHARS, ROUNDED_TABLE_BORDER_CHARS, STANDARD_TABLE_BORDER_CHARS,
    TableBorderChars,
};
pub use colors::{ansi, gray, rgb};
pub use compound_styles::{ATTRIBUTES, CompoundStyle};
pub use kinds::{CompositeKind, ListItemsIndentationMode};
pub use line_styles::{LEAST_WIDTH, LineStyle};
pub use ordered_items::{MAX_ORDERED_LIST_DEPTH, OrderedItemStyle, ordered_item_indent};
pub use scroll_bars::ScrollBarStyle;
pub use styled_chars::StyledChar;
pub use styled_texts::StyledText;
