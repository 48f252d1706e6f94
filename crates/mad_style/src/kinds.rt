//! The kinds of composites, and how the later lines of an item are indented.

ghost use Rattle.std.specs.Prelude.{◌≡◌};

use mad_md::CompositeStyle;

/// What a composite is: what a line may be, and the later lines of an item that takes several.
#[derive(Clone, Copy, Debug, PartialEq, Eq)]
pub enum CompositeKind {
    Paragraph,
    /// A header of this level, from 1 to 8.
    Header(u8),
    /// An item of a list, at this level, from 0 on.
    ListItem(u8),
    /// A later line of an item of a list.
    ListItemFollowUp(u8),
    /// An item of an ordered list, at this level, from 0 on, with its number.
    OrderedListItem { level: u8, index: u32 },
    /// A later line of an item of an ordered list.
    OrderedListItemFollowUp { level: u8, index: u32 },
    Code,
    Quote,
}

impl From<CompositeStyle> for CompositeKind {
    ghost use Rattle.mad_style.specs.Kinds.{kind_of};

    ghost from_gives = { λ style kind. kind ≡ kind_of style };

    fn from(style: CompositeStyle) -> Self {
        match style {
            CompositeStyle::Paragraph => Self::Paragraph,
            CompositeStyle::Header(level) => Self::Header(level),
            CompositeStyle::ListItem(level) => Self::ListItem(level),
            CompositeStyle::OrderedListItem { level, index } => Self::OrderedListItem {
                level,
                index,
            },
            CompositeStyle::ListItemFollowUp(level) => Self::ListItemFollowUp(level),
            CompositeStyle::Code => Self::Code,
            CompositeStyle::Quote => Self::Quote,
        }
    }
}

/// How the later lines of a list's item are indented.
#[derive(Clone, Copy, Debug, PartialEq)]
pub enum ListItemsIndentationMode {
    /// Not at all.
    FirstLineOnly,
    /// As far as the text of the first line, so that the item is a block.
    Block,
    /// As in a block, and by this many columns more.
    Hanging(u8),
}

impl Default for ListItemsIndentationMode {
    ghost use Rattle.mad_style.specs.declared.kinds.ListItemsIndentationMode.TheVariants.{Block};

    ghost is_default = { λ mode. mode ≡ Block };

    fn default() -> Self {
        ListItemsIndentationMode::Block
    }
}
