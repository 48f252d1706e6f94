//! A skin that is no more than what laying out asks of one.

ghost use Rattle.std.specs.Prelude.{false};

use mad_format::LineSkin;
use mad_md::Alignment;
use mad_style::{CompositeKind, CompoundStyle, LineStyle, ListItemsIndentationMode};

/// One style for all kinds of lines, a mode of items, and whether words stay whole.
#[derive(Clone, Copy)]
pub struct TestSkin {
    style: LineStyle,
    mode: ListItemsIndentationMode,
    keeps_words: bool,
}

impl LineSkin for TestSkin {
    ghost rules = { λ skin. record { list_items_indentation_mode = skin.mode; whole_words = skin.keeps_words; cell_blanks = false; line_style = λ kind. skin.style } };

    fn items_indentation(&self) -> ListItemsIndentationMode {
        self.mode
    }

    fn whole_words(&self) -> bool {
        self.keeps_words
    }

    fn cell_blanks(&self) -> bool {
        false
    }

    fn style_of(&self, _kind: CompositeKind) -> &LineStyle {
        &self.style
    }
}

/// A skin without looks, with margins and a mode of items.
pub fn skin_with(
    left_margin: usize,
    right_margin: usize,
    mode: ListItemsIndentationMode,
) -> TestSkin {
    let style = LineStyle {
        compound_style: CompoundStyle::default(),
        align: Alignment::Unspecified,
        left_margin,
        right_margin,
    };
    TestSkin {
        style,
        mode,
        keeps_words: false,
    }
}

/// A skin without looks and margins.
pub fn unstyled_skin() -> TestSkin {
    skin_with(0, 0, ListItemsIndentationMode::Block)
}

/// A skin without looks and margins in which words stay whole, with a mode of items.
pub fn word_skin(mode: ListItemsIndentationMode) -> TestSkin {
    TestSkin {
        keeps_words: true,
        ..skin_with(0, 0, mode)
    }
}
