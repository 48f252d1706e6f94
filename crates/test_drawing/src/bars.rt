//! Rows beside a scroll bar that has moves of its own.

ghost use Rattle.mad_term.specs.Styles.{IsStyle};
ghost use Rattle.mad_style.specs.CompoundStyles.{unstyled};

use crate::drawings::{Words, area_of};
use mad_draw::{Rows, ScrollBar, draw_rows_beside};
use mad_screen::CutOut;
use mad_style::{CompoundStyle, ScrollBarStyle, StyledChar};
use mad_term::Error;
use std::alloc::{AllocError, Global};

// Rows that all show the same text, without style.
#[derive(Clone, Copy)]
struct Same<'t> {
    text: &'t str,
}

impl Rows for Same<'_> {
    ghost use Rattle.std.specs.Prelude.{[], ◌∷◌};

    ghost pieces = { λ same _. record { style = unstyled.object_style; text = same.text.now } ∷ [] };

    fn push_row(&self, bytes: &mut String, _y: u16) -> Result<(), AllocError> {
        let style = CompoundStyle::default();
        // Nothing is done: this only says that the style is known.
        know_style(style);
        write!(bytes, "{}", style.apply_to(self.text))
    }
}

// The numbers of a style's colors are bytes. Nothing is done.
fn know_style(style: CompoundStyle)
    ensures { IsStyle style.object_style }
{}

/// Rows of a text in an area of four numbers, beside the bar of a content of so many lines, of which so many are hidden above. The thumb is `#`,
/// the track `|`.
pub fn draw(alloc: Global, out: &mut CutOut, words: &Words, text: &str) -> Result<(), Error> {
    let [left, top, width, height, lines, scroll] = *words.numbers else {
        return Ok(());
    };
    let Some(area) = area_of(&[left, top, width, height]) else {
        return Ok(());
    };
    if !area.is_within_limits() {
        return Ok(());
    }
    let style = ScrollBarStyle {
        track: StyledChar::nude('|'),
        thumb: StyledChar::nude('#'),
    };
    let bar = ScrollBar::beside(&area, scroll, lines, style);
    draw_rows_beside(alloc, out, &Same { text }, bar, &area)
}
