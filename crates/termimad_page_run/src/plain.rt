//! A skin without a style.

ghost use Rattle.std.specs.Prelude.{◌≡◌};
ghost use Rattle.termimad_page_run.specs.PlainSkins.{plain_bar, plain_skin};

use mad_layout::MadSkin;
use mad_style::{ScrollBarStyle, StyledChar};

/// The skin without a style, whose scroll bar has none either. The bar's thumb is told from its track by its character.
pub fn plain_skin() -> MadSkin
    ensures { result ≡ plain_skin }
{
    let mut skin = MadSkin::no_style();
    skin.scrollbar = plain_bar();
    skin
}

// A scroll bar without a style.
fn plain_bar() -> ScrollBarStyle
    ensures { result ≡ plain_bar }
{
    ScrollBarStyle {
        track: StyledChar::nude('│'),
        thumb: StyledChar::nude('▐'),
    }
}
