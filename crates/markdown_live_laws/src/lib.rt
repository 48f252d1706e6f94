//! Laws of live Markdown, each the contract of a small function: its rows fit the terminal, whatever the text says.
#![tactic(auto)]

ghost use Rattle.mad_page_skin.specs.DarkSkins.{dark_page_skin};
ghost use Rattle.mad_page_skin.specs.LightSkins.{light_page_skin};
ghost use Rattle.mad_page_skin.specs.PageSkins.{page_row_skin};
ghost use Rattle.mad_page_skin.specs.PlainSkins.{plain_skin};
ghost use Rattle.mad_page_skin.specs.SixteenSkins.{sixteen_page_skin};
ghost use Rattle.mad_rows.specs.RowStyles.{AreKnownStyles};
ghost use Rattle.markdown_live_laws.specs.Fitting.{IsShownSkin, PiecesAreShown, TextsFit};

use mad_page_skin::PageSkin;
use mad_page_skin_laws::{page_colors_are_bytes, page_marks_are_shown};
use mad_rows::know_styles;

/// The rows of each text fit the terminal, from three columns on, in a skin whose marks take a column each.
pub fn texts_fit()
    ensures { TextsFit }
{}

/// So a text that is given in pieces is shown on each terminal that is as wide at least, and one column more.
pub fn pieces_are_shown()
    ensures { PiecesAreShown }
{}

/// The skins that are made are such ones.
pub fn made_skins_are_shown()
    ensures dark { IsShownSkin dark_page_skin }
    ensures light { IsShownSkin light_page_skin }
    ensures sixteen { IsShownSkin sixteen_page_skin }
    ensures plain { IsShownSkin plain_skin }
{
    page_marks_are_shown();
    page_colors_are_bytes();
}

/// In each skin that a program holds the numbers of its colors are bytes. So of another skin its marks alone are to be known.
pub fn colors_are_bytes(skin: &PageSkin)
    ensures { AreKnownStyles (page_row_skin skin.now) }
{
    know_styles(&skin.row_skin());
}
