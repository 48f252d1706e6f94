//! Laws of the skins of pages that are made, each the contract of a small function.
#![tactic(auto)]

ghost use Rattle.mad_rows.specs.RowStyles.{AreKnownStyles};
ghost use Rattle.mad_page_skin.specs.DarkSkins.{dark_page_skin};
ghost use Rattle.mad_page_skin.specs.LightSkins.{light_page_skin};
ghost use Rattle.mad_page_skin.specs.PageSkins.{page_row_skin};
ghost use Rattle.mad_page_skin.specs.PlainSkins.{plain_skin};
ghost use Rattle.mad_page_skin.specs.SixteenSkins.{sixteen_page_skin};
ghost use Rattle.mad_page_skin_laws.specs.PageMarks.{ArePageMarksShown};

use mad_page_skin::PageSkin;
use mad_rows::know_styles;

/// The marks of the skins that are made take one column each.
pub fn page_marks_are_shown()
    ensures dark { ArePageMarksShown dark_page_skin }
    ensures light { ArePageMarksShown light_page_skin }
    ensures sixteen { ArePageMarksShown sixteen_page_skin }
    ensures plain { ArePageMarksShown plain_skin }
{}

/// The numbers of their colors are bytes.
pub fn page_colors_are_bytes()
    ensures dark { AreKnownStyles (page_row_skin dark_page_skin) }
    ensures light { AreKnownStyles (page_row_skin light_page_skin) }
    ensures sixteen { AreKnownStyles (page_row_skin sixteen_page_skin) }
    ensures plain { AreKnownStyles (page_row_skin plain_skin) }
{
    know_styles(&PageSkin::dark().row_skin());
    know_styles(&PageSkin::light().row_skin());
    know_styles(&PageSkin::sixteen().row_skin());
    know_styles(&PageSkin::plain().row_skin());
}
