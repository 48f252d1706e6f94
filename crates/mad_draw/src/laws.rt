//! Laws of drawing, each as a function that does nothing and states its law.

ghost use Rattle.std.specs.Prelude.{◌≡◌};
ghost use Rattle.mad_draw.specs.BesideBar.{BarIsLast};
ghost use Rattle.mad_draw.specs.Crops.{KeepsTheLimit};
ghost use Rattle.mad_draw.specs.Panes.{PanesCompose};
ghost use Rattle.mad_draw.specs.PlacedPieces.{ShowsPlacedPieces};
ghost use Rattle.mad_draw.specs.ProgressBars.{BarsFit};
ghost use Rattle.mad_draw.specs.Rects.{bland, half_width_outside, middle_round_line, middle_square_line, AreBorderChars};

use crate::rects::{
    BORDER_STYLE_BLAND, BORDER_STYLE_HALF_WIDTH_OUTSIDE, BORDER_STYLE_MIDDLE_ROUND_LINE,
    BORDER_STYLE_MIDDLE_SQUARE_LINE,
};

/// A row beside a bar shows its own cells, and in the last column the bar's.
pub fn bars_are_last()
    ensures { BarIsLast }
{}

/// Areas that share no cell, drawn one after the other, each show their own rows, and no cell outside all of them changes.
pub fn panes_compose()
    ensures { PanesCompose }
{}

/// Pieces that are placed in an area show there, the later ones over those before. A cell that none of them covers keeps
/// what it showed, and so does each outside the area.
pub fn placed_pieces_are_shown()
    ensures { ShowsPlacedPieces }
{}

/// Whatever a crop writer is given, it never writes more columns in all than it was allowed.
pub fn limits_are_kept()
    ensures { KeepsTheLimit }
{}

/// The characters of the border styles.
pub fn border_styles_are()
    ensures half_width_outside { BORDER_STYLE_HALF_WIDTH_OUTSIDE ≡ half_width_outside }
    ensures middle_square_line { BORDER_STYLE_MIDDLE_SQUARE_LINE ≡ middle_square_line }
    ensures middle_round_line { BORDER_STYLE_MIDDLE_ROUND_LINE ≡ middle_round_line }
    ensures bland { BORDER_STYLE_BLAND ≡ bland }
{}

/// Each character of the border styles takes one column, so a rectangle with one of them is shown.
pub fn border_styles_are_shown()
    ensures half_width_outside { AreBorderChars BORDER_STYLE_HALF_WIDTH_OUTSIDE }
    ensures middle_square_line { AreBorderChars BORDER_STYLE_MIDDLE_SQUARE_LINE }
    ensures middle_round_line { AreBorderChars BORDER_STYLE_MIDDLE_ROUND_LINE }
    ensures bland { AreBorderChars BORDER_STYLE_BLAND }
{}

/// A progress bar is no longer than its length.
pub fn bars_fit()
    ensures { BarsFit }
{}
