//! Laws, each the contract of a small function: texts that keep the premises of what an area shows, and that tables fit their place. And an
//! example whose premises are proved: a text that is written in an area, and what a screen shows that reads it.

ghost use Rattle.std.specs.Prelude.{◌≡◌, ◌∷◌, [], Err, IfOk, OnErr, OnOk, Some};
ghost use Rattle.mad_term.specs.declared.errors.Error.TheVariants.{InsufficientWidth, Memory};
ghost use Rattle.mad_term.specs.declared.errors.InsufficientWidthError.{InsufficientWidthError};
ghost use Rattle.mad_screen.specs.Grid.{cell_at, plain_pen};
ghost use Rattle.mad_screen.specs.Terminal.{after_bytes};
ghost use Rattle.mad_layout.specs.ItemCells.{ItemInACellKeepsPremises};
ghost use Rattle.mad_layout.specs.SeveralKinds.{SeveralKindsKeepPremises};
ghost use Rattle.mad_layout.specs.Sources.{LinesTakeColumns};
ghost use Rattle.mad_format.specs.CompositeWraps.{IsCompositeWrap};
ghost use Rattle.mad_blocks.specs.FittingLayouts.{IsFittingWrap};
ghost use Rattle.mad_layout.specs.PrintableTables.{TablesFit};
ghost use Rattle.mad_layout.specs.Words.{corner, words, SpacesAreNoText};

use crate::skin::MadSkin;
pub use mad_blocks::laws::{
    other_tables_are_refused, passes_are_parts, rules_elsewhere_are_refused, worked_tables,
    wrong_layouts,
};
use mad_measure::Area;
use mad_screen::{CutOut, Screen};
use mad_term::Error;
use std::alloc::Global;

/// Each character of `aaa bb cc` takes columns.
#[tactic(auto, using(crate::proofs::WordLemmas::words_take_columns))]
pub fn words_take_columns()
    ensures { LinesTakeColumns words }
{}

/// A text with a header, a paragraph, items, a quote, a rule and a line of code keeps the premises of what an area shows.
pub fn several_kinds_keep_premises()
    ensures { SeveralKindsKeepPremises }
{}

/// So does a table with an item in a cell that has room in the column that it gets, but none in the narrowest one.
pub fn an_item_in_a_cell_keeps_premises()
    ensures { ItemInACellKeepsPremises }
{}

/// Who fills an area with spaces has not shown `aaa bb cc` in it.
pub fn spaces_are_no_text()
    ensures { SpacesAreNoText }
{}

/// A table that is laid out at a width fits a row at least as wide when it is drawn.
pub fn tables_fit()
    // However many lines its cells are wrapped into.
    ensures fitting { TablesFit IsFittingWrap }

    // So does one whose cells have the fewest lines.
    ensures least { TablesFit IsCompositeWrap }
{}

/// A screen of sixteen columns and four rows, a `z` in its corner, after `aaa bb cc` was written in an area of twelve columns and two
/// rows, whose first cell is in column 2 of row 1.
///
/// # Errors
///
/// Out of memory.
pub fn words_on_a_screen(alloc: Global) -> Result<Screen, Error>
    // The area's first cell shows the first letter.
    ensures inside { IfOk result (λ screen. cell_at screen 2 1 ≡ record { chars = 97 ∷ []; pen = plain_pen }) }

    // A cell outside it is as it was.
    ensures outside { IfOk result (λ screen. cell_at screen 0 0 ≡ corner) }

    // The width isn't refused.
    ensures wide { (e : InsufficientWidthError) → ¬ (result ≡ Err (InsufficientWidth e)) }
{
    let mut screen = Screen::new(alloc, 16, 4)?;
    show(&mut screen, b"z")?;
    let mut out = CutOut::new(alloc, 100, 100, false)?;
    let skin = MadSkin::no_style();
    let area = Area::new(2, 1, 12, 2);
    skin.write_in_area_on(alloc, &mut out, "aaa bb cc", &area)?;
    let taken = out.taken();
    show(&mut screen, taken)?;
    Ok(screen)
}

// Reads what a plain terminal reads.
fn show(screen: &mut Screen, bytes: &[u8]) -> Result<(), Error>
    ensures shown { OnOk result (after_bytes screen.old bytes.now ≡ Some screen.new) }
    ensures err { OnErr result (result ≡ Err Memory) }
{
    match screen.read_bytes(bytes) {
        Ok(()) => Ok(()),
        Err(_) => Err(Error::Memory),
    }
}
