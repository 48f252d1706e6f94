//! A composite with marks in its row, put after a string.

ghost use Rattle.std.specs.Prelude.{◌≡◌, ◌++◌, OnOk, string_bytes};
ghost use Rattle.mad_links.specs.LinkRows.{linked_bytes};
ghost use Rattle.mad_marked_rows.specs.LinkedRows.{linked_composite};
ghost use Rattle.mad_marked_rows.specs.Paints.{paint_by};
ghost use Rattle.mad_mark_runs.specs.Values.{AreRising};
ghost use Rattle.mad_marks.specs.LineMarks.{has_mark};

use crate::compounds::append_compounds;
use crate::cursors::MarkCursor;
use crate::lines::MarkedSkin;
use mad_format::FmtComposite;
use mad_mark_runs::runs_from;
use mad_rows::{PlacedComposite, RowPlace};
use std::alloc::AllocError;

/// A composite at its place, before which so many counted characters of the text stand.
pub(crate) fn append_composite(
    rows: &mut String,
    composite: &FmtComposite,
    number: usize,
    place: RowPlace,
    skin: MarkedSkin<'_>,
) -> Result<(), AllocError>
    requires { AreRising 0 skin.runs.now }
    ensures { OnOk result (string_bytes rows.new ≡ string_bytes rows.old ++ linked_bytes skin.entry.addresses.now (linked_composite (paint_by skin.entry.paint.styles.now) has_mark skin.entry.runs.now skin.entry.skin.now place.outer place.margins place.filled number composite.now)) }
{
    let style = skin.skin.line_style(composite.kind);
    let placed = PlacedComposite {
        skin: skin.skin,
        composite,
        place,
    };
    let (front, end) = placed.ends(style);
    let mut cursor = MarkCursor {
        runs: runs_from(skin.runs, number.saturating_sub(1)),
        number,
    };
    write!(rows, "{front}")?;
    append_compounds(
        rows,
        &composite.compounds,
        composite.kind,
        style,
        skin,
        &mut cursor,
    )?;
    write!(rows, "{end}")?;
    Ok(())
}
