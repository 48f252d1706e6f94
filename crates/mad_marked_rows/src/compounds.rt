//! Compounds with marks, put after a string.

ghost use Rattle.std.specs.Prelude.{◌≡◌, ◌+◌, ◌++◌, IfOk, OnOk, string_bytes};
ghost use Rattle.mad_links.specs.LinkRows.{linked_bytes};
ghost use Rattle.mad_md.specs.Flagged.{flagged_of};
ghost use Rattle.mad_marked_rows.specs.LinkedRows.{linked_compound, linked_compounds};
ghost use Rattle.mad_marked_rows.specs.LinkedTexts.{pieces_on};
ghost use Rattle.mad_marked_rows.specs.MarkedTexts.{SameFrom};
ghost use Rattle.mad_marked_rows.specs.Paints.{paint_by};
ghost use Rattle.mad_marks.specs.LineMarks.{has_mark};
ghost use Rattle.mad_marks.specs.RowMarks.{counted};

use crate::cursors::MarkCursor;
use crate::lines::MarkedSkin;
use crate::texts::append_marked_text;
use mad_links::push_end;
use mad_marks::has_mark;
use mad_md::Compound;
use mad_style::{CompositeKind, LineStyle};
use std::alloc::AllocError;

// A compound in a line of that kind and style, where the link of the number `was` is open; which one is then, is answered. The cursor goes on behind what is
// counted of it.
fn append_compound(
    rows: &mut String,
    compound: &Compound,
    kind: CompositeKind,
    style: &LineStyle,
    skin: MarkedSkin<'_>,
    was: Option<usize>,
    cursor: &mut MarkCursor<'_>,
) -> Result<Option<usize>, AllocError>
    ensures writes { IfOk result (λ now. pieces_on skin.entry.addresses.now (string_bytes rows.old, was) (linked_compound (paint_by skin.entry.paint.styles.now) (has_mark kind) cursor.old.runs.now skin.entry.skin.now style.now cursor.old.number compound.now) ≡ (string_bytes rows.new, now)) }
    ensures number { OnOk result (cursor.new.number ≡ cursor.old.number + counted (has_mark kind) (flagged_of compound.now)) }
    ensures same { OnOk result (SameFrom cursor.old.runs.now cursor.new.runs.now cursor.new.number) }
{
    let own = skin.skin.compound_style(style, compound);
    if has_mark(kind, compound) {
        let now = append_marked_text(
            rows,
            own.object_style,
            compound.src,
            skin.paint,
            skin.addresses,
            was,
            cursor,
        )?;
        return Ok(now);
    }
    push_end(rows, skin.addresses, was)?;
    let piece = own.apply_to(compound.src);
    write!(rows, "{piece}")?;
    Ok(None)
}

/// The compounds of a line of that kind and style. The last link is closed behind them.
pub(crate) fn append_compounds(
    rows: &mut String,
    compounds: &[Compound],
    kind: CompositeKind,
    style: &LineStyle,
    skin: MarkedSkin<'_>,
    cursor: &mut MarkCursor<'_>,
) -> Result<(), AllocError>
    ensures { OnOk result (string_bytes rows.new ≡ string_bytes rows.old ++ linked_bytes skin.entry.addresses.now (linked_compounds (paint_by skin.entry.paint.styles.now) (has_mark kind) cursor.old.runs.now skin.entry.skin.now style.now cursor.old.number compounds.now)) }
{
    let mut link = None;
    for compound in compounds {
        link = append_compound(rows, compound, kind, style, skin, link, cursor)?;
    }
    push_end(rows, skin.addresses, link)?;
    Ok(())
}
