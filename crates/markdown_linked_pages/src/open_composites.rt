//! Composites with their links, put after a string. Which link is open behind them is answered, so that blanks at a row's end can be taken before it is
//! closed.

ghost use Rattle.std.specs.Prelude.{◌≡◌, ◌+◌, IfOk, OnOk, string_bytes};
ghost use Rattle.mad_md.specs.Flagged.{flagged_of};
ghost use Rattle.mad_marked_rows.specs.LinkedRows.{linked_composite, linked_compound, linked_compounds};
ghost use Rattle.mad_marked_rows.specs.LinkedTexts.{pieces_on};
ghost use Rattle.mad_marked_rows.specs.MarkedTexts.{SameFrom};
ghost use Rattle.mad_marked_rows.specs.Paints.{paint_by};
ghost use Rattle.mad_marks.specs.LineMarks.{has_mark};
ghost use Rattle.mad_marks.specs.RowMarks.{counted};

use mad_format::FmtComposite;
use mad_links::push_end;
use mad_marked_rows::{MarkCursor, MarkedSkin, append_marked_text};
use mad_marks::has_mark;
use mad_md::Compound;
use mad_rows::{PlacedComposite, RowPlace};
use mad_style::{CompositeKind, LineStyle};
use std::alloc::AllocError;

// A compound in a line of that kind and style, where the link of the number `was` is open; which one is then, is answered. The cursor goes on behind what is
// counted of it.
fn append_compound(
    rows: &mut String,
    compound: &Compound,
    kind: CompositeKind,
    style: &LineStyle,
    skin: MarkedSkin<'_>,
    was: Option<usize>,
    cursor: &mut MarkCursor<'_>,
) -> Result<Option<usize>, AllocError>
    ensures writes { IfOk result (λ now. pieces_on skin.entry.addresses.now (string_bytes rows.old, was) (linked_compound (paint_by skin.entry.paint.styles.now) (has_mark kind) cursor.old.runs.now skin.entry.skin.now style.now cursor.old.number compound.now) ≡ (string_bytes rows.new, now)) }
    ensures number { OnOk result (cursor.new.number ≡ cursor.old.number + counted (has_mark kind) (flagged_of compound.now)) }
    ensures same { OnOk result (SameFrom cursor.old.runs.now cursor.new.runs.now cursor.new.number) }
{
    let own = skin.skin.compound_style(style, compound);
    if has_mark(kind, compound) {
        let now = append_marked_text(
            rows,
            own.object_style,
            compound.src,
            skin.paint,
            skin.addresses,
            was,
            cursor,
        )?;
        return Ok(now);
    }
    push_end(rows, skin.addresses, was)?;
    let piece = own.apply_to(compound.src);
    write!(rows, "{piece}")?;
    Ok(None)
}

// The compounds of a line of that kind and style. Which link is open behind them is answered.
fn append_open_compounds(
    rows: &mut String,
    compounds: &[Compound],
    kind: CompositeKind,
    style: &LineStyle,
    skin: MarkedSkin<'_>,
    cursor: &mut MarkCursor<'_>,
) -> Result<Option<usize>, AllocError>
    ensures { IfOk result (λ now. pieces_on skin.entry.addresses.now (string_bytes rows.old, None) (linked_compounds (paint_by skin.entry.paint.styles.now) (has_mark kind) cursor.old.runs.now skin.entry.skin.now style.now cursor.old.number compounds.now) ≡ (string_bytes rows.new, now)) }
{
    let mut link = None;
    for compound in compounds {
        link = append_compound(rows, compound, kind, style, skin, link, cursor)?;
    }
    Ok(link)
}

/// Puts a composite with its marks, at its place in a row, after the rows that are there. It answers which link is open behind it: where blanks follow its
/// text, none is. So many counted characters of the text stand before it.
///
/// # Errors
///
/// Out of memory is the only error. What the rows then end with is open.
pub(crate) fn append_open_composite(
    rows: &mut String,
    composite: &FmtComposite,
    number: usize,
    place: RowPlace,
    skin: MarkedSkin<'_>,
) -> Result<Option<usize>, AllocError>
    ensures { IfOk result (λ now. pieces_on skin.entry.addresses.now (string_bytes rows.old, None) (linked_composite (paint_by skin.entry.paint.styles.now) has_mark skin.entry.runs.now skin.entry.skin.now place.outer place.margins place.filled number composite.now) ≡ (string_bytes rows.new, now)) }
{
    let style = skin.skin.line_style(composite.kind);
    let placed = PlacedComposite {
        skin: skin.skin,
        composite,
        place,
    };
    let (front, end) = placed.ends(style);
    let mut cursor = MarkCursor {
        runs: skin.runs,
        number,
    };
    write!(rows, "{front}")?;
    let link = append_open_compounds(
        rows,
        &composite.compounds,
        composite.kind,
        style,
        skin,
        &mut cursor,
    )?;
    if end.inner == 0 && end.outer == 0 {
        return Ok(link);
    }
    push_end(rows, skin.addresses, link)?;
    write!(rows, "{end}")?;
    Ok(None)
}
