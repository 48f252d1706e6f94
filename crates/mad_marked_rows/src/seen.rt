//! The characters of a composite with marks.

ghost use Rattle.std.specs.Prelude.{◌≡◌, ◌+◌, ◌++◌, IfOk, OnOk, chars};
ghost use Rattle.mad_mark_runs.specs.Marks.{count_of};
ghost use Rattle.mad_mark_runs.specs.Values.{AreRising};
ghost use Rattle.mad_marked_rows.specs.Seen.{bare_text, counted_text, reversed, seen_char, seen_compound, seen_text};
ghost use Rattle.mad_marked_rows.specs.MarkedTexts.{next_value, SameFrom};
ghost use Rattle.mad_marked_rows.specs.Paints.{paint_by};
ghost use Rattle.mad_marks.specs.LineMarks.{has_mark};
ghost use Rattle.mad_marks.specs.RowMarks.{counted};
ghost use Rattle.mad_md.specs.Flagged.{flagged_of};

use crate::cursors::MarkCursor;
use crate::lines::MarkedSkin;
use crate::paints::Paint;
use crate::texts::goes_on;
use mad_format::FmtComposite;
use mad_mark_runs::runs_from;
use mad_marks::has_mark;
use mad_md::Compound;
use mad_style::{CompositeKind, CompoundStyle, LineStyle, StyledChar};
use mad_term::Attribute;
use std::alloc::{AllocError, Global};

/// A character as its row shows it, and the mark of the part that it is in.
#[derive(Clone, Copy)]
pub struct SeenChar {
    /// The mark, by which a link is known; 0 is none.
    pub value: usize,
    /// The character in its style.
    pub char: StyledChar,
}

/// The characters of a composite, before which so many counted characters of the text stand.
///
/// # Errors
///
/// Out of memory is the only error.
pub fn seen_text(
    alloc: Global,
    composite: &FmtComposite,
    number: usize,
    skin: MarkedSkin<'_>,
) -> Result<Vec<SeenChar>, AllocError>
    requires { AreRising 0 skin.runs.now }
    ensures { IfOk result (λ text. text.items ≡ seen_text (paint_by skin.entry.paint.styles.now) has_mark skin.entry.runs.now skin.entry.skin.now number composite.now) }
{
    let mut text = Vec::new(alloc);
    let style = skin.skin.line_style(composite.kind);
    let mut cursor = MarkCursor {
        runs: runs_from(skin.runs, number.saturating_sub(1)),
        number,
    };
    for compound in &composite.compounds {
        push_compound(
            &mut text,
            compound,
            composite.kind,
            style,
            skin,
            &mut cursor,
        )?;
    }
    Ok(text)
}

// Those of a compound in a line of that kind and style.
fn push_compound(
    text: &mut Vec<SeenChar>,
    compound: &Compound,
    kind: CompositeKind,
    style: &LineStyle,
    skin: MarkedSkin<'_>,
    cursor: &mut MarkCursor<'_>,
) -> Result<(), AllocError>
    ensures text { OnOk result (text.new.items ≡ text.old.items ++ seen_compound (paint_by skin.entry.paint.styles.now) (has_mark kind) cursor.old.runs.now skin.entry.skin.now style.now cursor.old.number compound.now) }
    ensures number { OnOk result (cursor.new.number ≡ cursor.old.number + counted (has_mark kind) (flagged_of compound.now)) }
    ensures same { OnOk result (SameFrom cursor.old.runs.now cursor.new.runs.now cursor.new.number) }
{
    let own = skin.skin.compound_style(style, compound);
    if has_mark(kind, compound) {
        push_counted(text, compound.src, own, skin.paint, cursor)?;
        return Ok(());
    }
    push_bare(text, compound.src, own)?;
    Ok(())
}

// Those of a text that is counted.
fn push_counted(
    text: &mut Vec<SeenChar>,
    src: &str,
    style: CompoundStyle,
    paint: Paint<'_>,
    cursor: &mut MarkCursor<'_>,
) -> Result<(), AllocError>
    ensures text { OnOk result (text.new.items ≡ text.old.items ++ counted_text (paint_by paint.entry.styles.now) cursor.old.runs.now style cursor.old.number (chars src.now)) }
    ensures number { OnOk result (cursor.new.number ≡ cursor.old.number + count_of (chars src.now)) }
    ensures same { OnOk result (SameFrom cursor.old.runs.now cursor.new.runs.now cursor.new.number) }
{
    let mut rest = src.chars();
    let Some(first) = rest.next() else {
        return Ok(());
    };
    let mut value = cursor.next(first)?;
    text.push(seen_char(paint, style, value, first))?;
    while let Some(c) = rest.next() {
        let other = cursor.next(c)?;
        value = next_value(value, other, c);
        text.push(seen_char(paint, style, value, c))?;
    }
    Ok(())
}

// Those of one that isn't.
fn push_bare(text: &mut Vec<SeenChar>, src: &str, style: CompoundStyle) -> Result<(), AllocError>
    ensures { OnOk result (text.new.items ≡ text.old.items ++ bare_text style (chars src.now)) }
{
    let mut rest = src.chars();
    while let Some(c) = rest.next() {
        text.push(SeenChar {
            value: 0,
            char: StyledChar::new(style, c),
        })?;
    }
    Ok(())
}

// The value of the part that a character of a value is in, behind a part of another.
fn next_value(value: usize, other: usize, c: char) -> usize
    ensures { result ≡ next_value value other c }
{
    if goes_on(value, other, c) {
        value
    } else {
        other
    }
}

// A character of a part, in the style that its mark makes of another.
fn seen_char(paint: Paint<'_>, style: CompoundStyle, value: usize, c: char) -> SeenChar
    ensures { result ≡ seen_char (paint_by paint.entry.styles.now) style value c }
{
    let own = CompoundStyle {
        object_style: paint.over(value, style.object_style),
    };
    SeenChar {
        value,
        char: StyledChar::new(own, c),
    }
}

/// The character with its colors exchanged, over what its mark made of its style; its mark stays, so that it is drawn within its link.
pub fn reversed(seen: SeenChar) -> SeenChar
    ensures { result ≡ reversed seen }
{
    let mut style = *seen.char.compound_style();
    style.add_attr(Attribute::Reverse);
    SeenChar {
        value: seen.value,
        char: StyledChar::new(style, seen.char.nude_char()),
    }
}
