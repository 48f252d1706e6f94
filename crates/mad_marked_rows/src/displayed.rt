//! A composite with marks as a displayed value: piece by piece, without memory. Its links aren't written.

ghost use Rattle.std.specs.Fmt.{WritesOnOk};
ghost use Rattle.std.specs.Prelude.{◌≡◌, ◌+◌, Some, IfOk, OnOk, chars};
ghost use Rattle.mad_draw.specs.Pieces.{pieces_bytes};
ghost use Rattle.mad_md.specs.Flagged.{flagged_of};
ghost use Rattle.mad_marked_rows.specs.MarkedTexts.{mark_value, next_value, number_next, text_pieces, SameFrom};
ghost use Rattle.mad_marked_rows.specs.Paints.{paint_by};
ghost use Rattle.mad_marks.specs.LineMarks.{has_mark};
ghost use Rattle.mad_marks.specs.RowMarks.{counted};

use crate::cursors::MarkCursor;
use crate::paints::Paint;
use crate::texts::goes_on;
use mad_format::FmtComposite;
use mad_mark_runs::MarkRun;
use mad_marks::{count_in_compound, has_mark};
use mad_md::Compound;
use mad_rows::{PlacedComposite, RowPlace, RowSkin};
use mad_style::{CompositeKind, CompoundStyle, LineStyle};
use mad_term::{ContentStyle, StyleOpening, closing_text};
use std::fmt::{self, Display};

/// A composite with marks at its place in a row.
#[derive(Clone, Copy)]
pub struct MarkedComposite<'a, 's> {
    /// The skin that it is drawn in.
    pub skin: &'a RowSkin,
    /// What is put over its style: the first for the mark 1, and so on.
    pub styles: &'a [CompoundStyle],
    /// The marks of the text's counted characters.
    pub runs: &'a [MarkRun],
    /// How many counted characters of the text stand before it.
    pub number: usize,
    /// The composite.
    pub composite: &'a FmtComposite<'s>,
    /// Where it is in the row.
    pub place: RowPlace,
}

impl fmt::Display for MarkedComposite<'_, '_> {
    ghost use Rattle.mad_marked_rows.specs.MarkedRows.{marked_composite};

    ghost output = { λ c. Some (pieces_bytes (marked_composite (paint_by c.styles.now) has_mark c.runs.now c.skin.now c.place.outer c.place.margins c.place.filled c.number c.composite.now)) };

    fn fmt<W: fmt::Write>(&self, f: &mut fmt::Formatter<W>) -> fmt::Result {
        let style = self.skin.line_style(self.composite.kind);
        let placed = PlacedComposite {
            skin: self.skin,
            composite: self.composite,
            place: self.place,
        };
        let (front, end) = placed.ends(style);
        let compounds = MarkedCompounds {
            skin: self.skin,
            styles: self.styles,
            runs: self.runs,
            number: self.number,
            kind: self.composite.kind,
            style,
            compounds: &self.composite.compounds,
        };
        front.fmt(f)?;
        compounds.fmt(f)?;
        end.fmt(f)
    }
}

// The compounds of a line of that kind and style.
#[derive(Clone, Copy)]
struct MarkedCompounds<'a, 's> {
    skin: &'a RowSkin,
    styles: &'a [CompoundStyle],
    runs: &'a [MarkRun],
    number: usize,
    kind: CompositeKind,
    style: &'a LineStyle,
    compounds: &'a [Compound<'s>],
}

impl fmt::Display for MarkedCompounds<'_, '_> {
    ghost use Rattle.mad_marked_rows.specs.MarkedRows.{marked_compounds};

    ghost output = { λ c. Some (pieces_bytes (marked_compounds (paint_by c.styles.now) (has_mark c.kind) c.runs.now c.skin.now c.style.now c.number c.compounds.now)) };

    fn fmt<W: fmt::Write>(&self, f: &mut fmt::Formatter<W>) -> fmt::Result {
        let mut number = self.number;
        for compound in self.compounds {
            let placed = MarkedCompound {
                skin: self.skin,
                styles: self.styles,
                runs: self.runs,
                number,
                kind: self.kind,
                style: self.style,
                compound,
            };
            placed.fmt(f)?;
            number = number_after(number, self.kind, compound)?;
        }
        Ok(())
    }
}

// How many counted characters stand before what is behind a compound.
fn number_after(
    number: usize,
    kind: CompositeKind,
    compound: &Compound,
) -> Result<usize, fmt::Error>
    ensures { IfOk result (λ next. next ≡ number + counted (has_mark kind) (flagged_of compound.now)) }
{
    match number.checked_add(count_in_compound(kind, compound)) {
        Some(next) => Ok(next),
        None => Err(fmt::Error),
    }
}

// A compound in a line of that kind and style.
#[derive(Clone, Copy)]
struct MarkedCompound<'a, 's> {
    skin: &'a RowSkin,
    styles: &'a [CompoundStyle],
    runs: &'a [MarkRun],
    number: usize,
    kind: CompositeKind,
    style: &'a LineStyle,
    compound: &'a Compound<'s>,
}

impl fmt::Display for MarkedCompound<'_, '_> {
    ghost use Rattle.mad_marked_rows.specs.MarkedRows.{marked_compound};

    ghost output = { λ c. Some (pieces_bytes (marked_compound (paint_by c.styles.now) (has_mark c.kind) c.runs.now c.skin.now c.style.now c.number c.compound.now)) };

    fn fmt<W: fmt::Write>(&self, f: &mut fmt::Formatter<W>) -> fmt::Result {
        let own = self.skin.compound_style(self.style, self.compound);
        if has_mark(self.kind, self.compound) {
            write_marked(
                f,
                self.styles,
                self.runs,
                self.number,
                own.object_style,
                self.compound.src,
            )
        } else {
            let piece = own.apply_to(self.compound.src);
            piece.fmt(f)
        }
    }
}

// Writes a text in a style, cut where its mark changes. All that isn't blank of it is counted.
fn write_marked<W: fmt::Write>(
    f: &mut fmt::Formatter<W>,
    styles: &[CompoundStyle],
    runs: &[MarkRun],
    number: usize,
    style: ContentStyle,
    text: &str,
) -> fmt::Result
    ensures { WritesOnOk W.write_str_gives f.old result (pieces_bytes (text_pieces (paint_by styles.now) runs.now style number (chars text.now))) f.new }
{
    let mut cursor = MarkCursor { runs, number };
    let mut rest = text.chars();
    let Some(first) = rest.next() else {
        return Ok(());
    };
    let mut value = mark_of_next(&mut cursor, first)?;
    let begun = FirstChar {
        styles,
        style,
        value,
        c: first,
    };
    begun.fmt(f)?;
    while let Some(c) = rest.next() {
        let other = mark_of_next(&mut cursor, c)?;
        let next = PartChar {
            styles,
            style,
            value,
            other,
            c,
        };
        next.fmt(f)?;
        value = part_after(value, other, c);
    }
    f.write_str(closing_text(style_of_mark(styles, value, style)))
}

// The mark of the next character, which is passed.
fn mark_of_next(cursor: &mut MarkCursor<'_>, c: char) -> Result<usize, fmt::Error>
    ensures value { IfOk result (λ value. value ≡ mark_value cursor.old.runs.now cursor.old.number c) }
    ensures number { OnOk result (cursor.new.number ≡ number_next cursor.old.number c) }
    ensures same { OnOk result (SameFrom cursor.old.runs.now cursor.new.runs.now cursor.new.number) }
{
    match cursor.next(c) {
        Ok(value) => Ok(value),
        Err(_) => Err(fmt::Error),
    }
}

// The value of the part that a character of a value is in, behind a part of another.
fn part_after(value: usize, other: usize, c: char) -> usize
    ensures { result ≡ next_value value other c }
{
    if goes_on(value, other, c) {
        value
    } else {
        other
    }
}

// What a mark makes of a style.
fn style_of_mark(styles: &[CompoundStyle], value: usize, style: ContentStyle) -> ContentStyle
    ensures { result ≡ paint_by styles.now value style }
{
    Paint::new(styles).over(value, style)
}

// The first character of a part.
#[derive(Clone, Copy)]
struct FirstChar<'a> {
    styles: &'a [CompoundStyle],
    style: ContentStyle,
    value: usize,
    c: char,
}

impl fmt::Display for FirstChar<'_> {
    ghost use Rattle.mad_marked_rows.specs.MarkedTexts.{first_char};

    ghost output = { λ p. Some (first_char (paint_by p.styles.now) p.style p.value p.c) };

    fn fmt<W: fmt::Write>(&self, f: &mut fmt::Formatter<W>) -> fmt::Result {
        let opening = StyleOpening(style_of_mark(self.styles, self.value, self.style));
        opening.fmt(f)?;
        f.write_char(self.c)
    }
}

// A character behind a part of a value: it goes on with the part, or begins one of its own value.
#[derive(Clone, Copy)]
struct PartChar<'a> {
    styles: &'a [CompoundStyle],
    style: ContentStyle,
    value: usize,
    other: usize,
    c: char,
}

impl fmt::Display for PartChar<'_> {
    ghost use Rattle.mad_marked_rows.specs.MarkedTexts.{part_char};

    ghost output = { λ p. Some (part_char (paint_by p.styles.now) p.style p.value p.other p.c) };

    fn fmt<W: fmt::Write>(&self, f: &mut fmt::Formatter<W>) -> fmt::Result {
        if goes_on(self.value, self.other, self.c) {
            return f.write_char(self.c);
        }
        let closing = closing_text(style_of_mark(self.styles, self.value, self.style));
        f.write_str(closing)?;
        let first = FirstChar {
            styles: self.styles,
            style: self.style,
            value: self.other,
            c: self.c,
        };
        first.fmt(f)
    }
}
