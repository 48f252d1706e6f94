//! Wrapping composites and lines in a skin.

ghost use Rattle.std.specs.Prelude.{◌≡◌, ◌+◌, ◌≤◌, ◌<◌, ◌⊎◌, ◌++◌, ◌∷◌, ◌↔◌, [], List, length, IfOk, IfErr, OnOk, IsSome, IsTrue, MatchOption};
ghost use Rattle.std.specs.Vec.Iter.{into_iter_items};
ghost use Rattle.mad_md.specs.Flagged.{flagged_text};
ghost use Rattle.mad_md.specs.Lines.{styled_runs};
ghost use Rattle.mad_measure.specs.TextColumns.{width_of};
ghost use Rattle.mad_format.specs.CompositeWraps.{AreComposites, IsCompositeWrap, composite_of};
ghost use Rattle.mad_format.specs.LinesLeft.{AreCompositesLeft};
ghost use Rattle.mad_format.specs.PutWraps.{PutsLines, PutsWrap};
ghost use Rattle.mad_format.specs.Indents.{follow_up};
ghost use Rattle.mad_format.specs.FmtLines.{IsCompositeRead};
ghost use Rattle.mad_format.specs.WrappedLines.{AllMeasured, AllFit, AreLinesWrapped, IsLineMeasured, IsLineWrapped, IsWrapped, LineFits, line_with};
ghost use Rattle.mad_format.specs.Wraps.{IsMeasured};
ghost use Rattle.mad_format.specs.declared.line.FmtLine.{FmtLine};
ghost use Rattle.mad_term.specs.declared.errors.Error.TheVariants.{InsufficientWidth, Memory};

use crate::composite::FmtComposite;
use crate::indents::follow_up;
use crate::line::{FmtLine, put_line};
use crate::line_skin::LineSkin;
use crate::room::{Room, check_width, margins_and_rest, room_of};
use mad_md::typed_texts::typed_composite;
use mad_md::{Composite, Compound};
use mad_measure::Spacing;
use mad_style::CompositeKind;
use mad_term::Error;
use mad_wrap::{WrappedLine, fit_columns, wrap_compounds};
use std::alloc::{AllocError, Global};
use std::vec::IntoIter;

/// Wraps a composite that is wider than `width` columns, in the fewest lines.
///
/// The lines keep the composite's text but for whitespace between them and after the last. Where each character has room
/// after the greater indent, each line fits. The text is cut into tokens, which are placed one after the other, and no fitting
/// break has fewer lines. Two compounds that fit on a line each, with or without one of whitespace between them, are cut there.
/// The first line has the composite's kind, and the others the kind that follows it; all have its spacing, and no margins.
///
/// Where the skin keeps words whole, a word that fits on each line is placed as one, over compounds. No fitting break that
/// parts no such word has fewer lines, and nothing else is cut.
///
/// The composite has to be wider than the width, and its cached length right. The time is linear in the text; no character is
/// copied.
///
/// # Errors
///
/// A width under 3 is refused. The only other error is out of memory.
pub fn hard_wrap_composite<'s, S: LineSkin>(
    alloc: Global,
    composite: &FmtComposite<'s>,
    width: usize,
    skin: &S,
) -> Result<Vec<FmtComposite<'s>>, Error>
    requires wider { width < composite.now.visible_length }
    requires measured { IsMeasured (S.rules skin.now) composite.now }
    ensures wrapped { IfOk result (λ lines. IsCompositeWrap (S.rules skin.now) width composite.now lines.items) }
    ensures refused { width < 3 → result ≡ Err (InsufficientWidth (record { available_width = width })) }
    ensures memory { 3 ≤ width → IfErr result (λ e. e ≡ Memory) }
{
    check_width(width)?;
    Ok(wrap_composite(alloc, composite, width, skin)?)
}

/// Wraps a composite that is wider than `width` columns as [`hard_wrap_composite`] does, also at a width under 3, which a column may have.
///
/// Its cached length has to be right. Only out of memory is an error.
pub fn wrap_composite<'s, S: LineSkin>(
    alloc: Global,
    composite: &FmtComposite<'s>,
    width: usize,
    skin: &S,
) -> Result<Vec<FmtComposite<'s>>, AllocError>
    requires wider { width < composite.now.visible_length }
    requires measured { IsMeasured (S.rules skin.now) composite.now }
    ensures { IfOk result (λ lines. IsCompositeWrap (S.rules skin.now) width composite.now lines.items) }
{
    let room = room_of(skin, composite.kind, width);
    let lines = wrap_compounds(alloc, &composite.compounds, room)?;
    composites(alloc, lines, composite.kind, room, composite.spacing)
}

// The lines as composites: the first of this kind, the others of the kind that follows it.
fn composites<'s>(
    alloc: Global,
    lines: Vec<WrappedLine<'s>>,
    kind: CompositeKind,
    room: Room,
    spacing: Option<Spacing>,
) -> Result<Vec<FmtComposite<'s>>, AllocError>
    ensures { IfOk result (λ composites. AreComposites kind (follow_up kind) room.first room.other spacing lines.entry.items composites.items) }
{
    let mut composites = Vec::with_capacity(alloc, lines.len())?;
    let mut left = LinesLeft::of(lines, kind, room, spacing);
    while let Some(composite) = left.next() {
        composites.push(composite)?;
    }
    Ok(composites)
}

// Wrapped lines that are yet to become composites, one after another.
#[derive(Drop)]
struct LinesLeft<'s> {
    lines: IntoIter<WrappedLine<'s>>,
    kind: CompositeKind,
    indent: usize,
    later_indent: usize,
    spacing: Option<Spacing>,
}

impl<'s> LinesLeft<'s> {
    // The first of this kind, the others of the kind that follows it.
    fn of(
        lines: Vec<WrappedLine<'s>>,
        kind: CompositeKind,
        room: Room,
        spacing: Option<Spacing>,
    ) -> Self
        ensures { (cs : List FmtComposite) → AreCompositesLeft result cs → AreComposites kind (follow_up kind) room.first room.other spacing lines.entry.items cs }
    {
        LinesLeft {
            lines: lines.into_iter(),
            kind,
            indent: room.first,
            later_indent: room.other,
            spacing,
        }
    }

    // The next one, if there is one more.
    fn next(&mut self) -> Option<FmtComposite<'s>>
        ensures next { MatchOption result (AreCompositesLeft self.old []) (λ c. (cs : List FmtComposite) → AreCompositesLeft self.new cs → AreCompositesLeft self.old (c ∷ cs)) }
        ensures shorter { IsSome result → length (into_iter_items self.new.lines) < length (into_iter_items self.old.lines) }
    {
        let line = self.lines.next()?;
        let composite = composite_of(line, self.kind, self.indent, self.spacing);
        self.kind = follow_up(self.kind);
        self.indent = self.later_indent;
        Some(composite)
    }
}

// A wrapped line as a composite of this kind, with the columns in front of it.
fn composite_of<'s>(
    line: WrappedLine<'s>,
    kind: CompositeKind,
    indent: usize,
    spacing: Option<Spacing>,
) -> FmtComposite<'s>
    ensures { result ≡ composite_of kind indent spacing line.entry }
{
    let WrappedLine { compounds, columns } = line;
    FmtComposite {
        kind,
        compounds,
        visible_length: columns.saturating_add(indent),
        spacing,
        margins: None,
    }
}

/// Wraps the composites among the lines that are wider than `width` columns with their style's margins.
///
/// A composite that fits stays one line. Any other is wrapped, as [`hard_wrap_composite`] does, in the columns that its margins leave. The
/// field `margins` of each becomes its style's margins at this width. Rules and lines of tables stay as they are.
///
/// The cached lengths have to be right.
///
/// # Errors
///
/// Where a line doesn't fit, a `width` under 3 is refused. The only other error is out of memory.
pub fn hard_wrap_lines<'s, S: LineSkin>(
    alloc: Global,
    lines: Vec<FmtLine<'s>>,
    width: usize,
    skin: &S,
) -> Result<Vec<FmtLine<'s>>, Error>
    requires { AllMeasured (S.rules skin.now) lines.items }
    ensures wrapped { IfOk result (λ wrapped. AreLinesWrapped (S.rules skin.now) width lines.entry.items wrapped.items) }
    ensures narrow { width < 3 → IfOk result (λ _. AllFit (S.rules skin.now) width lines.entry.items) }
    ensures refused { IfErr result (λ e. (e ≡ Memory) ⊎ ((e ≡ InsufficientWidth (record { available_width = width })) × (width < 3) × ¬ (AllFit (S.rules skin.now) width lines.entry.items))) }
{
    if let Err(narrow) = check_width(width) {
        if !all_fit(&lines, width, skin) {
            return Err(Error::from(narrow));
        }
    }
    Ok(wrap_lines(alloc, lines, width, skin)?)
}

// Whether each line fits with its margins.
fn all_fit<S: LineSkin>(lines: &[FmtLine], width: usize, skin: &S) -> bool
    ensures { IsTrue result ↔ AllFit (S.rules skin.now) width lines.now }
{
    for line in lines {
        if !line_fits(line, width, skin) {
            return false;
        }
    }
    true
}

fn line_fits<S: LineSkin>(line: &FmtLine, width: usize, skin: &S) -> bool
    ensures { IsTrue result ↔ LineFits (S.rules skin.now) width line.now }
{
    match line {
        FmtLine::Normal(composite) => {
            let (_, inner) = margins_and_rest(skin, composite.kind, width);
            composite.visible_length <= inner
        }
        _ => true,
    }
}

// What the lines become, at any width.
fn wrap_lines<'s, S: LineSkin>(
    alloc: Global,
    lines: Vec<FmtLine<'s>>,
    width: usize,
    skin: &S,
) -> Result<Vec<FmtLine<'s>>, AllocError>
    requires { AllMeasured (S.rules skin.now) lines.items }
    ensures { IfOk result (λ wrapped. AreLinesWrapped (S.rules skin.now) width lines.entry.items wrapped.items) }
{
    // Most lines stay one.
    let mut wrapped = Vec::with_capacity(alloc, lines.len())?;
    for line in lines {
        push_line(alloc, &mut wrapped, line, width, skin)?;
    }
    Ok(wrapped)
}

// Puts what a line becomes, at any width, after the lines that are there.
fn push_line<'s, S: LineSkin>(
    alloc: Global,
    lines: &mut Vec<FmtLine<'s>>,
    line: FmtLine<'s>,
    width: usize,
    skin: &S,
) -> Result<(), AllocError>
    requires { IsLineMeasured (S.rules skin.now) line }
    ensures { OnOk result ((own : List FmtLine) × (lines.new.items ≡ lines.old.items ++ own) × IsLineWrapped (S.rules skin.now) width line.entry own) }
{
    match line {
        FmtLine::Normal(composite) => push_composite(alloc, lines, composite, width, skin),
        other => put_line(lines, other),
    }
}

/// Puts what a composite becomes, at any width in columns, after the lines that are there: what [`hard_wrap_lines`] makes of it.
///
/// Its cached length has to be right. Only out of memory is an error, and can leave some of the lines.
pub fn push_composite<'s, S: LineSkin>(
    alloc: Global,
    lines: &mut Vec<FmtLine<'s>>,
    composite: FmtComposite<'s>,
    width: usize,
    skin: &S,
) -> Result<(), AllocError>
    requires { IsMeasured (S.rules skin.now) composite }
    ensures { OnOk result ((own : List FmtLine) × (lines.new.items ≡ lines.old.items ++ own) × IsWrapped (S.rules skin.now) width composite.entry own) }
{
    let (margins, inner) = margins_and_rest(skin, composite.kind, width);
    if composite.visible_length <= inner {
        return put_line(lines, line_with(margins, composite));
    }
    let room = room_of(skin, composite.kind, inner);
    push_wrap(
        alloc,
        lines,
        &composite.compounds,
        composite.kind,
        room,
        composite.spacing,
        margins,
    )
}

/// Puts what a composite that was read becomes, at any width in columns, after the lines that are there: what [`push_composite`] puts of it.
///
/// Where it is wrapped, it is measured no further than to where it passes the width. Only out of memory is an error, and can leave some of
/// the lines.
pub fn push_read<'s, S: LineSkin>(
    alloc: Global,
    lines: &mut Vec<FmtLine<'s>>,
    composite: Composite<'s>,
    width: usize,
    skin: &S,
) -> Result<(), AllocError>
    ensures { OnOk result ((source : FmtComposite) × IsCompositeRead (S.rules skin.now) (styled_runs composite.entry) source
        × (own : List FmtLine) × (lines.new.items ≡ lines.old.items ++ own) × IsWrapped (S.rules skin.now) width source own) }
{
    typed_composite(&composite);
    if width == usize::MAX {
        // Here a composite of more columns fits, by its cached length.
        let composite = FmtComposite::from(composite, skin);
        return push_composite(alloc, lines, composite, width, skin);
    }
    let Composite { style, compounds } = composite;
    let kind = CompositeKind::from(style);
    let (margins, inner) = margins_and_rest(skin, kind, width);
    let room = room_of(skin, kind, inner);
    let Some(columns) = fit_columns(&compounds, room) else {
        return push_wrap(alloc, lines, &compounds, kind, room, None, margins);
    };
    let composite = FmtComposite {
        kind,
        compounds,
        visible_length: room.first + columns,
        spacing: None,
        margins: Some(margins),
    };
    put_line(lines, FmtLine::Normal(composite))
}

// Puts what compounds are wrapped into in their room, as [`push_wrapped`] puts it. They have to be wider than its first line.
fn push_wrap<'s>(
    alloc: Global,
    lines: &mut Vec<FmtLine<'s>>,
    compounds: &[Compound<'s>],
    kind: CompositeKind,
    room: Room,
    spacing: Option<Spacing>,
    margins: (usize, usize),
) -> Result<(), AllocError>
    requires wider { room.width < room.first + width_of (flagged_text compounds.now) }
    ensures { OnOk result (PutsWrap room compounds.now kind spacing margins lines.old.items lines.new.items) }
{
    let wrap = wrap_compounds(alloc, compounds, room)?;
    push_wrapped(lines, wrap, kind, room, spacing, margins)
}

// Puts wrapped lines after the lines that are there, as composites with these margins: the first of this kind, the others of
// the kind that follows it.
fn push_wrapped<'s>(
    lines: &mut Vec<FmtLine<'s>>,
    wrap: Vec<WrappedLine<'s>>,
    kind: CompositeKind,
    room: Room,
    spacing: Option<Spacing>,
    margins: (usize, usize),
) -> Result<(), AllocError>
    ensures { OnOk result (PutsLines room kind spacing margins wrap.entry.items lines.old.items lines.new.items) }
{
    let mut left = LinesLeft::of(wrap, kind, room, spacing);
    while let Some(composite) = left.next() {
        put_line(lines, line_with(margins, composite))?;
    }
    Ok(())
}

fn line_with<'s>(margins: (usize, usize), composite: FmtComposite<'s>) -> FmtLine<'s>
    ensures { result ≡ line_with margins composite.entry }
{
    let mut line = composite;
    line.margins = Some(margins);
    FmtLine::Normal(line)
}
