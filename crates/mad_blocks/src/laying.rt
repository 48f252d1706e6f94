//! What becomes of a line, and of a block of code.

ghost use Rattle.std.specs.Prelude.{◌≡◌, ◌++◌, List, OnOk};
ghost use Rattle.mad_md.specs.declared.alignment.Alignment.TheVariants.{Left};
ghost use Rattle.std.specs.List.{AllByRecursion};
ghost use Rattle.mad_md.specs.Lines.{styled_runs};
ghost use Rattle.mad_format.specs.CompositeWraps.{IsCompositeWrap};
ghost use Rattle.mad_format.specs.FmtLines.{IsCompositeRead};
ghost use Rattle.mad_blocks.specs.LayoutParts.{is_code_kind, widest, block_width, width_within, code_room, table_width, wrap_width, IsBlockAt, IsLineAt};
ghost use Rattle.mad_format.specs.Wraps.{IsMeasured};
ghost use Rattle.mad_format.specs.declared.line.FmtLine.{FmtLine};
ghost use Rattle.mad_format.specs.declared.line.FmtLine.TheVariants.{Normal};

use mad_format::{
    FmtComposite, FmtLine, LineSkin, margins_and_rest, push_composite, push_read, put_line,
};
use mad_md::{Alignment, Composite};
use mad_measure::Spacing;
use mad_style::{CompositeKind, LEAST_WIDTH};
use std::alloc::{AllocError, Global};

/// Puts what becomes of a block of code after the lines that are there: each line gets the block's place, and is wrapped at a width in
/// columns, if there is one. Only out of memory is an error.
pub(crate) fn push_block<'s, S: LineSkin>(
    alloc: Global,
    lines: &mut Vec<FmtLine<'s>>,
    block: Vec<FmtComposite<'s>>,
    width: Option<usize>,
    skin: &S,
) -> Result<(), AllocError>
    requires { AllByRecursion (IsMeasured (S.rules skin.now)) block.items }
    ensures { OnOk result ((own : List FmtLine) × (lines.new.items ≡ lines.old.items ++ own) × IsBlockAt (S.rules skin.now) width block.entry.items own) }
{
    let wrap = wrap_width(width);
    let columns = block_width(&block, room_of_code(wrap, skin));
    for composite in block {
        let placed = composite.in_place(code_place(columns));
        push_at(alloc, lines, placed, wrap, skin)?;
    }
    Ok(())
}

/// The width of tables, in columns: without a width they are as wide as can be.
pub(crate) fn table_width(width: Option<usize>) -> usize
    ensures { result ≡ table_width width }
{
    width.unwrap_or(usize::MAX)
}

/// The width, in columns, that lines are wrapped at: none where it is under three.
pub fn wrap_width(width: Option<usize>) -> Option<usize>
    ensures { result ≡ wrap_width width }
{
    match width {
        Some(width) if width >= LEAST_WIDTH => Some(width),
        _ => None,
    }
}

/// Whether a composite of this kind is code.
pub(crate) fn is_code_kind(kind: CompositeKind) -> bool
    ensures { result ≡ is_code_kind kind }
{
    matches!(kind, CompositeKind::Code)
}

// What the margins of code leave of a width.
fn room_of_code<S: LineSkin>(width: Option<usize>, skin: &S) -> Option<usize>
    ensures { result ≡ code_room (S.rules skin.now) width }
{
    let (_, inner) = margins_and_rest(skin, CompositeKind::Code, width?);
    Some(inner)
}

// The columns of a block of code.
fn block_width(block: &[FmtComposite], room: Option<usize>) -> usize
    ensures { result ≡ block_width room block.now }
{
    width_within(widest(block), room)
}

/// A width, at most the room, if there is a limit.
pub(crate) fn width_within(width: usize, room: Option<usize>) -> usize
    ensures { result ≡ width_within room width }
{
    match room {
        Some(room) => width.min(room),
        None => width,
    }
}

fn widest(block: &[FmtComposite]) -> usize
    ensures { result ≡ widest block.now }
{
    let mut widest = 0;
    for composite in block {
        widest = composite.visible_length.max(widest);
    }
    widest
}

/// The place of a line of code whose block is `width` columns wide.
pub(crate) fn code_place(width: usize) -> Spacing
    ensures { result ≡ record { width = width; align = Left } }
{
    Spacing {
        width,
        align: Alignment::Left,
    }
}

// Puts what becomes of a composite at a width after the lines that are there.
fn push_at<'s, S: LineSkin>(
    alloc: Global,
    lines: &mut Vec<FmtLine<'s>>,
    composite: FmtComposite<'s>,
    width: Option<usize>,
    skin: &S,
) -> Result<(), AllocError>
    requires { IsMeasured (S.rules skin.now) composite }
    ensures { OnOk result ((own : List FmtLine) × (lines.new.items ≡ lines.old.items ++ own) × IsLineAt IsCompositeWrap (S.rules skin.now) width (Normal composite.entry) own) }
{
    match width {
        Some(width) => push_composite(alloc, lines, composite, width, skin),
        None => put_line(lines, FmtLine::Normal(composite)),
    }
}

/// Puts what becomes of a composite that was read after the lines that are there: it is wrapped at a width in columns, if there is one.
/// Only out of memory is an error.
pub fn push_read_at<'s, S: LineSkin>(
    alloc: Global,
    lines: &mut Vec<FmtLine<'s>>,
    composite: Composite<'s>,
    width: Option<usize>,
    skin: &S,
) -> Result<(), AllocError>
    ensures { OnOk result ((source : FmtComposite) × IsCompositeRead (S.rules skin.now) (styled_runs composite.entry) source
        × (own : List FmtLine) × (lines.new.items ≡ lines.old.items ++ own)
        × IsLineAt IsCompositeWrap (S.rules skin.now) width (Normal source) own) }
{
    match width {
        Some(width) => push_read(alloc, lines, composite, width, skin),
        None => put_line(lines, FmtLine::Normal(FmtComposite::from(composite, skin))),
    }
}
