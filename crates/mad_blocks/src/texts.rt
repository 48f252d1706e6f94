//! The lines of whole texts, laid out.

ghost use Rattle.std.specs.Prelude.{false, IfOk, List};
ghost use Rattle.mad_md.specs.Lines.{LineContent, contents};
ghost use Rattle.mad_md.specs.Reading.{IsRead, unread_text};
ghost use Rattle.mad_blocks.specs.Fronts.{IsFrontLayout};
ghost use Rattle.mad_blocks.specs.Layouts.{IsLayoutAt, IsMarkdownLayout};
ghost use Rattle.mad_blocks.specs.PartCursors.{lines_left};

use crate::part_cursor::PartCursor;
use mad_format::{FmtLine, LineSkin};
use mad_md::Text;
use std::alloc::{AllocError, Global};

/// The lines of a Markdown text, read and laid out one after another at a width in columns, if there is one.
///
/// A table is laid out at any width. Other lines are wrapped at one of three and more. Only out of memory is an error.
pub fn lay_source<'s, S: LineSkin>(
    alloc: Global,
    skin: &S,
    src: &'s str,
    width: Option<usize>,
) -> Result<Vec<FmtLine<'s>>, AllocError>
    ensures { IfOk result (λ lines. IsMarkdownLayout (S.rules skin.now) width src.entry.now lines.items) }
{
    lay_parts(alloc, skin, &mut PartCursor::new(src), width)
}

/// The first lines of a Markdown text, laid out so: enough to take at least this many rows, or all of them. None of its parts is cut.
/// Only out of memory is an error.
pub fn lay_front<'s, S: LineSkin>(
    alloc: Global,
    skin: &S,
    src: &'s str,
    width: Option<usize>,
    rows: usize,
) -> Result<Vec<FmtLine<'s>>, AllocError>
    ensures { IfOk result (λ lines. (text : List LineContent) × IsRead (unread_text false src.entry.now) text × IsFrontLayout (S.rules skin.now) width rows text lines.items) }
{
    lay_first_parts(alloc, skin, &mut PartCursor::new(src), width, rows)
}

// The lines of the first parts that are left, laid out: at least this many rows, or all of them.
fn lay_first_parts<'s, S: LineSkin>(
    alloc: Global,
    skin: &S,
    parts: &mut PartCursor<'s>,
    width: Option<usize>,
    rows: usize,
) -> Result<Vec<FmtLine<'s>>, AllocError>
    ensures { IfOk result (λ lines. IsFrontLayout (S.rules skin.now) width rows (lines_left parts.old) lines.items) }
{
    let mut lines = Vec::new(alloc);
    while lines.len() < rows && parts.lay_next(alloc, &mut lines, width, skin)? {}
    Ok(lines)
}

/// The lines of a text that was read, laid out so. Only out of memory is an error.
pub fn lay_text<'s, S: LineSkin>(
    alloc: Global,
    skin: &S,
    text: Text<'s>,
    width: Option<usize>,
) -> Result<Vec<FmtLine<'s>>, AllocError>
    ensures { IfOk result (λ lines. IsLayoutAt (S.rules skin.now) width (contents text.entry) lines.items) }
{
    lay_parts(alloc, skin, &mut PartCursor::of_text(text), width)
}

// The lines of all parts that are left, laid out.
fn lay_parts<'s, S: LineSkin>(
    alloc: Global,
    skin: &S,
    parts: &mut PartCursor<'s>,
    width: Option<usize>,
) -> Result<Vec<FmtLine<'s>>, AllocError>
    ensures { IfOk result (λ lines. IsLayoutAt (S.rules skin.now) width (lines_left parts.old) lines.items) }
{
    let mut lines = Vec::new(alloc);
    while parts.lay_next(alloc, &mut lines, width, skin)? {}
    Ok(lines)
}
