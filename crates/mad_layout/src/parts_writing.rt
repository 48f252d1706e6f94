//! Writing a text part by part: each part is laid out, written and dropped.

ghost use Rattle.std.specs.Prelude.{◌≡◌, ◌≤◌, ◌++◌, [], List, length, IfOk, IfSome, OnOk, string_bytes};
ghost use Rattle.mad_md.specs.Lines.{styled_runs};
ghost use Rattle.mad_md.specs.Reading.{resumed_text};
ghost use Rattle.mad_md.specs.Scan.{lines_of};
ghost use Rattle.mad_blocks.specs.PartCursors.{lines_left};
ghost use Rattle.mad_layout.specs.UnmarkedRows.{IsUnmarkedWidth, HandsOnUnmarked};
ghost use Rattle.mad_blocks.specs.Layouts.{IsLayoutAt};
ghost use Rattle.mad_blocks.specs.TableCursors.{TableBecomes};
ghost use Rattle.mad_format.specs.declared.line.FmtLine.{FmtLine};
ghost use Rattle.mad_rows.specs.RowStyles.{line_rules};
ghost use Rattle.mad_rows.specs.Rows.{text_bytes};
ghost use Rattle.mad_layout.specs.WrittenParts.{HandsOn, TakesPart, TakesRead, TakesReadOrNone, WritesParts, WritesPartsOf};
ghost use Rattle.mad_layout.specs.RowSkins.{row_skin};

use crate::skin::MadSkin;
use mad_blocks::{PartCursor, TableCursor, push_read_at, wrap_width};
use mad_format::FmtLine;
use mad_md::Composite;
use mad_read_rows::{append_read, is_aligned_left};
use mad_rows::{RowSkin, StyleCommands, append_line, append_lines};
use mad_term::{Error, Out, put_all};
use std::alloc::{AllocError, Global};

// Rows are kept until they have these many bytes.
const ROWS_TO_SEND: usize = 16384;

impl MadSkin {
    /// Writes a Markdown text, laid out at a width, in columns, if there is one, part by part: each line and a newline. Nothing is flushed.
    ///
    /// A part is a table, a block of code, or any other line. The bytes are those of [`MadSkin::write_text_on`]. It takes memory for the
    /// lines of the largest part, and for some rows.
    ///
    /// # Errors
    ///
    /// A fault of the device, or out of memory. What went out by then is a beginning of the rows of the text's first parts.
    pub fn write_parts_on<O: Out>(
        &self,
        alloc: Global,
        out: &mut O,
        markdown: &str,
        width: Option<usize>,
    ) -> Result<(), Error>
        ensures writes { WritesParts (row_skin self.now) width markdown.now (O.seen out.old) result (O.seen out.new) }
    {
        let skin = self.row_skin();
        write_parts(alloc, out, &mut PartCursor::new(markdown), width, &skin)
    }
}

/// Writes what is left of a Markdown text, where a fence is open before it or not, as [`MadSkin::write_parts_on`] writes a text.
///
/// # Errors
///
/// A fault of the device, or out of memory. What went out by then is a beginning of the rows of the text's first parts.
pub fn write_rest_on<O: Out>(
    alloc: Global,
    out: &mut O,
    rest: &str,
    fenced: bool,
    width: Option<usize>,
    skin: &RowSkin,
) -> Result<(), Error>
    ensures { WritesPartsOf skin.now width (lines_of (resumed_text fenced rest.now)) (O.seen out.old) result (O.seen out.new) }
{
    write_parts(
        alloc,
        out,
        &mut PartCursor::resumed(rest, fenced),
        width,
        skin,
    )
}

// Writes the parts of a text that are left.
fn write_parts<O: Out>(
    alloc: Global,
    out: &mut O,
    parts: &mut PartCursor,
    width: Option<usize>,
    skin: &RowSkin,
) -> Result<(), Error>
    ensures { WritesPartsOf skin.now width (lines_left parts.old) (O.seen out.old) result (O.seen out.new) }
{
    let mut rows = String::new(alloc);
    let mut commands = StyleCommands::new(alloc);
    let mut lines = Vec::new(alloc);
    while take_next(
        alloc,
        &mut rows,
        &mut lines,
        parts,
        width,
        skin,
        &mut commands,
    )? {
        hand_on_unmarked(
            out,
            &mut rows,
            &mut lines,
            parts,
            width,
            skin,
            &mut commands,
        )?;
    }
    put_all(out, rows.as_bytes())?;
    Ok(())
}

/// Puts the rows of the parts of a text that are left after the rows that are there.
pub fn append_parts(
    alloc: Global,
    rows: &mut String,
    parts: &mut PartCursor,
    width: Option<usize>,
    skin: &RowSkin,
) -> Result<(), AllocError>
    ensures { OnOk result ((lines : List FmtLine) × IsLayoutAt (line_rules skin.now) width (lines_left parts.old) lines × (string_bytes rows.new ≡ string_bytes rows.old ++ text_bytes skin.now width lines)) }
{
    let mut commands = StyleCommands::new(alloc);
    let mut lines = Vec::new(alloc);
    while take_next(alloc, rows, &mut lines, parts, width, skin, &mut commands)? {
        append_lines(rows, lines.as_slice(), width, skin, &mut commands)?;
        lines.clear();
    }
    Ok(())
}

// Takes the next part: its rows are put after those that are kept, or it is laid out in lines. Says whether there was one.
fn take_next<'s>(
    alloc: Global,
    rows: &mut String,
    lines: &mut Vec<FmtLine<'s>>,
    parts: &mut PartCursor<'s>,
    width: Option<usize>,
    skin: &RowSkin,
    commands: &mut StyleCommands,
) -> Result<bool, AllocError>
    requires { lines.old.items ≡ [] }
    ensures { IfOk result (λ found. TakesPart skin.now width (lines_left parts.old) (string_bytes rows.old) found (lines_left parts.new) (string_bytes rows.new) lines.new.items) }
{
    match parts.next_text(alloc)? {
        Some(composite) => {
            take_read(alloc, rows, lines, composite, width, skin, commands)?;
            Ok(true)
        }
        None => take_laid(alloc, rows, lines, parts, width, skin, commands),
    }
}

// Takes the next part, which is no composite by itself: the rows of a table are put after those that are kept, line by line.
fn take_laid<'s>(
    alloc: Global,
    rows: &mut String,
    lines: &mut Vec<FmtLine<'s>>,
    parts: &mut PartCursor<'s>,
    width: Option<usize>,
    skin: &RowSkin,
    commands: &mut StyleCommands,
) -> Result<bool, AllocError>
    requires { lines.old.items ≡ [] }
    ensures { IfOk result (λ found. TakesPart skin.now width (lines_left parts.old) (string_bytes rows.old) found (lines_left parts.new) (string_bytes rows.new) lines.new.items) }
{
    match parts.next_table(alloc, width, skin)? {
        Some(table) => {
            append_table(alloc, rows, lines, table, width, skin, commands)?;
            Ok(true)
        }
        None => parts.lay_next(alloc, lines, width, skin),
    }
}

// Puts the rows of a table after those that are kept. No more of its lines are laid out at a time than one of the text becomes.
fn append_table<'s>(
    alloc: Global,
    rows: &mut String,
    lines: &mut Vec<FmtLine<'s>>,
    table: TableCursor<'s>,
    width: Option<usize>,
    skin: &RowSkin,
    commands: &mut StyleCommands,
) -> Result<(), AllocError>
    requires { lines.old.items ≡ [] }
    ensures rows { OnOk result ((own : List FmtLine) × TableBecomes (line_rules skin.now) table.entry own × (string_bytes rows.new ≡ string_bytes rows.old ++ text_bytes skin.now width own)) }
    ensures none { OnOk result (lines.new.items ≡ []) }
{
    let mut table = table;
    while table.lay_next(alloc, lines, skin)? {
        append_lines(rows, lines.as_slice(), width, skin, commands)?;
        lines.clear();
    }
    Ok(())
}

// Puts the rows of a composite that was read after those that are kept, or what becomes of it after lines.
fn take_read<'s>(
    alloc: Global,
    rows: &mut String,
    lines: &mut Vec<FmtLine<'s>>,
    composite: Composite<'s>,
    width: Option<usize>,
    skin: &RowSkin,
    commands: &mut StyleCommands,
) -> Result<(), AllocError>
    requires { lines.old.items ≡ [] }
    ensures { OnOk result (TakesRead skin.now width (styled_runs composite.entry) (string_bytes rows.old) (string_bytes rows.new) lines.new.items) }
{
    if append_at(alloc, rows, &composite, width, skin, commands)? {
        return Ok(());
    }
    push_read_at(alloc, lines, composite, wrap_width(width), skin)
}

// Puts the rows of a composite that was read after those that are kept, where it is known how.
fn append_at(
    alloc: Global,
    rows: &mut String,
    composite: &Composite,
    width: Option<usize>,
    skin: &RowSkin,
    commands: &mut StyleCommands,
) -> Result<bool, AllocError>
    ensures { IfOk result (λ done. TakesReadOrNone skin.now width (styled_runs composite.now) (string_bytes rows.old) done (string_bytes rows.new)) }
{
    match wrap_width(width) {
        Some(columns) => append_read(alloc, rows, composite, columns, skin, commands),
        None => Ok(false),
    }
}

// Writes lines as [`send_lines`] does, and drops them.
fn hand_on<O: Out>(
    out: &mut O,
    rows: &mut String,
    lines: &mut Vec<FmtLine>,
    width: Option<usize>,
    skin: &RowSkin,
    commands: &mut StyleCommands,
) -> Result<(), Error>
    ensures dropped { OnOk result (lines.new.items ≡ []) }
    ensures handed { HandsOn (O.seen out.old) (string_bytes rows.old ++ text_bytes skin.now width lines.old.items) result (O.seen out.new) (string_bytes rows.new) }
{
    send_lines(out, rows, lines.as_slice(), width, skin, commands)?;
    lines.clear();
    Ok(())
}

// Writes lines after the rows that are kept; the rows go out once there are enough of them.
fn send_lines<O: Out>(
    out: &mut O,
    rows: &mut String,
    lines: &[FmtLine],
    width: Option<usize>,
    skin: &RowSkin,
    commands: &mut StyleCommands,
) -> Result<(), Error>
    ensures { HandsOn (O.seen out.old) (string_bytes rows.old ++ text_bytes skin.now width lines.now) result (O.seen out.new) (string_bytes rows.new) }
{
    for line in lines {
        append_line(rows, line, width, skin, commands)?;
        send(out, rows)?;
    }
    Ok(())
}

// The rows that are kept go out once there are enough of them.
fn send<O: Out>(out: &mut O, rows: &mut String) -> Result<(), Error>
    ensures { HandsOn (O.seen out.old) (string_bytes rows.old) result (O.seen out.new) (string_bytes rows.new) }
{
    if rows.len() >= ROWS_TO_SEND {
        put_all(out, rows.as_bytes())?;
        rows.clear();
    }
    Ok(())
}

// Hands lines on, and after them the unmarked lines that follow in the text, which go to the rows as they are.
fn hand_on_unmarked<O: Out>(
    out: &mut O,
    rows: &mut String,
    lines: &mut Vec<FmtLine>,
    parts: &mut PartCursor,
    width: Option<usize>,
    skin: &RowSkin,
    commands: &mut StyleCommands,
) -> Result<(), Error>
    ensures dropped { OnOk result (lines.new.items ≡ []) }
    ensures shorter { OnOk result (length (lines_left parts.new) ≤ length (lines_left parts.old)) }
    ensures handed { let bytes = string_bytes rows.old ++ text_bytes skin.now width lines.old.items in
        HandsOnUnmarked skin.now width (lines_left parts.old) bytes (O.seen out.old) result (O.seen out.new) (string_bytes rows.new) (lines_left parts.new) }
{
    hand_on(out, rows, lines, width, skin, commands)?;
    let Some(most) = unmarked_width(width, skin) else {
        return Ok(());
    };
    while let Some(text) = parts.next_unmarked(most) {
        rows.push_str(text)?;
        rows.push_str("\n")?;
        send(out, rows)?;
    }
    Ok(())
}

// The columns that an unmarked line may have to be a row as it is; none where paragraphs have a style or margins, or aren't aligned left.
fn unmarked_width(width: Option<usize>, skin: &RowSkin) -> Option<usize>
    ensures { IfSome result (IsUnmarkedWidth skin.now width) }
{
    let width = wrap_width(width)?;
    let style = &skin.paragraph;
    let (left, right) = style.margins_in(Some(width));
    if left > 0 || right > 0 || !style.compound_style.object_style.is_unstyled() {
        return None;
    }
    if is_aligned_left(style.align) {
        Some(width)
    } else {
        None
    }
}
