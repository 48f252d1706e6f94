//! Reading ahead of a text that comes in pieces: what it tells if it goes on so. A reader and a gatherer of their own do it.

ghost use Rattle.std.specs.Prelude.{◌≡◌, IfOk, OnOk, map};
ghost use Rattle.markdown_blocks.specs.Lines.{text_lines};
ghost use Rattle.markdown_leaves.specs.Parts.{part_of};
ghost use Rattle.markdown_stream.specs.OpenSections.{reading_of};
ghost use Rattle.markdown_stream.specs.Readings.{line_read, lines_read, parts_at_end};

use markdown_blocks::BlockReader;
use markdown_blocks::lines::cut_line;
use markdown_leaves::Part;
use markdown_leaves::gather::Gatherer;
use std::alloc::{AllocError, Global};

// Reads a line, which is without its end.
fn read_ahead<'s>(
    alloc: Global,
    reader: &mut BlockReader,
    gatherer: &mut Gatherer<'s>,
    line: &'s [u8],
) -> Result<(), AllocError>
    ensures { OnOk result (reading_of reader.new gatherer.new ≡ line_read (reading_of reader.old gatherer.old) line.entry.now) }
{
    let before = reader.containers().len();
    let read = reader.read_line(line)?;
    gatherer.read(alloc, before, reader.containers(), read)?;
    Ok(())
}

/// Reads the lines of a text.
pub(crate) fn read_all_ahead<'s>(
    alloc: Global,
    reader: &mut BlockReader,
    gatherer: &mut Gatherer<'s>,
    text: &'s [u8],
) -> Result<(), AllocError>
    ensures { OnOk result (reading_of reader.new gatherer.new ≡ lines_read (reading_of reader.old gatherer.old) (text_lines text.entry.now)) }
{
    let mut rest = text;
    while !rest.is_empty() {
        let (line, after) = cut_line(rest);
        read_ahead(alloc, reader, gatherer, line)?;
        rest = after;
    }
    Ok(())
}

/// All that is open ends there: the parts that were told.
pub(crate) fn ended_parts<'s>(
    alloc: Global,
    reader: &BlockReader,
    gatherer: Gatherer<'s>,
) -> Result<Vec<Part<'s>>, AllocError>
    ensures { IfOk result (λ parts. map part_of parts.items ≡ parts_at_end (reading_of reader.now gatherer.entry)) }
{
    let mut gatherer = gatherer;
    gatherer.leave_all(alloc, reader.containers().len())?;
    gatherer.close(alloc)?;
    Ok(gatherer.into_parts())
}
