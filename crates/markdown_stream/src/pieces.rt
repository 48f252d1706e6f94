//! A text that is given in pieces.

ghost use Rattle.std.specs.Prelude.{[]};
ghost use Rattle.std.specs.List.{flat_map};
ghost use Rattle.markdown_stream.specs.Streams.{Finishes};

use crate::stream::MarkdownStream;
use mad_page_skin::PageSkin;
use mad_term::{Error, Out};
use std::alloc::Global;

/// Writes a text of Markdown as people write it that is given in pieces, as [`MarkdownStream`] does: the cuts don't matter. Nothing is
/// flushed.
///
/// # Errors
///
/// A fault of the device, or out of memory. What went out by then is a beginning of the rows.
pub fn write_markdown_pieces_on<O: Out>(
    alloc: Global,
    out: &mut O,
    skin: &PageSkin,
    width: Option<usize>,
    pieces: &[&str],
) -> Result<(), Error>
    ensures { Finishes skin.now width (flat_map (λ piece. piece.now) pieces.now) [] (O.seen out.old) result (O.seen out.new) }
{
    let mut stream = MarkdownStream::new(alloc, skin, width);
    for piece in pieces {
        stream.feed(alloc, out, piece)?;
    }
    stream.finish(alloc, out)
}
