//! A text that is given in pieces.

ghost use Rattle.std.specs.Prelude.{OnOk, map};
ghost use Rattle.markdown_live.specs.LiveMarkdowns.{ShowsPieces};

use crate::live_markdown::LiveMarkdown;
use mad_page_skin::PageSkin;
use mad_term::{Error, Out};
use std::alloc::Global;

/// Shows a text of Markdown as people write it that is given in pieces, as [`LiveMarkdown`] does, one after another. Nothing is flushed.
///
/// # Errors
///
/// A fault of the device, or out of memory.
pub fn show_markdown_pieces_on<O: Out>(
    alloc: Global,
    out: &mut O,
    skin: &PageSkin,
    width: Option<usize>,
    height: usize,
    pieces: &[&str],
) -> Result<(), Error>
    ensures { OnOk result (ShowsPieces skin.now width height (map (λ piece. piece.now) pieces.now) (O.seen out.old) (O.seen out.new)) }
{
    let mut live = LiveMarkdown::new(alloc, skin, width, height)?;
    for piece in pieces {
        live.feed(alloc, out, piece)?;
    }
    live.finish(alloc, out)
}
