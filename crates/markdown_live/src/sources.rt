//! A text that a source gives, shown as it comes on a terminal that scrolls.

ghost use Rattle.std.specs.Prelude.{◌≡◌, ◌≢◌, MatchResult};
ghost use Rattle.mad_stream.specs.declared.source_error.SourceError.TheVariants.{NotUtf8};
ghost use Rattle.mad_stream.specs.LiveSteps.{StopsAt, StopsInBlock};
ghost use Rattle.markdown_live.specs.Sources.{ShowsSource};
ghost use Rattle.markdown_live.specs.SourceSteps.{ShowsPiece, ShowsBlock, EndsWith};

use crate::live_markdown::LiveMarkdown;
use mad_page_skin::PageSkin;
use mad_stream::{BLOCK, SourceError, cut_text, flush, keep_from, refusal_of};
use mad_term::{Out, Source};
use std::alloc::Global;

/// Reads a source to its end, and shows its text of Markdown as people write it as it comes, in a skin, at a width, in columns, if there is one,
/// and on a screen that has `height` rows.
///
/// It reads blocks of at most 16 KiB, as much of each as the source gives at once. After each block the rows of the text so far are shown, as
/// [`LiveMarkdown`] does, and flushed. At the end come all rows, and a flush. A source is taken to end after 2^64 - 1 blocks.
///
/// # Errors
///
/// The first fault of the source, or bytes that aren't UTF-8: all rows of the text before them were shown first, and were flushed. Or the first
/// fault of the device, or out of memory: the text so far was shown, and then a front of what shows more of it.
pub fn show_markdown_source_on<I: Source, O: Out>(
    alloc: Global,
    input: &mut I,
    out: &mut O,
    skin: &PageSkin,
    width: Option<usize>,
    height: usize,
) -> Result<(), SourceError>
    ensures shows { ShowsSource skin.now width height (I.seen input.old) (O.seen out.old) result (I.seen input.new) (O.seen out.new) }
{
    let Ok(mut live) = LiveMarkdown::new(alloc, skin, width, height) else {
        return Err(SourceError::Memory);
    };
    let mut block = [0; BLOCK];
    let mut waiting = 0;
    for _block in 0..u64::MAX {
        let count = match input.fill(&mut block[waiting..]) {
            Ok(count) => count,
            Err(error) => return end_live(alloc, live, out, Err(SourceError::Source(error))),
        };
        if count == 0 {
            return end_live(alloc, live, out, whole_text(waiting));
        }
        let all = waiting + count;
        let (used, is_wrong) = show_block(alloc, &mut live, out, &block[..all])?;
        if is_wrong {
            return end_live(alloc, live, out, Err(SourceError::NotUtf8));
        }
        keep_from(&mut block, used, all);
        waiting = all - used;
    }
    end_live(alloc, live, out, whole_text(waiting))
}

// Whether the text is whole, where so many bytes at its end are none.
fn whole_text(waiting: usize) -> Result<(), SourceError>
    ensures { MatchResult result (λ _. waiting ≡ 0) (λ e. (e ≡ NotUtf8) × (waiting ≢ 0)) }
{
    if waiting == 0 {
        Ok(())
    } else {
        Err(SourceError::NotUtf8)
    }
}

// Shows the text at the front of a block, and flushes. Answers how many bytes it has, and whether no text begins with the block.
fn show_block<O: Out>(
    alloc: Global,
    live: &mut LiveMarkdown,
    out: &mut O,
    block: &[u8],
) -> Result<(usize, bool), SourceError>
    ensures { MatchResult result (λ cut. ShowsBlock live.old block.now cut.0 cut.1 live.new (O.seen out.old) (O.seen out.new))
        (λ e. StopsInBlock block.now (O.seen out.old) e (O.seen out.new)) }
{
    let (text, is_wrong) = cut_text(block);
    show_piece(alloc, live, out, text)?;
    flush(out)?;
    Ok((text.len(), is_wrong))
}

// Shows a piece.
fn show_piece<O: Out>(
    alloc: Global,
    live: &mut LiveMarkdown,
    out: &mut O,
    piece: &str,
) -> Result<(), SourceError>
    ensures { MatchResult result (λ _. ShowsPiece live.old piece.now live.new (O.seen out.old) (O.seen out.new)) (λ e. StopsAt (O.seen out.old) e (O.seen out.new)) }
{
    match live.feed(alloc, out, piece) {
        Ok(()) => Ok(()),
        Err(error) => Err(refusal_of(error)),
    }
}

// The text is at its end: shows all rows, and flushes.
fn end_live<O: Out>(
    alloc: Global,
    live: LiveMarkdown,
    out: &mut O,
    ended: Result<(), SourceError>,
) -> Result<(), SourceError>
    ensures { EndsWith live ended (O.seen out.old) result (O.seen out.new) }
{
    match live.finish(alloc, out) {
        Ok(()) => {}
        Err(error) => return Err(refusal_of(error)),
    }
    flush(out)?;
    ended
}
