//! A text that a source gives, written as it comes.

ghost use Rattle.std.specs.Prelude.{MatchResult};
ghost use Rattle.markdown_stream.specs.Sources.{StreamsMarkdown};
ghost use Rattle.markdown_stream.specs.SourceSteps.{FeedsBlock, StopsInBlock, EndsSource};

use crate::stream::MarkdownStream;
use mad_page_skin::PageSkin;
use mad_stream::{BLOCK, SourceError, cut_text, flush, keep_from, refusal_of};
use mad_term::{Out, Source};
use std::alloc::Global;

/// Reads a source to its end, and writes its text of Markdown as people write it as it comes, as [`MarkdownStream`] does.
///
/// It reads blocks of at most 16 KiB, as much of each as the source gives at once. After each block all rows of complete parts are written
/// and flushed; at the end come the rows of what is left, and a flush. A source is taken to end after 2^64 - 1 blocks.
///
/// # Errors
///
/// The first fault of the source or of the device, or out of memory: a beginning of the rows went out. Where the source failed, these are all
/// rows of complete parts. Or bytes that aren't UTF-8: all rows of the text before them went out, and were flushed.
pub fn write_markdown_source_on<I: Source, O: Out>(
    alloc: Global,
    input: &mut I,
    out: &mut O,
    skin: &PageSkin,
    width: Option<usize>,
) -> Result<(), SourceError>
    ensures streams { StreamsMarkdown skin.now width (I.seen input.old) (O.seen out.old) result (I.seen input.new) (O.seen out.new) }
{
    let mut stream = MarkdownStream::new(alloc, skin, width);
    let mut block = [0; BLOCK];
    let mut waiting = 0;
    for _block in 0..u64::MAX {
        let count = match input.fill(&mut block[waiting..]) {
            Ok(count) => count,
            Err(error) => return Err(SourceError::Source(error)),
        };
        if count == 0 {
            return end_source(alloc, stream, out, waiting == 0);
        }
        let all = waiting + count;
        let (used, is_wrong) = feed_block(alloc, &mut stream, out, &block[..all])?;
        if is_wrong {
            return end_source(alloc, stream, out, false);
        }
        keep_from(&mut block, used, all);
        waiting = all - used;
    }
    end_source(alloc, stream, out, waiting == 0)
}

// Feeds the text at the front of a block, and flushes. Answers how many bytes it has, and whether no text begins with the block.
fn feed_block<O: Out>(
    alloc: Global,
    stream: &mut MarkdownStream,
    out: &mut O,
    block: &[u8],
) -> Result<(usize, bool), SourceError>
    ensures { MatchResult result (λ cut. FeedsBlock stream.old block.now cut.0 cut.1 stream.new (O.seen out.old) (O.seen out.new))
        (λ e. StopsInBlock stream.old block.now (O.seen out.old) e (O.seen out.new)) }
{
    let (text, is_wrong) = cut_text(block);
    match stream.feed(alloc, out, text) {
        Ok(()) => {}
        Err(error) => return Err(refusal_of(error)),
    }
    flush(out)?;
    Ok((text.len(), is_wrong))
}

// The text is at its end: writes the rows of what is left, and flushes. Where it isn't all that was read, that is refused then.
fn end_source<O: Out>(
    alloc: Global,
    stream: MarkdownStream,
    out: &mut O,
    is_whole: bool,
) -> Result<(), SourceError>
    ensures { EndsSource stream is_whole (O.seen out.old) result (O.seen out.new) }
{
    match stream.finish(alloc, out) {
        Ok(()) => {}
        Err(error) => return Err(refusal_of(error)),
    }
    flush(out)?;
    if is_whole {
        Ok(())
    } else {
        Err(SourceError::NotUtf8)
    }
}
