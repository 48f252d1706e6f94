//! A text that a source gives, written as it comes.

ghost use Rattle.std.specs.Prelude.{◌≡◌, ◌≤◌, ◌-◌, length, take, drop, MatchResult};
ghost use Rattle.mad_layout.specs.RowSkins.{row_skin};
ghost use Rattle.mad_stream.specs.Sources.{StreamsSource};
ghost use Rattle.mad_stream.specs.SourceErrors.{refusal_of};
ghost use Rattle.mad_stream.specs.SourceSteps.{FeedsBlock, StopsInBlock, EndsText, FlushesOut};

use crate::source_error::SourceError;
use crate::text_bytes::cut_text;
use crate::text_stream::TextStream;
use mad_layout::MadSkin;
use mad_term::{Error, Out, Source};
use std::alloc::Global;

/// How many bytes a block has: those that wait, and those that one fill is asked for.
pub const BLOCK: usize = 1 << 14;

/// Reads a source to its end, and writes its Markdown text as it comes, in a skin and at a width, in columns, if there is one.
///
/// It reads blocks of at most 16 KiB, as much of each as the source gives at once. After each block all rows of complete parts are written
/// and flushed; at the end come the rows of what is left, and a flush. In all they are what [`MadSkin::write_parts_on`] writes of the text.
/// It takes memory for the largest part. A source is taken to end after 2^64 - 1 blocks.
///
/// # Errors
///
/// The first fault of the source or of the device, or out of memory: a beginning of the rows of the text's first parts went out. Where the
/// source failed, these are all rows of complete parts. Or bytes that aren't UTF-8: all rows of the text before them went out, and were flushed.
pub fn write_source_on<I: Source, O: Out>(
    alloc: Global,
    input: &mut I,
    out: &mut O,
    skin: &MadSkin,
    width: Option<usize>,
) -> Result<(), SourceError>
    ensures streams { StreamsSource (row_skin skin.now) width (I.seen input.old) (O.seen out.old) result (I.seen input.new) (O.seen out.new) }
{
    let mut stream = TextStream::new(alloc, skin, width);
    let mut block = [0; BLOCK];
    let mut waiting = 0;
    for _block in 0..u64::MAX {
        let count = match input.fill(&mut block[waiting..]) {
            Ok(count) => count,
            Err(error) => return Err(SourceError::Source(error)),
        };
        if count == 0 {
            return end_text(alloc, stream, out, waiting == 0);
        }
        let all = waiting + count;
        let (used, is_wrong) = feed_block(alloc, &mut stream, out, &block[..all])?;
        if is_wrong {
            return end_text(alloc, stream, out, false);
        }
        keep_from(&mut block, used, all);
        waiting = all - used;
    }
    end_text(alloc, stream, out, waiting == 0)
}

// Feeds the text at the front of a block, and flushes. Answers how many bytes it has, and whether no text begins with the block.
fn feed_block<O: Out>(
    alloc: Global,
    stream: &mut TextStream,
    out: &mut O,
    block: &[u8],
) -> Result<(usize, bool), SourceError>
    ensures { MatchResult result (λ cut. FeedsBlock stream.old block.now cut.0 cut.1 stream.new (O.seen out.old) (O.seen out.new))
        (λ e. StopsInBlock stream.old block.now stream.new (O.seen out.old) e (O.seen out.new)) }
{
    let (text, is_wrong) = cut_text(block);
    let (_, fed) = stream.feed(alloc, out, text);
    match fed {
        Ok(()) => {}
        Err(error) => return Err(refusal_of(error)),
    }
    flush(out)?;
    Ok((text.len(), is_wrong))
}

// The text is at its end: writes the rows of what is left, and flushes. Where it isn't all that was read, that is refused then.
fn end_text<O: Out>(
    alloc: Global,
    stream: TextStream,
    out: &mut O,
    is_whole: bool,
) -> Result<(), SourceError>
    ensures { EndsText stream is_whole (O.seen out.old) result (O.seen out.new) }
{
    match stream.finish(alloc, out) {
        Ok(()) => {}
        Err(error) => return Err(refusal_of(error)),
    }
    flush(out)?;
    if is_whole {
        Ok(())
    } else {
        Err(SourceError::NotUtf8)
    }
}

/// The bytes of a block from the first place to the second go to its front.
pub fn keep_from(block: &mut [u8], from: usize, to: usize)
    requires order { from ≤ to }
    requires inside { to ≤ length block.old }
    ensures kept { take (to - from) block.new ≡ drop from (take to block.old) }
    ensures size { length block.new ≡ length block.old }
{
    block.copy_within(from..to, 0);
}

/// Has the device hand on what it keeps back.
pub fn flush<O: Out>(out: &mut O) -> Result<(), SourceError>
    ensures { FlushesOut (O.seen out.old) result (O.seen out.new) }
{
    match out.flush() {
        Ok(()) => Ok(()),
        Err(error) => Err(SourceError::Device(error)),
    }
}

/// What a refused writing of rows is told as. Rows are never refused for their width.
pub fn refusal_of(error: Error) -> SourceError
    ensures { result ≡ refusal_of error }
{
    match error {
        Error::IO(error) => SourceError::Device(error),
        Error::InsufficientWidth(_) | Error::Memory => SourceError::Memory,
    }
}
