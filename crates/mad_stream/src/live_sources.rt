//! A text that a source gives, shown as it comes on a terminal that scrolls.

ghost use Rattle.std.specs.Prelude.{◌≡◌, ◌≢◌, [], encode_utf8_all, MatchResult};
ghost use Rattle.mad_layout.specs.RowSkins.{row_skin};
ghost use Rattle.mad_stream.specs.LiveSources.{ShowsSource};
ghost use Rattle.mad_stream.specs.SteadyPieces.{end_piece};
ghost use Rattle.mad_stream.specs.declared.source_error.SourceError.TheVariants.{NotUtf8};
ghost use Rattle.mad_stream.specs.LiveSteps.{ShowsPiece, ShowsBlock, StopsAt, StopsInBlock, EndsWith};

use crate::live_text::LiveText;
use crate::source_error::SourceError;
use crate::sources::{BLOCK, flush, keep_from, refusal_of};
use crate::steadied::{Spot, end_piece, steady_piece};
use crate::text_bytes::cut_text;
use mad_layout::MadSkin;
use mad_term::{Out, Source};
use std::alloc::Global;

/// Reads a source to its end, and shows its Markdown text as it comes, in a skin, at a width, in columns, if there is one, and on a screen
/// that has `height` rows.
///
/// The text is made printable first, as [`printable`](mad_measure::printable) does, and then [`steady`](mad_steady::steady). It reads blocks of at most
/// 16 KiB, as much of each as the source gives at once. After each block the rows of the text so far are shown, as [`LiveText`] does, and flushed. At
/// the end come all rows, and a flush. A source is taken to end after 2^64 - 1 blocks.
///
/// # Errors
///
/// The first fault of the source, or bytes that aren't UTF-8: all rows of the text before them were shown first, and were flushed. Or the first
/// fault of the device, or out of memory: the text so far was shown, and then a front of what shows more of it.
pub fn show_source_on<I: Source, O: Out>(
    alloc: Global,
    input: &mut I,
    out: &mut O,
    skin: &MadSkin,
    width: Option<usize>,
    height: usize,
) -> Result<(), SourceError>
    ensures shows { ShowsSource (row_skin skin.now) width height (I.seen input.old) (O.seen out.old) result (I.seen input.new) (O.seen out.new) }
{
    let mut live = LiveText::new(alloc, skin, width, height);
    let mut spot = Spot::start();
    let mut block = [0; BLOCK];
    let mut waiting = 0;
    for _block in 0..u64::MAX {
        let count = match input.fill(&mut block[waiting..]) {
            Ok(count) => count,
            Err(error) => {
                let ended = Err(SourceError::Source(error));
                return end_live(alloc, live, spot, out, ended);
            }
        };
        if count == 0 {
            return end_live(alloc, live, spot, out, whole_text(waiting));
        }
        let all = waiting + count;
        let shown = show_block(alloc, &mut live, spot, out, &block[..all])?;
        spot = shown.spot;
        if shown.is_wrong {
            return end_live(alloc, live, spot, out, Err(SourceError::NotUtf8));
        }
        keep_from(&mut block, shown.used, all);
        waiting = all - shown.used;
    }
    end_live(alloc, live, spot, out, whole_text(waiting))
}

// Whether the text is whole, where so many bytes at its end are none.
fn whole_text(waiting: usize) -> Result<(), SourceError>
    ensures { MatchResult result (λ _. waiting ≡ 0) (λ e. (e ≡ NotUtf8) × (waiting ≢ 0)) }
{
    if waiting == 0 {
        Ok(())
    } else {
        Err(SourceError::NotUtf8)
    }
}

// What was shown of a block: so many bytes; whether no text begins with the block; where the next one comes.
#[derive(Clone, Copy)]
struct Shown {
    used: usize,
    is_wrong: bool,
    spot: Spot,
}

// Shows the text at the front of a block, and flushes.
fn show_block<O: Out>(
    alloc: Global,
    live: &mut LiveText,
    spot: Spot,
    out: &mut O,
    block: &[u8],
) -> Result<Shown, SourceError>
    ensures { MatchResult result (λ shown. ShowsBlock live.old spot block.now shown live.new (O.seen out.old) (O.seen out.new))
        (λ e. StopsInBlock block.now (O.seen out.old) e (O.seen out.new)) }
{
    let (text, is_wrong) = cut_text(block);
    let Ok((piece, next)) = steady_piece(alloc, spot, text) else {
        return Err(SourceError::Memory);
    };
    show_piece(alloc, live, out, piece.as_str())?;
    flush(out)?;
    Ok(Shown {
        used: text.len(),
        is_wrong,
        spot: next,
    })
}

// Shows a piece of what is shown of a text.
fn show_piece<O: Out>(
    alloc: Global,
    live: &mut LiveText,
    out: &mut O,
    piece: &str,
) -> Result<(), SourceError>
    ensures { MatchResult result (λ _. ShowsPiece live.old piece.now live.new (O.seen out.old) (O.seen out.new)) (λ e. StopsAt (O.seen out.old) e (O.seen out.new)) }
{
    let (_, fed) = live.feed(alloc, out, piece);
    match fed {
        Ok(()) => Ok(()),
        Err(error) => Err(refusal_of(error)),
    }
}

// The text is at its end: shows what is left to be shown of it, then all rows, and flushes.
fn end_live<O: Out>(
    alloc: Global,
    live: LiveText,
    spot: Spot,
    out: &mut O,
    ended: Result<(), SourceError>,
) -> Result<(), SourceError>
    ensures { EndsWith live (encode_utf8_all (end_piece spot)) ended (O.seen out.old) result (O.seen out.new) }
{
    let Ok(last) = end_piece(alloc, spot) else {
        return Err(SourceError::Memory);
    };
    let piece = last.as_str();
    if piece.is_empty() {
        return finish_live(alloc, live, out, ended);
    }
    let mut live = live;
    show_piece(alloc, &mut live, out, piece)?;
    finish_live(alloc, live, out, ended)
}

// Shows all rows of what was fed, and flushes.
fn finish_live<O: Out>(
    alloc: Global,
    live: LiveText,
    out: &mut O,
    ended: Result<(), SourceError>,
) -> Result<(), SourceError>
    ensures { EndsWith live [] ended (O.seen out.old) result (O.seen out.new) }
{
    match live.finish(alloc, out) {
        Ok(()) => {}
        Err(error) => return Err(refusal_of(error)),
    }
    flush(out)?;
    ended
}
