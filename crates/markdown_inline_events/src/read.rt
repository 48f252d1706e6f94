//! Reading the events of a text.

ghost use Rattle.std.specs.Prelude.{◌≡◌, ◌+◌, ◌<◌, ◌≤◌, ◌^◌, ◌++◌, [], IfOk, OnOk, length, map};
ghost use Rattle.std.specs.List.{All};
ghost use Rattle.markdown_emphasis.specs.Pairs.{IsWithin};
ghost use Rattle.markdown_pieces.specs.Places.{AreCut};
ghost use Rattle.markdown_inline_events.specs.Contents.{event_of};
ghost use Rattle.markdown_inline_events.specs.Lists.{spans_at};
ghost use Rattle.markdown_inline_events.specs.Reading.{events_from, inline_events};
ghost use Rattle.markdown_inline_events.specs.Shares.{share_of, placed};
ghost use Rattle.markdown_inline_events.specs.Spans.{begun};

use crate::events::InlineEvent;
use crate::lists::begun_lists;
use crate::shares::{Share, push_ends, push_piece};
use crate::spans::{Span, spans_of};
use markdown_brackets::labels::Labels;
use markdown_inlines::left::left_of;
use markdown_inlines::links::{Over, overs_of};
use markdown_pieces::cut::cut_text;
use markdown_pieces::pieces::Piece;
use std::alloc::{AllocError, Global};

// Adds shares as events, from a place up to the end of their piece.
#[tactic(auto, unfolding(crate::specs::Shares::placed))]
fn push_placed<'t>(
    events: &mut Vec<InlineEvent<'t>>,
    shares: &[Share<'t>],
    at: usize,
    stop: usize,
) -> Result<(), AllocError>
    requires { at ≤ stop }
    ensures { OnOk result (map event_of events.new.items ≡ map event_of events.old.items ++ placed at stop (map share_of shares.now)) }
{
    let mut at = at;
    let mut rest = shares;
    while let [share, next @ ..] = rest {
        let len = share.bytes.min(stop - at);
        events.push(InlineEvent {
            inline: share.inline,
            place: at,
            len,
        })?;
        at += len;
        rest = next;
    }
    Ok(())
}

// The events of pieces, one after another.
fn piece_events<'t>(
    alloc: Global,
    text: &'t str,
    spans: &[Span],
    pieces: &[Piece],
    left: &[usize],
    overs: &[Over],
) -> Result<Vec<InlineEvent<'t>>, AllocError>
    requires cut { AreCut text.now 0 pieces.now }
    requires left { length left.now ≡ length pieces.now }
    requires overs { length overs.now ≡ length pieces.now }
    ensures { IfOk result (λ events. map event_of events.items ≡ events_from text.entry.now spans.now [] 0 0 pieces.now left.now overs.now) }
{
    let begun = begun_lists(alloc, spans, pieces.len())?;
    let mut events = Vec::new(alloc);
    let mut shares = Vec::new(alloc);
    let mut around = Vec::new(alloc);
    let mut at = 0;
    for index in 0..pieces.len() {
        let piece = pieces[index];
        shares.clear();
        push_piece(
            &mut shares,
            &mut around,
            text,
            at,
            index,
            &piece,
            left[index],
            overs[index].opens,
            &begun[index],
        )?;
        let stop = at + (piece.more + 1);
        push_placed(&mut events, &shares, at, stop)?;
        at = stop;
    }
    around.reverse();
    shares.clear();
    push_ends(&mut shares, &around)?;
    push_placed(&mut events, &shares, at, at)?;
    Ok(events)
}

/// The inlines of a leaf's text as events, with links to these definitions. The texts of the events are borrowed, and each event has its bytes of the
/// text. It takes time in proportion to the text.
///
/// # Errors
///
/// Out of memory is the only error.
pub fn read_inlines<'t>(
    alloc: Global,
    labels: &Labels,
    text: &'t str,
) -> Result<Vec<InlineEvent<'t>>, AllocError>
    ensures { IfOk result (λ events. map event_of events.items ≡ inline_events labels.now text.entry.now) }
{
    let cut = cut_text(alloc, labels, text)?;
    let spans = spans_of(alloc, text, &cut.pairs, &cut.pieces)?;
    let left = left_of(alloc, &cut.pieces, &cut.pairs)?;
    let overs = overs_of(alloc, &cut.pieces)?;
    piece_events(alloc, text, &spans, &cut.pieces, &left, &overs)
}
