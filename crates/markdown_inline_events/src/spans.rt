//! What begins and ends in a text: emphasis by the pairs of its marks, links and images by their brackets.

ghost use Rattle.std.specs.Prelude.{◌≡◌, ◌<◌, ◌^◌, ◌++◌, IfOk, OnOk, List, length, map};
ghost use Rattle.markdown_emphasis.specs.Flags.{is_bold, is_strikeout};
ghost use Rattle.markdown_inlines.specs.Inlines.{target_by};
ghost use Rattle.markdown_pieces.specs.Places.{AreCut};
ghost use Rattle.markdown_inline_events.specs.Spans.{pair_tag, pair_span, link_tag, link_span, with_span, link_spans, spans_of};
ghost use Rattle.markdown_inline_events.specs.declared.spans.Span.{Span};

use crate::events::InlineTag;
use markdown_brackets::brackets::Link;
use markdown_brackets::targets::Target;
use markdown_emphasis::{Pair, Sign};
use markdown_inlines::inlines::LinkTarget;
use markdown_pieces::pieces::{Kind, Piece};
use std::alloc::{AllocError, Global};

/// What begins and ends, and at which pieces.
#[derive(Clone, Copy)]
pub(crate) struct Span {
    pub tag: InlineTag,
    /// The index of the piece at which it begins.
    pub opener: usize,
    /// The index of the piece at which it ends.
    pub closer: usize,
    /// How many bytes begin it.
    pub opening: usize,
    /// How many bytes end it.
    pub closing: usize,
}

// What a pair of runs makes of the text between them.
fn pair_tag(pair: &Pair) -> InlineTag
    ensures { result ≡ pair_tag pair.now }
{
    match pair.sign {
        Sign::Tilde => InlineTag::Strikeout,
        Sign::Star | Sign::Underscore => {
            if pair.count == 2 {
                InlineTag::Strong
            } else {
                InlineTag::Emphasis
            }
        }
    }
}

fn pair_span(pair: &Pair) -> Span
    ensures { result ≡ pair_span pair.now }
{
    Span {
        tag: pair_tag(pair),
        opener: pair.opener,
        closer: pair.closer,
        opening: pair.count,
        closing: pair.count,
    }
}

fn pair_spans(alloc: Global, pairs: &[Pair]) -> Result<Vec<Span>, AllocError>
    ensures { IfOk result (λ spans. spans.items ≡ map pair_span pairs.now) }
{
    pairs.iter().map(|pair| pair_span(pair)).collect(alloc)
}

// Where a link leads whose closing bracket ends at this place.
fn target_by(target: Target, after: usize) -> LinkTarget
    ensures { result ≡ target_by target after }
{
    match target.definition {
        Some(index) => LinkTarget::Definition(index),
        None => LinkTarget::Inline(after, target.len),
    }
}

fn link_tag(link: &Link, after: usize) -> InlineTag
    ensures { result ≡ link_tag link.now after }
{
    let target = target_by(link.target, after);
    if link.image {
        InlineTag::Image(target)
    } else {
        InlineTag::Link(target)
    }
}

// The link or the image that a piece closes, if it is such a bracket.
fn link_span(kind: &Kind, index: usize, at: usize, more: usize) -> Option<Span>
    requires few { at < 2 ^ 63 }
    requires less { more < 2 ^ 63 }
    ensures { result ≡ link_span kind.now index at more }
{
    match kind {
        Kind::Closing(Some(link)) => Some(Span {
            tag: link_tag(link, at + 1),
            opener: link.opener,
            closer: index,
            opening: if link.image { 2 } else { 1 },
            closing: more + 1,
        }),
        _ => None,
    }
}

// Adds the link that a piece closes.
fn push_link(
    spans: &mut Vec<Span>,
    kind: &Kind,
    index: usize,
    at: usize,
    more: usize,
) -> Result<(), AllocError>
    requires few { at < 2 ^ 63 }
    requires less { more < 2 ^ 63 }
    ensures { OnOk result ((rest : List Span) → spans.new.items ++ rest ≡ spans.old.items ++ with_span (link_span kind.now index at more) rest) }
{
    if let Some(span) = link_span(kind, index, at, more) {
        spans.push(span)?;
    }
    Ok(())
}

// Adds the links and images, in the order in which they end.
fn push_links(spans: &mut Vec<Span>, text: &str, pieces: &[Piece]) -> Result<(), AllocError>
    requires { AreCut text.now 0 pieces.now }
    ensures { OnOk result (spans.new.items ≡ spans.old.items ++ link_spans 0 0 pieces.now) }
{
    let mut at = 0;
    for index in 0..pieces.len() {
        let piece = pieces[index];
        push_link(spans, &piece.kind, index, at, piece.more)?;
        at += piece.more + 1;
    }
    Ok(())
}

/// What begins and ends in a text with these pieces: emphasis first, and then links and images, each in the order in which it ends.
///
/// # Errors
///
/// Out of memory is the only error.
pub(crate) fn spans_of(
    alloc: Global,
    text: &str,
    pairs: &[Pair],
    pieces: &[Piece],
) -> Result<Vec<Span>, AllocError>
    requires { AreCut text.now 0 pieces.now }
    ensures { IfOk result (λ spans. spans.items ≡ spans_of pairs.now pieces.now) }
{
    let mut spans = pair_spans(alloc, pairs)?;
    push_links(&mut spans, text, pieces)?;
    Ok(spans)
}
