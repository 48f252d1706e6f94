//! What a piece says, and how many of its bytes each has.

ghost use Rattle.std.specs.Prelude.{◌≡◌, ◌+◌, ◌<◌, ◌∷◌, ◌++◌, [], OnOk, length, map, reverse};
ghost use Rattle.std.specs.Str.{IsCharBoundary};
ghost use Rattle.markdown_spans.specs.Code.{unpadded};
ghost use Rattle.markdown_inlines.specs.Parts.{sign_char, part};
ghost use Rattle.markdown_pieces.specs.Places.{IsInside};
ghost use Rattle.markdown_inline_events.specs.Contents.{InlineContent, inline_of, text, code, html};
ghost use Rattle.markdown_inline_events.specs.Shares.{ShareContent, around_after, is_ending, share_of, share, start_share, end_share, address_shares, marks_shares, opening_shares, closing_shares, is_mark, own_shares, piece_shares};
ghost use Rattle.markdown_inline_events.specs.Spans.{ended, still_open};

use crate::events::{Inline, InlineTag};
use crate::spans::Span;
use markdown_addresses::addresses::Scheme;
use markdown_brackets::brackets::Link;
use markdown_emphasis::{Run, Sign};
use markdown_inlines::inlines::LinkTarget;
use markdown_pieces::pieces::{Kind, Piece};
use markdown_spans::code::is_padded;
use std::alloc::{AllocError, Global};

/// An inline, and how many of a piece's bytes say it.
#[derive(Clone, Copy)]
pub(crate) struct Share<'t> {
    pub inline: Inline<'t>,
    pub bytes: usize,
}

fn push<'t>(shares: &mut Vec<Share<'t>>, inline: Inline<'t>, bytes: usize) -> Result<(), AllocError>
    ensures { OnOk result (map share_of shares.new.items ≡ map share_of shares.old.items ++ share (inline_of inline.entry) bytes ∷ []) }
{
    shares.push(Share { inline, bytes })?;
    Ok(())
}

// All of these end.
pub(crate) fn push_ends(shares: &mut Vec<Share<'_>>, spans: &[Span]) -> Result<(), AllocError>
    ensures { OnOk result (map share_of shares.new.items ≡ map share_of shares.old.items ++ map end_share spans.now) }
{
    for span in spans {
        push(shares, Inline::End(span.tag), span.closing)?;
    }
    Ok(())
}

// Whether the innermost of what is open ends at the piece of an index.
fn is_ending(around: &[Span], index: usize) -> bool
    ensures { result ≡ is_ending index (reverse around.now) }
{
    match around.split_last() {
        Some((span, _)) => span.closer == index,
        None => false,
    }
}

// What these begin.
fn push_starts(shares: &mut Vec<Share<'_>>, spans: &[Span]) -> Result<(), AllocError>
    ensures { OnOk result (map share_of shares.new.items ≡ map share_of shares.old.items ++ map start_share spans.now) }
{
    for span in spans {
        push(shares, Inline::Start(span.tag), span.opening)?;
    }
    Ok(())
}

// The text of a code span, without a space at both ends that isn't its own.
fn unpadded(text: &str) -> &str
    ensures { result.now ≡ unpadded text.entry.now }
{
    if is_padded(text.as_bytes()) && text.len() >= 2 {
        &text[1..text.len() - 1]
    } else {
        text
    }
}

// An address, with what stands before it and behind it.
fn push_address<'t>(
    shares: &mut Vec<Share<'t>>,
    target: LinkTarget,
    address: &'t str,
    around: usize,
) -> Result<(), AllocError>
    ensures { OnOk result (map share_of shares.new.items ≡ map share_of shares.old.items ++ address_shares target address.entry.now around) }
{
    push(shares, Inline::Start(InlineTag::Link(target)), around)?;
    push(shares, Inline::Text(address), address.len())?;
    push(shares, Inline::End(InlineTag::Link(target)), around)
}

fn sign_char(sign: Sign) -> char
    ensures { result ≡ sign_char sign }
{
    match sign {
        Sign::Star => '*',
        Sign::Underscore => '_',
        Sign::Tilde => '~',
    }
}

// So many marks of a run, which no pair takes.
fn push_marks(shares: &mut Vec<Share<'_>>, run: Run, left: usize) -> Result<(), AllocError>
    ensures { OnOk result (map share_of shares.new.items ≡ map share_of shares.old.items ++ marks_shares run left) }
{
    if left == 0 {
        return Ok(());
    }
    push(shares, Inline::Marks(sign_char(run.sign), left), left)
}

// An opening bracket, which begins a link or an image or is text.
fn push_opening(shares: &mut Vec<Share<'_>>, image: bool, opens: bool) -> Result<(), AllocError>
    ensures { OnOk result (map share_of shares.new.items ≡ map share_of shares.old.items ++ opening_shares image opens) }
{
    if opens {
        return Ok(());
    }
    if image {
        push(shares, Inline::Text("!["), 2)
    } else {
        push(shares, Inline::Text("["), 1)
    }
}

fn push_closing(shares: &mut Vec<Share<'_>>, link: Option<Link>) -> Result<(), AllocError>
    ensures { OnOk result (map share_of shares.new.items ≡ map share_of shares.old.items ++ closing_shares link) }
{
    match link {
        Some(_) => Ok(()),
        None => push(shares, Inline::Text("]"), 1),
    }
}

// What a piece says by itself, of which so many marks are left, and which is the opening bracket of a link or isn't.
fn push_own<'t>(
    shares: &mut Vec<Share<'t>>,
    text: &'t str,
    at: usize,
    piece: &Piece,
    left: usize,
    opens: bool,
) -> Result<(), AllocError>
    requires within { at + piece.now.more < length text.now }
    requires begin { IsCharBoundary text.now at }
    requires end { IsCharBoundary text.now (at + (piece.now.more + 1)) }
    requires inside { IsInside text.now at piece.now.kind }
    ensures { OnOk result (map share_of shares.new.items ≡ map share_of shares.old.items ++ own_shares piece.now.kind text.entry.now at piece.now.more left opens) }
{
    let len = piece.more + 1;
    let whole = &text[at..at + len];
    match piece.kind {
        Kind::Plain => push(shares, Inline::Text(whole), len),
        Kind::Shown(c, second) => push(shares, Inline::Character(c, second), len),
        Kind::Code(code) => {
            let begin = at + code.marks;
            let inside = unpadded(&text[begin..begin + code.len]);
            push(shares, Inline::Code(inside), len)
        }
        Kind::Address(len, scheme) => {
            let begin = at + 1;
            let target = LinkTarget::Address(scheme, begin, len);
            push_address(shares, target, &text[begin..begin + len], 1)
        }
        Kind::Bare(scheme) => {
            let target = LinkTarget::Address(scheme, at, len);
            push_address(shares, target, whole, 0)
        }
        Kind::Html(html) => push(shares, Inline::Html(html, whole), len),
        Kind::Soft => push(shares, Inline::SoftBreak, len),
        Kind::Hard => push(shares, Inline::HardBreak, len),
        Kind::Run(run) => push_marks(shares, run, left),
        Kind::Opening(image) => push_opening(shares, image, opens),
        Kind::Closing(link) => push_closing(shares, link),
    }
}

// Whether spans may begin and end with it.
fn is_mark(kind: &Kind) -> bool
    ensures { result ≡ is_mark kind.now }
{
    matches!(kind, Kind::Run(_) | Kind::Opening(_) | Kind::Closing(_))
}

// What ends at the piece of an index, and is open no more.
fn push_ended(
    shares: &mut Vec<Share<'_>>,
    around: &mut Vec<Span>,
    index: usize,
) -> Result<(), AllocError>
    ensures shares { OnOk result (map share_of shares.new.items ≡ map share_of shares.old.items ++ map end_share (ended index (reverse around.old.items))) }
    ensures around { OnOk result (reverse around.new.items ≡ still_open index (reverse around.old.items)) }
{
    while is_ending(around, index) {
        if let Some(span) = around.pop() {
            push(shares, Inline::End(span.tag), span.closing)?;
        }
    }
    Ok(())
}

/// What a piece says: what ends at it, itself, and what begins at it. Of what is open around it the innermost is last.
///
/// # Errors
///
/// Out of memory is the only error.
pub(crate) fn push_piece<'t>(
    shares: &mut Vec<Share<'t>>,
    around: &mut Vec<Span>,
    text: &'t str,
    at: usize,
    index: usize,
    piece: &Piece,
    left: usize,
    opens: bool,
    begun: &[Span],
) -> Result<(), AllocError>
    requires within { at + piece.now.more < length text.now }
    requires begin { IsCharBoundary text.now at }
    requires end { IsCharBoundary text.now (at + (piece.now.more + 1)) }
    requires inside { IsInside text.now at piece.now.kind }
    ensures shares { OnOk result (map share_of shares.new.items ≡ map share_of shares.old.items ++ piece_shares piece.now.kind (ended index (reverse around.old.items)) (own_shares piece.now.kind text.entry.now at piece.now.more left opens) begun.now) }
    ensures around { OnOk result (reverse around.new.items ≡ around_after piece.now.kind index begun.now (reverse around.old.items)) }
{
    if !is_mark(&piece.kind) {
        return push_own(shares, text, at, piece, left, opens);
    }
    push_ended(shares, around, index)?;
    push_own(shares, text, at, piece, left, opens)?;
    push_starts(shares, begun)?;
    around.extend_from_slice(begun)
}
