//! Over which pieces links and pictures are.

ghost use Rattle.std.specs.Prelude.{◌≡◌, ◌≤◌, IfOk, OnOk, reverse};
ghost use Rattle.markdown_inlines.specs.Links.{is_link_tag, is_link, links_in, link_count, nearest, nearest_picture, opens_at, own_link, picture_by, own_picture, or_number, link_over, is_silent, over_of, number_by, ahead_by, stepped_back, overs_of};

use crate::tags::TagFlags;
use markdown_brackets::brackets::Link;
use markdown_pieces::pieces::{Kind, Piece};
use markdown_spans::attributes::Html;
use std::alloc::{AllocError, Global};

/// What links, pictures and tags have to do with a piece.
#[derive(Debug, Clone, Copy)]
pub struct Over {
    /// The number of the link over the piece. In a picture it is the one that is around the picture.
    pub link: Option<usize>,
    /// The picture over the piece, the outermost of those that are: the index of its opening bracket's piece. Its brackets are of it.
    pub picture: Option<usize>,
    /// Whether it is the opening bracket of a link or an image.
    pub opens: bool,
    /// Whether it is the closing bracket of an image that has nothing between its brackets.
    pub silent: bool,
    /// The flags that tags give.
    pub tags: TagFlags,
}

/// A link or an image whose closing bracket is ahead.
#[derive(Debug, Clone, Copy)]
pub struct Ahead {
    /// The number of the link, or of that around the image; in an image, of that around it.
    pub number: Option<usize>,
    /// The outermost image that is there, this one included: the index of its opening bracket's piece.
    pub picture: Option<usize>,
    /// The index of the piece of its opening bracket.
    pub opener: usize,
}

// Whether a tag begins a link.
fn is_link_tag(html: Html) -> bool
    ensures { result ≡ is_link_tag html }
{
    matches!(html, Html::Link(_))
}

fn is_link(kind: &Kind) -> bool
    ensures { result ≡ is_link kind.now }
{
    match kind {
        Kind::Closing(Some(link)) => !link.image,
        Kind::Address(_, _) | Kind::Bare(_) => true,
        Kind::Html(html) => is_link_tag(*html),
        _ => false,
    }
}

// One, if it is a link.
pub(crate) fn links_in(kind: &Kind) -> usize
    ensures value { result ≡ links_in kind.now }
    ensures few { result ≤ 1 }
{
    if is_link(kind) { 1 } else { 0 }
}

// How many links there are.
#[tactic(auto, unfolding(crate::specs::Links::link_count))]
fn link_count(pieces: &[Piece]) -> usize
    ensures { result ≡ link_count pieces.now }
{
    let mut count = 0;
    for piece in pieces {
        count += links_in(&piece.kind);
    }
    count
}

fn nearest(ahead: &[Ahead]) -> Option<usize>
    ensures { result ≡ nearest (reverse ahead.now) }
{
    let count = ahead.len();
    if count == 0 {
        return None;
    }
    ahead[count - 1].number
}

fn nearest_picture(ahead: &[Ahead]) -> Option<usize>
    ensures { result ≡ nearest_picture (reverse ahead.now) }
{
    let count = ahead.len();
    if count == 0 {
        return None;
    }
    ahead[count - 1].picture
}

// Whether the nearest link begins at a piece.
fn opens_at(ahead: &[Ahead], index: usize) -> bool
    ensures { result ≡ opens_at index (reverse ahead.now) }
{
    let count = ahead.len();
    if count == 0 {
        return false;
    }
    ahead[count - 1].opener == index
}

// The number of an address, which is a link by itself.
fn own_link(number: usize, kind: &Kind) -> Option<usize>
    ensures { result ≡ own_link number kind.now }
{
    match kind {
        Kind::Address(_, _) | Kind::Bare(_) => Some(number),
        _ => None,
    }
}

// The picture that a closing bracket ends: where it begins.
fn picture_by(link: &Link) -> Option<usize>
    ensures { result ≡ picture_by link.now }
{
    if link.image { Some(link.opener) } else { None }
}

fn own_picture(kind: &Kind) -> Option<usize>
    ensures { result ≡ own_picture kind.now }
{
    match kind {
        Kind::Closing(Some(link)) => picture_by(link),
        _ => None,
    }
}

pub(crate) fn or_number(first: Option<usize>, otherwise: Option<usize>) -> Option<usize>
    ensures { result ≡ or_number first otherwise }
{
    match first {
        Some(number) => Some(number),
        None => otherwise,
    }
}

// The link over a piece. In a picture an address is none.
fn link_over(ahead: &[Ahead], number: usize, kind: &Kind) -> Option<usize>
    ensures { result ≡ link_over number kind.now (reverse ahead.now) }
{
    if nearest_picture(ahead).is_some() {
        return nearest(ahead);
    }
    or_number(nearest(ahead), own_link(number, kind))
}

// Whether a piece is the closing bracket of an image with nothing between its brackets.
fn is_silent(index: usize, kind: &Kind) -> bool
    ensures { result ≡ is_silent index kind.now }
{
    match kind {
        Kind::Closing(Some(link)) => {
            link.image && link.opener < index && index - link.opener == 1
        }
        _ => false,
    }
}

fn over_of(ahead: &[Ahead], index: usize, number: usize, kind: &Kind) -> Over
    ensures { result ≡ over_of index number kind.now (reverse ahead.now) }
{
    Over {
        link: link_over(ahead, number, kind),
        picture: or_number(nearest_picture(ahead), own_picture(kind)),
        opens: matches!(kind, Kind::Opening(_)) && opens_at(ahead, index),
        silent: is_silent(index, kind),
        tags: TagFlags {
            bold: false,
            italic: false,
            strikeout: false,
            code: false,
        },
    }
}

// The number of what lies before a closing bracket.
fn number_by(ahead: &[Ahead], number: usize, link: &Link) -> Option<usize>
    ensures { result ≡ number_by number link.now (reverse ahead.now) }
{
    if link.image || nearest_picture(ahead).is_some() {
        nearest(ahead)
    } else {
        Some(number)
    }
}

fn ahead_by(ahead: &[Ahead], number: usize, link: &Link) -> Ahead
    ensures { result ≡ ahead_by number link.now (reverse ahead.now) }
{
    Ahead {
        number: number_by(ahead, number, link),
        picture: or_number(nearest_picture(ahead), picture_by(link)),
        opener: link.opener,
    }
}

// One piece back: the links that are ahead of it.
fn step_back(
    ahead: &mut Vec<Ahead>,
    index: usize,
    number: usize,
    kind: &Kind,
) -> Result<(), AllocError>
    ensures { OnOk result (reverse ahead.new.items ≡ stepped_back index number kind.now (reverse ahead.old.items)) }
{
    match kind {
        Kind::Closing(Some(link)) => {
            let begun = ahead_by(ahead, number, link);
            ahead.push(begun)?;
            Ok(())
        }
        Kind::Opening(_) => {
            if opens_at(ahead, index) {
                let _ = ahead.pop();
            }
            Ok(())
        }
        _ => Ok(()),
    }
}

/// What the links and pictures of brackets and addresses have to do with each piece.
///
/// # Errors
///
/// Out of memory is the only error.
pub fn overs_of(alloc: Global, pieces: &[Piece]) -> Result<Vec<Over>, AllocError>
    ensures { IfOk result (λ overs. overs.items ≡ overs_of pieces.now) }
{
    let mut overs = Vec::with_capacity(alloc, pieces.len())?;
    let mut ahead = Vec::new(alloc);
    let mut number = link_count(pieces);
    let mut index = pieces.len();
    while index > 0 {
        index -= 1;
        let kind = pieces[index].kind;
        number -= links_in(&kind);
        overs.push(over_of(&ahead, index, number, &kind))?;
        step_back(&mut ahead, index, number, &kind)?;
    }
    overs.reverse();
    Ok(overs)
}
