//! The inlines of a leaf's text.

ghost use Rattle.std.specs.Prelude.{◌≡◌, ◌<◌, ◌^◌, ◌++◌, [], List, true, IfOk, OnOk, length, map};
ghost use Rattle.std.specs.List.{All};
ghost use Rattle.markdown_emphasis.specs.Pairs.{IsWithin};
ghost use Rattle.markdown_pieces.specs.Places.{AreCut};
ghost use Rattle.markdown_inlines.specs.declared.inlines.LinkTarget.{LinkTarget};
ghost use Rattle.markdown_inlines.specs.Looks.{look_of, plain_look};
ghost use Rattle.markdown_inlines.specs.Parts.{shown_text};
ghost use Rattle.markdown_inlines.specs.Inlines.{is_code, target_by, html_target, link_target, with_link, links_from, all_over, shown_from, shown_cut, leaf_text, are_shown, leaf_links};
ghost use Rattle.markdown_inlines.specs.Styled.{shown_with, spelled_of, IsStyled};

use crate::left::left_of;
use crate::links::{Over, overs_of};
use crate::looks::{Look, look_of, plain_look};
use crate::parts::push_piece;
use crate::styled::Styled;
use crate::tags::tagged;
use markdown_addresses::addresses::Scheme;
use markdown_brackets::labels::Labels;
use markdown_brackets::targets::Target;
use markdown_emphasis::{Flags, Pair, flag_pieces};
use markdown_pieces::cut::{cut_text, is_quiet};
use markdown_pieces::pieces::{Kind, Piece};
use markdown_spans::attributes::{Html, Value};
use std::alloc::{AllocError, Global};

/// Where a link leads. Places are bytes of the leaf's text.
#[derive(Debug, Clone, Copy)]
pub enum LinkTarget {
    /// To what the definition of this index says.
    Definition(usize),
    /// To what stands in parentheses at a place: so many bytes, with the parentheses.
    Inline(usize, usize),
    /// To an address at a place, of so many bytes, behind this scheme.
    Address(Scheme, usize, usize),
    /// To the value of an attribute of a tag, whose name stands at a place.
    Attribute(usize, Value),
}

/// What is shown of a leaf.
#[derive(Drop)]
pub struct LeafText {
    pub styled: Styled,
    /// The links, in the order of their closing brackets, their addresses and their tags `a`. The runs say their numbers.
    pub links: Vec<LinkTarget>,
}

fn target_by(target: Target, after: usize) -> LinkTarget
    ensures { result ≡ target_by target after }
{
    match target.definition {
        Some(index) => LinkTarget::Definition(index),
        None => LinkTarget::Inline(after, target.len),
    }
}

// The link that a tag begins, which stands behind its sign `<` from a place on.
fn html_target(html: Html, after: usize) -> Option<LinkTarget>
    ensures { result ≡ html_target html after }
{
    match html {
        Html::Link(value) => Some(LinkTarget::Attribute(after, value)),
        _ => None,
    }
}

fn link_target(kind: &Kind, at: usize, more: usize) -> Option<LinkTarget>
    requires few { at < 2 ^ 63 }
    requires less { more < 2 ^ 63 }
    ensures { result ≡ link_target kind.now at more }
{
    match kind {
        Kind::Closing(Some(link)) => {
            if link.image {
                None
            } else {
                Some(target_by(link.target, at + 1))
            }
        }
        Kind::Address(len, scheme) => Some(LinkTarget::Address(*scheme, at + 1, *len)),
        Kind::Bare(scheme) => Some(LinkTarget::Address(*scheme, at, more + 1)),
        Kind::Html(html) => html_target(*html, at + 1),
        _ => None,
    }
}

fn look_at(flags: &Flags, kind: &Kind, over: &Over) -> Look
    ensures { result ≡ look_of flags.now over.now.tags (is_code kind.now) over.now.link over.now.picture }
{
    look_of(
        flags,
        over.tags,
        matches!(kind, Kind::Code(_)),
        over.link,
        over.picture,
    )
}

// Writes down the link that a piece makes.
fn add_link(
    links: &mut Vec<LinkTarget>,
    kind: &Kind,
    at: usize,
    more: usize,
) -> Result<(), AllocError>
    requires few { at < 2 ^ 63 }
    requires less { more < 2 ^ 63 }
    ensures { OnOk result ((rest : List LinkTarget) → links.new.items ++ rest ≡ links.old.items ++ with_link (link_target kind.now at more) rest) }
{
    if let Some(link) = link_target(kind, at, more) {
        links.push(link)?;
    }
    Ok(())
}

// What is shown of pieces, one after another.
fn shown_pieces(
    alloc: Global,
    text: &str,
    pieces: &[Piece],
    flags: &[Flags],
    left: &[usize],
    overs: &[Over],
) -> Result<LeafText, AllocError>
    requires cut { AreCut text.now 0 pieces.now }
    requires flags { length flags.now ≡ length pieces.now }
    requires left { length left.now ≡ length pieces.now }
    requires overs { length overs.now ≡ length pieces.now }
    ensures shown { IfOk result (λ leaf. spelled_of leaf.styled ≡ shown_from text.now 0 pieces.now flags.now left.now overs.now) }
    ensures styled { IfOk result (λ leaf. IsStyled leaf.styled) }
    ensures links { IfOk result (λ leaf. leaf.links.items ≡ links_from 0 pieces.now) }
{
    let mut styled = Styled::with_capacity(alloc, text.len())?;
    let mut links = Vec::new(alloc);
    let mut at = 0;
    for index in 0..pieces.len() {
        let piece = pieces[index];
        let look = look_at(&flags[index], &piece.kind, &overs[index]);
        push_piece(
            alloc,
            &mut styled,
            text,
            at,
            &piece,
            left[index],
            &overs[index],
            &look,
        )?;
        add_link(&mut links, &piece.kind, at, piece.more)?;
        at += piece.more + 1;
    }
    Ok(LeafText { styled, links })
}

// What links, pictures and tags have to do with each piece.
fn all_over(alloc: Global, pieces: &[Piece]) -> Result<Vec<Over>, AllocError>
    ensures over { IfOk result (λ overs. overs.items ≡ all_over pieces.now) }
    ensures size { IfOk result (λ overs. length overs.items ≡ length pieces.now) }
{
    let overs = overs_of(alloc, pieces)?;
    let all = tagged(alloc, pieces, &overs)?;
    Ok(all)
}

/// What is shown of a text that was cut into these pieces, of which these match. It has no control character but the newlines that break its lines,
/// and none that turns the direction of writing.
///
/// # Errors
///
/// Out of memory is the only error.
pub fn cut_shown(
    alloc: Global,
    text: &str,
    pieces: &[Piece],
    pairs: &[Pair],
) -> Result<LeafText, AllocError>
    requires cut { AreCut text.now 0 pieces.now }
    requires pairs { All (IsWithin (length pieces.now)) pairs.now }
    ensures shown { IfOk result (λ leaf. spelled_of leaf.styled ≡ shown_cut (record { pieces = pieces.now; pairs = pairs.now }) text.now) }
    ensures printable { IfOk result (λ leaf. are_shown (spelled_of leaf.styled) ≡ true) }
    ensures styled { IfOk result (λ leaf. IsStyled leaf.styled) }
    ensures links { IfOk result (λ leaf. leaf.links.items ≡ links_from 0 pieces.now) }
{
    let flags = flag_pieces(alloc, pairs, pieces.len())?;
    let left = left_of(alloc, pieces, pairs)?;
    let overs = all_over(alloc, pieces)?;
    let leaf = shown_pieces(alloc, text, pieces, &flags, &left, &overs)?;
    Ok(leaf)
}

// What is shown of a text of which each byte stands for itself.
fn quiet_text(alloc: Global, text: &str) -> Result<LeafText, AllocError>
    ensures shown { IfOk result (λ leaf. spelled_of leaf.styled ≡ map (shown_with plain_look) (shown_text text.now)) }
    ensures styled { IfOk result (λ leaf. IsStyled leaf.styled) }
    ensures links { IfOk result (λ leaf. leaf.links.items ≡ []) }
{
    let mut styled = Styled::with_capacity(alloc, text.len())?;
    let look = plain_look();
    styled.push_text(text, &look)?;
    Ok(LeafText {
        styled,
        links: Vec::new(alloc),
    })
}

/// What is shown of a leaf's text, with links to these definitions. It has no control character but the newlines that break its lines,
/// and none that turns the direction of writing.
///
/// # Errors
///
/// Out of memory is the only error.
pub fn leaf_text(alloc: Global, labels: &Labels, text: &str) -> Result<LeafText, AllocError>
    ensures shown { IfOk result (λ leaf. spelled_of leaf.styled ≡ leaf_text labels.now text.now) }
    ensures printable { IfOk result (λ leaf. are_shown (spelled_of leaf.styled) ≡ true) }
    ensures styled { IfOk result (λ leaf. IsStyled leaf.styled) }
    ensures links { IfOk result (λ leaf. leaf.links.items ≡ leaf_links labels.now text.now) }
{
    if is_quiet(text) {
        let quiet = quiet_text(alloc, text)?;
        return Ok(quiet);
    }
    let cut = cut_text(alloc, labels, text)?;
    let leaf = cut_shown(alloc, text, &cut.pieces, &cut.pairs)?;
    Ok(leaf)
}
