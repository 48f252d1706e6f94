//! A text as its pieces.

ghost use Rattle.std.specs.Prelude.{◌≡◌, ℕ, ◌+◌, ◌<◌, ◌≤◌, List, IfOk, IsTrue, OnOk, length, drop, min};
ghost use Rattle.std.specs.List.{All};
ghost use Rattle.markdown_emphasis.specs.Pairs.{IsWithin};
ghost use Rattle.markdown_pieces.specs.Known.{IsKnown};
ghost use Rattle.markdown_brackets.specs.Brackets.{closed};
ghost use Rattle.markdown_brackets.specs.Readings.{reading_of, IsTidy};
ghost use Rattle.markdown_pieces.specs.Pieces.{piece};
ghost use Rattle.markdown_pieces.specs.Cut.{capped, link_len, other_step, closing_step, opening_step, read_by, step, cut_text, cut_of, whole_text};
ghost use Rattle.markdown_pieces.specs.Places.{AreCut};

use crate::pieces::{Kind, Known, Piece, has_at, known_of, piece_at, piece_of};
use crate::scan::{may_have_web, quiet_len};
use markdown_brackets::brackets::{Brackets, Link};
use markdown_brackets::labels::Labels;
use markdown_emphasis::Pair;
use markdown_marks::bytes::{first, tail};
use std::alloc::{AllocError, Global};

/// A text as its pieces, and the pairs of those that are runs.
#[derive(Drop)]
pub struct Inlines {
    pub pieces: Vec<Piece>,
    pub pairs: Vec<Pair>,
}

// A piece has no more bytes than are left.
fn capped(piece: Piece, more: usize) -> Piece
    ensures value { result ≡ capped piece more }
    ensures few { result.more ≤ more }
{
    Piece {
        kind: piece.kind,
        more: piece.more.min(more),
    }
}

fn read_other(
    known: &Known,
    text: &str,
    at: usize,
    index: usize,
    brackets: &mut Brackets,
) -> Result<Piece, AllocError>
    requires known { IsKnown known.now text.now }
    requires within { at < length text.now }
    requires tidy { IsTidy brackets.old }
    ensures step { IfOk result (λ piece. (record { piece = piece; reading = reading_of brackets.new }) ≡ other_step text.now at index (reading_of brackets.old) (drop at text.now)) }
    ensures tidy { OnOk result (IsTidy brackets.new) }
{
    let piece = piece_at(known, brackets.is_free(), text, at);
    match piece.kind {
        Kind::Run(run) => {
            brackets.add_run(index, run)?;
            Ok(piece)
        }
        _ => Ok(piece),
    }
}

fn link_len(link: Option<Link>) -> usize
    ensures { result ≡ link_len link }
{
    match link {
        Some(link) => link.target.len,
        None => 0,
    }
}

fn read_closing(
    alloc: Global,
    labels: &Labels,
    text: &str,
    at: usize,
    brackets: &mut Brackets,
) -> Result<Piece, AllocError>
    requires within { at < length text.now }
    requires tidy { IsTidy brackets.old }
    ensures step { IfOk result (λ piece. (record { piece = piece; reading = reading_of brackets.new }) ≡ closing_step (closed labels.now text.now (at + 1) (reading_of brackets.old))) }
    ensures tidy { OnOk result (IsTidy brackets.new) }
{
    let link = brackets.close(alloc, labels, text.as_bytes(), at + 1)?;
    Ok(piece_of(Kind::Closing(link), link_len(link)))
}

fn read_opening(
    image: bool,
    at: usize,
    index: usize,
    more: usize,
    brackets: &mut Brackets,
) -> Result<Piece, AllocError>
    requires tidy { IsTidy brackets.old }
    ensures step { IfOk result (λ piece. (record { piece = piece; reading = reading_of brackets.new }) ≡ opening_step image at index more (reading_of brackets.old)) }
    ensures tidy { OnOk result (IsTidy brackets.new) }
{
    brackets.open_bracket(image, index, at)?;
    Ok(piece_of(Kind::Opening(image), more))
}

// The piece that begins at a place.
fn read_piece(
    alloc: Global,
    labels: &Labels,
    known: &Known,
    text: &str,
    at: usize,
    index: usize,
    brackets: &mut Brackets,
) -> Result<Piece, AllocError>
    requires known { IsKnown known.now text.now }
    requires within { at < length text.now }
    requires tidy { IsTidy brackets.old }
    ensures step { IfOk result (λ piece. (record { piece = piece; reading = reading_of brackets.new }) ≡ read_by labels.now text.now at index (reading_of brackets.old) (drop at text.now)) }
    ensures tidy { OnOk result (IsTidy brackets.new) }
{
    if text.as_bytes()[at] == b'[' {
        let piece = read_opening(false, at + 1, index, 0, brackets)?;
        return Ok(piece);
    }
    if text.as_bytes()[at] == b'!' && first(tail(text.as_bytes(), at + 1)) == b'[' {
        let piece = read_opening(true, at + 2, index, 1, brackets)?;
        return Ok(piece);
    }
    if text.as_bytes()[at] == b']' {
        let piece = read_closing(alloc, labels, text, at, brackets)?;
        return Ok(piece);
    }
    let piece = read_other(known, text, at, index, brackets)?;
    Ok(piece)
}

// The same, with no more bytes than are left.
#[tactic(auto, unfolding(crate::specs::Cut::step))]
fn step(
    alloc: Global,
    labels: &Labels,
    known: &Known,
    text: &str,
    at: usize,
    index: usize,
    brackets: &mut Brackets,
) -> Result<Piece, AllocError>
    requires known { IsKnown known.now text.now }
    requires within { at < length text.now }
    requires tidy { IsTidy brackets.old }
    ensures step { IfOk result (λ piece. (record { piece = piece; reading = reading_of brackets.new }) ≡ step labels.now text.now at index (reading_of brackets.old) (drop at text.now)) }
    ensures within { IfOk result (λ piece. at + piece.more < length text.now) }
    ensures tidy { OnOk result (IsTidy brackets.new) }
{
    let piece = read_piece(alloc, labels, known, text, at, index, brackets)?;
    Ok(capped(piece, text.len() - at - 1))
}

/// Whether a text is one piece, of which each byte stands for itself.
pub fn is_quiet(text: &str) -> bool
    ensures { IsTrue result → (labels : List (List ℕ)) → cut_text labels text.now ≡ whole_text text.now }
{
    let bytes = text.as_bytes();
    if bytes.is_empty() {
        return false;
    }
    if quiet_len(bytes) < bytes.len() {
        return false;
    }
    if has_at(bytes) {
        return false;
    }
    !may_have_web(bytes)
}

/// The pieces of a text, with links to these definitions. No byte is lost, and each piece is a text of its own.
///
/// # Errors
///
/// Out of memory is the only error.
pub fn cut_text(alloc: Global, labels: &Labels, text: &str) -> Result<Inlines, AllocError>
    ensures cut { IfOk result (λ inlines. cut_of inlines ≡ cut_text labels.now text.now) }
    ensures placed { IfOk result (λ inlines. AreCut text.now 0 inlines.pieces.items) }
    ensures pairs { IfOk result (λ inlines. All (IsWithin (length inlines.pieces.items)) inlines.pairs.items) }
{
    let known = known_of(alloc, text.as_bytes())?;
    let mut brackets = Brackets::new(alloc);
    let mut pieces = Vec::with_capacity(alloc, 8)?;
    let mut at = 0;
    while at < text.len() {
        let piece = step(alloc, labels, &known, text, at, pieces.len(), &mut brackets)?;
        pieces.push(piece)?;
        at += piece.more + 1;
    }
    let pairs = brackets.finish(alloc)?;
    Ok(Inlines { pieces, pairs })
}
