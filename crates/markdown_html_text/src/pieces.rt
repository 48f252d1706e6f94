//! The pieces of html, which are shown as those of a line are.

ghost use Rattle.std.specs.Prelude.{◌≡◌, ◌≤◌, IfOk, length};
ghost use Rattle.std.specs.List.{prefix_len};
ghost use Rattle.markdown_marks.specs.Definitions.{is_space_byte};
ghost use Rattle.markdown_spans.specs.Entities.{entity_of};
ghost use Rattle.markdown_pieces.specs.Places.{AreCut};
ghost use Rattle.markdown_html_text.specs.Markup.{markup_of};
ghost use Rattle.markdown_html_text.specs.HtmlPieces.{fresh, texted, Step, step_of, gap_kind, gap_step, cut_kind, is_image, effect_step, markup_step, entity_step, is_text_byte, step_by, step, html_pieces};

use crate::markup::{Effect, markup_of};
use markdown_marks::definitions::is_space_byte;
use markdown_pieces::pieces::{Kind, Piece, piece_of};
use markdown_spans::attributes::Html;
use markdown_spans::entities::entity_of;
use markdown_spans::words::bytes_from;
use std::alloc::{AllocError, Global};

/// What a row of html has so far.
#[derive(Debug, Clone, Copy)]
pub struct HtmlRow {
    /// Whether anything of it is shown.
    pub begun: bool,
    /// Whether a space is behind that.
    pub gapped: bool,
}

fn fresh() -> HtmlRow
    ensures { result ≡ fresh }
{
    HtmlRow {
        begun: false,
        gapped: false,
    }
}

fn texted() -> HtmlRow
    ensures { result ≡ texted }
{
    HtmlRow {
        begun: true,
        gapped: false,
    }
}

// What blanks are: one space between words.
fn gap_kind(row: HtmlRow) -> Kind
    ensures { result ≡ gap_kind row }
{
    if row.begun && !row.gapped {
        Kind::Soft
    } else {
        Kind::Html(Html::Nothing)
    }
}

fn gap_step(more: usize, row: HtmlRow) -> (Piece, HtmlRow)
    ensures piece { result.0 ≡ (gap_step more row).piece }
    ensures row { result.1 ≡ (gap_step more row).row }
{
    let behind = HtmlRow {
        begun: row.begun,
        gapped: row.begun,
    };
    (piece_of(gap_kind(row), more), behind)
}

// What the end of a row is: nothing, where nothing of it is shown.
fn cut_kind(row: HtmlRow) -> Kind
    ensures { result ≡ cut_kind row }
{
    if row.begun {
        Kind::Hard
    } else {
        Kind::Html(Html::Nothing)
    }
}

fn is_image(html: Html) -> bool
    ensures { result ≡ is_image html }
{
    matches!(html, Html::Alternative(_) | Html::Source(_))
}

// Markup, which has so many bytes after its sign `<`.
fn effect_step(effect: Effect, more: usize, row: HtmlRow) -> (Piece, HtmlRow)
    ensures piece { result.0 ≡ (effect_step effect more row).piece }
    ensures row { result.1 ≡ (effect_step effect more row).row }
{
    match effect {
        Effect::Gap => gap_step(more, row),
        Effect::Cut => (piece_of(cut_kind(row), more), fresh()),
        Effect::Say(html) => {
            let behind = if is_image(html) { texted() } else { row };
            (piece_of(Kind::Html(html), more), behind)
        }
    }
}

// A sign `<`, after which these bytes are.
fn markup_step(bytes: &[u8], row: HtmlRow) -> (Piece, HtmlRow)
    ensures piece { result.0 ≡ (markup_step (markup_of bytes.now) row).piece }
    ensures row { result.1 ≡ (markup_step (markup_of bytes.now) row).row }
{
    match markup_of(bytes) {
        None => (piece_of(Kind::Plain, 0), texted()),
        Some(markup) => effect_step(markup.effect, markup.len, row),
    }
}

// A sign `&`, after which these bytes are.
fn entity_step(bytes: &[u8]) -> (Piece, HtmlRow)
    ensures piece { result.0 ≡ (entity_step (entity_of bytes.now)).piece }
    ensures row { result.1 ≡ (entity_step (entity_of bytes.now)).row }
{
    match entity_of(bytes) {
        None => (piece_of(Kind::Plain, 0), texted()),
        Some(entity) => {
            let kind = Kind::Shown(entity.shown, entity.second);
            (piece_of(kind, entity.len), texted())
        }
    }
}

fn is_text_byte(b: u8) -> bool
    ensures { result ≡ is_text_byte b }
{
    !(is_space_byte(b) || b == b'<' || b == b'&')
}

// How many blanks are in front.
fn blanks_len(bytes: &[u8]) -> usize
    ensures value { result ≡ prefix_len is_space_byte bytes.now }
    ensures within { result ≤ length bytes.now }
{
    let mut i = 0;
    while i < bytes.len() && is_space_byte(bytes[i]) {
        i += 1;
    }
    i
}

// How many bytes in front stand for themselves.
fn text_len(bytes: &[u8]) -> usize
    ensures value { result ≡ prefix_len is_text_byte bytes.now }
    ensures within { result ≤ length bytes.now }
{
    let mut i = 0;
    while i < bytes.len() && is_text_byte(bytes[i]) {
        i += 1;
    }
    i
}

// The piece that begins with a byte, after which these are.
fn step_by(b: u8, next: &[u8], row: HtmlRow) -> (Piece, HtmlRow)
    ensures piece { result.0 ≡ (step_by b next.now row).piece }
    ensures row { result.1 ≡ (step_by b next.now row).row }
{
    if b == b'<' {
        return markup_step(next, row);
    }
    if b == b'&' {
        return entity_step(next);
    }
    if is_space_byte(b) {
        return gap_step(blanks_len(next), row);
    }
    (piece_of(Kind::Plain, text_len(next)), texted())
}

// The same, with no more bytes than are left.
#[tactic(auto, unfolding(crate::specs::HtmlPieces::step))]
fn step(b: u8, next: &[u8], row: HtmlRow) -> (Piece, HtmlRow)
    ensures piece { result.0 ≡ (step b next.now row).piece }
    ensures row { result.1 ≡ (step b next.now row).row }
{
    let (piece, behind) = step_by(b, next, row);
    (piece_of(piece.kind, piece.more.min(next.len())), behind)
}

/// The pieces of a text of html. Tags are left out, and those of blocks, `br` and `pre` end a row; comments, instructions, CDATA sections, declarations,
/// scripts and style sheets are nothing. Blanks that meet are one space, and none is in front of a row. A row of which nothing is shown doesn't end.
///
/// # Errors
///
/// Out of memory is the only error.
pub fn html_pieces(alloc: Global, text: &str) -> Result<Vec<Piece>, AllocError>
    ensures pieces { IfOk result (λ pieces. pieces.items ≡ html_pieces text.now) }
    ensures cut { IfOk result (λ pieces. AreCut text.now 0 pieces.items) }
{
    let mut pieces = Vec::new(alloc);
    let mut row = fresh();
    let mut rest = text.as_bytes();
    while let [b, next @ ..] = rest {
        let (piece, behind) = step(*b, next, row);
        pieces.push(piece)?;
        row = behind;
        rest = bytes_from(next, piece.more);
    }
    Ok(pieces)
}
