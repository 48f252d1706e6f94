//! Spans: tokens of a compound in a row that first fit puts alike.

ghost use Rattle.std.specs.Prelude.{◌≡◌, ◌≢◌, ℕ, ◌≤◌, ◌<◌, ◌+◌, ◌-◌, Some, false, true, length, IsTrue, ◌⊎◌, IfSome, MatchOption};
ghost use Rattle.std.specs.Str.{IsCharBoundary};
ghost use Rattle.mad_measure.specs.Chunks.{ArePlain, is_space_at};
ghost use Rattle.mad_wrap.specs.Spans.{IsSpan, IsFullAt, IsFullHere};
ghost use Rattle.mad_wrap.specs.declared.first_fit.Put.TheVariants.{OnLine, OnNext, InGap};

use crate::first_fit::{FirstFit, Put, left_of};
use crate::wide_tokens::quick_token_at;
use mad_md::Compound;
use mad_measure::chunk_end;

/// Tokens of a compound in a row that first fit puts alike.
#[derive(Clone, Copy)]
pub struct Span {
    /// Where the first of them is put; the others are on the line with it.
    pub put: Put,
    /// The byte of the compound at which the last of them ends.
    pub end: usize,
    /// First fit after them.
    pub after: FirstFit,
}

/// The tokens that begin at a byte of the compound and that first fit puts alike, one of them at least. Up to `plain` its bytes are
/// spaces and graphic ASCII characters: as many as fit are taken at once there.
pub fn next_span(fit: FirstFit, compound: Compound, at: usize, plain: usize, max: usize) -> Span
    requires inside { at < length compound.src.now }
    requires border { IsCharBoundary compound.src.now at }
    requires plain { ArePlain compound.src.now at plain }
    requires plain_inside { plain ≤ length compound.src.now }
    ensures { IsSpan max compound.entry at fit result }
{
    match quick_span(fit, compound, at, plain, max) {
        Some(span) => span,
        None => token_span(fit, compound, at, max),
    }
}

// The span of one token.
fn token_span(fit: FirstFit, compound: Compound, at: usize, max: usize) -> Span
    requires inside { at < length compound.src.now }
    requires border { IsCharBoundary compound.src.now at }
    ensures { IsSpan max compound.entry at fit result }
{
    let token = quick_token_at(compound, at, max);
    let mut after = fit;
    let put = after.put(token);
    Span {
        put,
        end: token.end_in_compound,
        after,
    }
}

// A span of plain bytes, where one is known.
fn quick_span(
    fit: FirstFit,
    compound: Compound,
    at: usize,
    plain: usize,
    max: usize,
) -> Option<Span>
    requires border { IsCharBoundary compound.src.now at }
    requires plain { ArePlain compound.src.now at plain }
    requires plain_inside { plain ≤ length compound.src.now }
    ensures { IfSome result (λ span. IsSpan max compound.entry at fit span) }
{
    match open_room(fit) {
        Some(left) => open_span(fit, left, compound, at, plain, max),
        None => ended_span(fit, compound, at, plain, max),
    }
}

// The columns that are left on a line that hasn't ended, if its tokens fit.
fn open_room(fit: FirstFit) -> Option<usize>
    ensures { MatchOption result ((n : ℕ) → IsFullAt fit n) (λ left. (fit.ended ≡ false) × (fit.room_left ≡ Some left)) }
{
    if fit.ended { None } else { fit.room_left }
}

// A span that begins on a line that has this room.
fn open_span(
    fit: FirstFit,
    left: usize,
    compound: Compound,
    at: usize,
    plain: usize,
    max: usize,
) -> Option<Span>
    requires border { IsCharBoundary compound.src.now at }
    requires plain { ArePlain compound.src.now at plain }
    requires plain_inside { plain ≤ length compound.src.now }
    requires has_room { fit.room_left ≡ Some left }
    requires is_open { fit.ended ≡ false }
    ensures { IfSome result (λ span. IsSpan max compound.entry at fit span) }
{
    let bytes = compound.src.as_bytes();
    let end = chunk_end(bytes, compound.code, at, plain, left);
    if at < end {
        return Some(span_on_line(fit, left, end, end - at));
    }
    if compound.code || at >= plain {
        return None;
    }
    if bytes[at] == b' ' {
        return if left == 0 {
            space_in_gap(fit, compound, at, plain)
        } else {
            None
        };
    }
    if left < max {
        return word_on_next(fit, compound, at, plain, max);
    }
    if max == 0 || plain - at <= max {
        return None;
    }
    Some(span_on_line(fit, left, at + max, max))
}

// A span after a line that takes no more.
fn ended_span(
    fit: FirstFit,
    compound: Compound,
    at: usize,
    plain: usize,
    max: usize,
) -> Option<Span>
    requires border { IsCharBoundary compound.src.now at }
    requires plain { ArePlain compound.src.now at plain }
    requires plain_inside { plain ≤ length compound.src.now }
    requires full { (n : ℕ) → IsFullAt fit n }
    ensures { IfSome result (λ span. IsSpan max compound.entry at fit span) }
{
    if compound.code || at >= plain {
        return None;
    }
    if compound.src.as_bytes()[at] == b' ' {
        return space_in_gap(fit, compound, at, plain);
    }
    word_on_next(fit, compound, at, plain, max)
}

// A span of one space that isn't taken, with a graphic character or the end after it.
fn space_in_gap(fit: FirstFit, compound: Compound, at: usize, plain: usize) -> Option<Span>
    requires border { IsCharBoundary compound.src.now at }
    requires plain { ArePlain compound.src.now at plain }
    requires plain_inside { plain ≤ length compound.src.now }
    requires inside { at < plain }
    requires space { is_space_at compound.src.now at ≡ true }
    requires uncoded { compound.code ≡ false }
    requires full { IsFullAt fit 1 }
    ensures { IfSome result (λ span. (max : ℕ) → IsSpan max compound.entry at fit span) }
{
    if !begins_word(compound.src.as_bytes(), at + 1, plain) {
        return None;
    }
    Some(Span {
        put: Put::InGap,
        end: at + 1,
        after: FirstFit { ended: true, ..fit },
    })
}

// Whether the text ends there, or has a graphic character there among its plain bytes.
fn begins_word(bytes: &[u8], at: usize, plain: usize) -> bool
    requires { plain ≤ length bytes.now }
    ensures { IsTrue result → (length bytes.now ≤ at) ⊎ ((at < plain) × (is_space_at bytes.now at ≡ false)) }
{
    at >= bytes.len() || (at < plain && bytes[at] != b' ')
}

// A span that begins the next line with a word, which isn't taken on this one.
fn word_on_next(
    fit: FirstFit,
    compound: Compound,
    at: usize,
    plain: usize,
    max: usize,
) -> Option<Span>
    requires border { IsCharBoundary compound.src.now at }
    requires plain { ArePlain compound.src.now at plain }
    requires plain_inside { plain ≤ length compound.src.now }
    requires inside { at < plain }
    requires graphic { is_space_at compound.src.now at ≡ false }
    requires uncoded { compound.code ≡ false }
    requires full { IsFullHere fit max compound.src.now at plain }
    ensures { IfSome result (λ span. IsSpan max compound.entry at fit span) }
{
    let full = left_of(fit.room.width, fit.room.other)?;
    let end = chunk_end(compound.src.as_bytes(), false, at, plain, full);
    if at < end {
        return Some(span_on_next(fit, full, end, end - at));
    }
    if max == 0 || full < max || plain - at <= max {
        return None;
    }
    Some(span_on_next(fit, full, at + max, max))
}

fn span_on_line(fit: FirstFit, left: usize, end: usize, width: usize) -> Span
    requires { width ≤ left }
    ensures { result ≡ record { put = OnLine; end = end; after = record fit { room_left = Some (left - width) } } }
{
    Span {
        put: Put::OnLine,
        end,
        after: FirstFit {
            room_left: Some(left - width),
            ..fit
        },
    }
}

fn span_on_next(fit: FirstFit, full: usize, end: usize, width: usize) -> Span
    requires { width ≤ full }
    ensures { result ≡ record { put = OnNext; end = end; after = record { room = fit.room; room_left = Some (full - width); ended = false } } }
{
    Span {
        put: Put::OnNext,
        end,
        after: FirstFit {
            room: fit.room,
            room_left: Some(full - width),
            ended: false,
        },
    }
}
