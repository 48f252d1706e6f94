//! The spans that begin at each piece.

ghost use Rattle.std.specs.Prelude.{◌≡◌, ◌<◌, ◌∷◌, ◌++◌, [], ℕ, IfOk, OnOk, length, map, set};
ghost use Rattle.markdown_inline_events.specs.Lists.{spans_at, spans_in};
ghost use Rattle.markdown_inline_events.specs.Spans.{begun};

use crate::spans::Span;
use std::alloc::{AllocError, Global};

// So many empty lists.
#[tactic(auto, using(crate::proofs::ListLemmas::none_more))]
fn empty_lists(alloc: Global, count: usize) -> Result<Vec<Vec<Span>>, AllocError>
    ensures size { IfOk result (λ lists. length lists.items ≡ count) }
    ensures none { IfOk result (λ lists. (k : ℕ) → spans_at lists.items k ≡ []) }
{
    let mut lists = Vec::with_capacity(alloc, count)?;
    while lists.len() < count {
        lists.push(Vec::new(alloc))?;
    }
    Ok(lists)
}

// Adds a span to the list of this index, if there is one.
fn push_at(lists: &mut [Vec<Span>], index: usize, span: Span) -> Result<(), AllocError>
    ensures size { length lists.new ≡ length lists.old }
    ensures pushed { OnOk result (map spans_in lists.new ≡ set (map spans_in lists.old) index (spans_at lists.old index ++ span ∷ [])) }
{
    if index < lists.len() {
        lists[index].push(span)?;
    }
    Ok(())
}

/// The spans that begin at each of so many pieces, the outermost first.
///
/// # Errors
///
/// Out of memory is the only error.
pub(crate) fn begun_lists(
    alloc: Global,
    spans: &[Span],
    count: usize,
) -> Result<Vec<Vec<Span>>, AllocError>
    ensures size { IfOk result (λ lists. length lists.items ≡ count) }
    ensures lists { IfOk result (λ lists. (k : ℕ) → k < count → spans_at lists.items k ≡ begun spans.now k) }
{
    let mut lists = empty_lists(alloc, count)?;
    let mut index = spans.len();
    while index > 0 {
        index -= 1;
        let span = spans[index];
        push_at(&mut lists, span.opener, span)?;
    }
    Ok(lists)
}
