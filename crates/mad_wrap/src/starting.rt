//! Where the lines of a wrap start.

ghost use Rattle.std.specs.Prelude.{◌≡◌, ◌≤◌, ◌<◌, ◌+◌, ◌∷◌, ◌++◌, [], OnOk, List, length, IfOk, MatchOption};
ghost use Rattle.mad_wrap.specs.Breaks.{total_width};
ghost use Rattle.mad_md.specs.Flagged.{flagged_text};
ghost use Rattle.mad_measure.specs.TokensLeft.{AreTokensLeft};
ghost use Rattle.mad_measure.specs.declared.tokens.Token.{Token};
ghost use Rattle.mad_wrap.specs.LeastWrap.{AreTokenized};
ghost use Rattle.mad_wrap.specs.LeastBound.{IsBound, AreChecked, AreStartsOf, AreFewest, AreCutStarts, IsFirstPast};
ghost use Rattle.mad_wrap.specs.LineRoom.{past_here};
ghost use Rattle.mad_wrap.specs.TokenLines.{ArePlacedStarts};
ghost use Rattle.mad_wrap.specs.WrapLines.{HasRoom};

use crate::clean_cut::clean_cut;
use crate::first_fit::{FirstFit, Put, left_after, left_of};
use crate::room::Room;
use mad_md::Compound;
use mad_measure::{Tokens, token_iter};
use std::alloc::{AllocError, Global};

/// Starts that show how many lines each fitting break of the compounds has at least.
///
/// They are the numbers of the tokens that begin the lines of the wrap. Where blanks are dropped after the last line, the first of
/// these is a start too. Of a clean cut they are 0 and the first token that passes the first line. They are those of a wrap in which
/// words may be parted, also in a room that keeps them whole: its wrap may have more lines.
///
/// The time is linear in the text. The only error is out of memory, which also answers a text of 2^64 tokens or more: only
/// overlapping slices can be one.
pub fn wrap_starts(
    alloc: Global,
    compounds: &[Compound],
    room: Room,
) -> Result<Vec<usize>, AllocError>
    ensures tokenized { IfOk result (λ _. AreTokenized room compounds.now) }
    ensures checked { IfOk result (λ starts. AreChecked room compounds.now starts.items) }
    ensures bound { IfOk result (λ starts. IsBound room compounds.now (length starts.items)) }
    ensures starts { IfOk result (λ starts. AreStartsOf room compounds.now starts.items) }
    ensures fewest { HasRoom room (flagged_text compounds.now) → IfOk result (λ starts. AreFewest room compounds.now starts.items) }
{
    let tokens = token_iter(compounds, room.token_limit());
    match clean_cut(compounds, room) {
        Some(_) => cut_starts(alloc, tokens, room),
        None => line_starts(alloc, tokens, room),
    }
}

// The starts of a clean cut: 0, and the first token with which the tokens pass the first line.
fn cut_starts(alloc: Global, tokens: Tokens, room: Room) -> Result<Vec<usize>, AllocError>
    ensures { IfOk result (λ starts. room.first ≤ room.width → (ts : List Token) × AreTokensLeft tokens.entry ts × AreCutStarts room ts starts.items) }
{
    let mut starts = Vec::new(alloc);
    starts.push(0)?;
    if let Some(i) = first_past(tokens, room)? {
        push_start(&mut starts, i)?;
    }
    Ok(starts)
}

// The tokens that begin the lines, and the first of the blanks that are dropped at the end.
fn line_starts(alloc: Global, tokens: Tokens, room: Room) -> Result<Vec<usize>, AllocError>
    ensures { IfOk result (λ starts. (ts : List Token) × AreTokensLeft tokens.entry ts × ArePlacedStarts room ts starts.items) }
{
    let mut starts = Vec::new(alloc);
    starts.push(0)?;
    let mut fit = FirstFit::new(room);
    // The first blank that was dropped after the line.
    let mut dropped: Option<usize> = None;
    let mut i: usize = 0;
    for token in tokens {
        let number = i;
        i = number_after(i)?;
        match fit.put(token) {
            Put::OnLine => {}
            Put::OnNext => {
                push_start(&mut starts, number)?;
                dropped = None;
            }
            Put::InGap => dropped = dropped.or(Some(number)),
        }
    }
    if let Some(first) = dropped {
        push_start(&mut starts, first)?;
    }
    Ok(starts)
}

// The first token with which the tokens from the first on pass the first line.
fn first_past(tokens: Tokens, room: Room) -> Result<Option<usize>, AllocError>
    ensures { IfOk result (λ past. (ts : List Token) × AreTokensLeft tokens.entry ts
        × MatchOption past (room.first ≤ room.width → room.first + total_width ts ≤ room.width) (IsFirstPast room ts)) }
{
    let mut past = None;
    let mut room_left = left_of(room.width, room.first);
    let mut i: usize = 0;
    for token in tokens {
        let number = i;
        i = number_after(i)?;
        room_left = left_after(room_left, token.width);
        past = past.or(past_here(room_left, number));
    }
    Ok(past)
}

// The next number. No machine counts so far, so past the last one the answer is out of memory.
fn number_after(number: usize) -> Result<usize, AllocError>
    ensures { IfOk result (λ next. next ≡ number + 1) }
{
    number.checked_add(1).ok_or(AllocError)
}

// This number where nothing is left.
fn past_here(room_left: Option<usize>, number: usize) -> Option<usize>
    ensures { result ≡ past_here room_left number }
{
    match room_left {
        None => Some(number),
        Some(_) => None,
    }
}

// Puts a start after the others. The very first token is a start already. Where there is no room for it, it begins the
// second line, and the first line has none.
fn push_start(starts: &mut Vec<usize>, start: usize) -> Result<(), AllocError>
    ensures { OnOk result ((0 < start → starts.new.items ≡ starts.old.items ++ start ∷ []) × (start ≡ 0 → starts.new.items ≡ starts.old.items)) }
{
    if start > 0 {
        starts.push(start)?;
    }
    Ok(())
}
