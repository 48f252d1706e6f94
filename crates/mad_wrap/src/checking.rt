//! Checking where the lines of a wrap start.

ghost use Rattle.std.specs.Prelude.{◌≡◌, ◌≢◌, ℕ, ◌<◌, ◌≤◌, ◌^◌, ◌⊎◌, ◌==◌, ◌&&◌, List, ◌∷◌, length, IsTrue, IfSome, IfNone};
ghost use Rattle.mad_measure.specs.declared.tokens.Token.{Token};
ghost use Rattle.mad_measure.specs.TokensLeft.{AreTokensLeft};
ghost use Rattle.mad_wrap.specs.Bounds.{are_starts, are_starts_from};
ghost use Rattle.mad_wrap.specs.LeastBound.{IsBound};
ghost use Rattle.mad_wrap.specs.LineRoom.{is_right};
ghost use Rattle.mad_wrap.specs.declared.room.Room.{Room};
ghost use Rattle.mad_wrap.specs.LeastWrap.{AreTokensIn, AreTokenized};

use crate::first_fit::{left_after, left_of, left_of_next};
use crate::room::Room;
use mad_md::Compound;
use mad_measure::{Tokens, token_iter};

/// Whether these starts show that each fitting break of the compounds has at least as many lines. Other starts may be right
/// too, and are not shown to be by this check.
///
/// They show it where
///
/// - the first is 0, and each is greater than the one before;
/// - each numbers a token, as 0 always does;
/// - each but the first and the last numbers one that isn't blank;
/// - the tokens from each up to and with the next are wider than their line.
///
/// It takes no memory. The time is linear in the text.
pub fn check_starts(compounds: &[Compound], room: Room, starts: &[usize]) -> bool
    ensures tokenized { AreTokenized room compounds.now }
    ensures exact { (ts : List Token) → AreTokensIn room compounds.now ts → result ≡ are_starts room ts starts.now }
    ensures bound { IsTrue result → IsBound room compounds.now (length starts.now) }
{
    let tokens = token_iter(compounds, room.token_limit());
    check(tokens, room, starts)
}

// Whether the starts begin with 0, and those after the first.
fn first_and_others(starts: &[usize]) -> (bool, &[usize])
    ensures { (r : Room) (ts : List Token) → are_starts r ts starts.now ≡ result.0 && are_starts_from r.first r ts 0 result.1.now }
{
    match starts {
        [] => (false, starts),
        [first, others @ ..] => (*first == 0, others),
    }
}

// Checks the starts as the tokens come.
fn check(tokens: Tokens, room: Room, starts: &[usize]) -> bool
    ensures { (ts : List Token) × AreTokensLeft tokens.entry ts × (result ≡ are_starts room ts starts.now) }
{
    // The starts that haven't been met, and the one before them.
    let (mut holds, mut others) = first_and_others(starts);
    let mut start = 0;
    let mut number: usize = 0;
    let mut room_left = left_of(room.width, room.first);
    for token in tokens {
        let here = number;
        number = number.saturating_add(1);
        let after = left_after(room_left, token.width);
        let Some(rest) = met(others, here, start) else {
            room_left = after;
            continue;
        };
        holds = is_right(holds, after, rest, token.blank);
        room_left = left_of_next(room, token.width);
        start = here;
        others = rest;
    }
    is_done(holds, others)
}

// The starts after the next one, if that is this number and comes after the last.
fn met(others: &[usize], number: usize, start: usize) -> Option<&[usize]>
    ensures some { IfSome result (λ rest. (others.now ≡ number ∷ rest.now) × (start < number)) }
    ensures none { IfNone result ((n : ℕ) (ns : List ℕ) → others.now ≡ n ∷ ns → (n < 2 ^ 64) × ((n ≢ number) ⊎ (n ≤ start))) }
{
    match others {
        [next, rest @ ..] if *next == number && *next > start => Some(rest),
        _ => None,
    }
}

fn is_right(holds: bool, after: Option<usize>, rest: &[usize], blank: bool) -> bool
    ensures { result ≡ holds && is_right after (length rest.now == 0) blank }
{
    match after {
        None => holds && (rest.is_empty() || !blank),
        Some(_) => false,
    }
}

fn is_done(holds: bool, others: &[usize]) -> bool
    ensures { result ≡ holds && (length others.now == 0) }
{
    holds && others.is_empty()
}
