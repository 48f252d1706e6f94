//! Compounds that fit on a line each.

ghost use Rattle.std.specs.Prelude.{◌≡◌, IfSome, IsTrue, if◌then◌else◌};
ghost use Rattle.std.specs.Str.{IsUtf8};
ghost use Rattle.mad_wrap.specs.CleanCut.{clean_cut, fits_after, is_white, both_fit, AreTexts};

use crate::room::Room;
use mad_md::Compound;
use mad_measure::columns_within;

/// The two compounds that a clean cut puts on a line each, where one is made.
///
/// They are two compounds, or the outer ones of three with whitespace between them. The first fits on the first line, and
/// the last on another.
pub(crate) fn clean_cut<'s>(
    compounds: &[Compound<'s>],
    room: Room,
) -> Option<(Compound<'s>, Compound<'s>)>
    ensures value { result ≡ clean_cut room compounds.now }
    ensures texts { IfSome result (λ _. AreTexts compounds.now) }
{
    match compounds {
        [front, back] => if_both_fit(front, back, room),
        [front, middle, back] if is_white(middle) => if_both_fit(front, back, room),
        _ => None,
    }
}

// These two compounds, if both fit.
fn if_both_fit<'s>(
    front: &Compound<'s>,
    back: &Compound<'s>,
    room: Room,
) -> Option<(Compound<'s>, Compound<'s>)>
    ensures value { result ≡ (if both_fit room front.now back.now then Some (front.now, back.now) else None) }
    ensures texts { IfSome result (λ _. IsUtf8 front.now.src.now × IsUtf8 back.now.src.now) }
{
    both_fit(front, back, room).then_some((*front, *back))
}

fn both_fit(front: &Compound, back: &Compound, room: Room) -> bool
    ensures value { result ≡ both_fit room front.now back.now }
    ensures texts { IsTrue result → IsUtf8 front.now.src.now × IsUtf8 back.now.src.now }
{
    fits_after(room.first, room.width, front) && fits_after(room.other, room.width, back)
}

fn fits_after(indent: usize, width: usize, compound: &Compound) -> bool
    ensures value { result ≡ fits_after indent width compound.now }
    ensures text { IsTrue result → IsUtf8 compound.now.src.now }
{
    match width.checked_sub(indent) {
        Some(room_left) => columns_within(compound.src, room_left).is_some(),
        None => false,
    }
}

fn is_white(compound: &Compound) -> bool
    ensures value { result ≡ is_white compound.now }
    ensures text { IsUtf8 compound.now.src.now }
{
    compound.src.chars().all(|c| c.is_whitespace())
}
