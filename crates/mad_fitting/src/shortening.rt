//! Compounds without a front or an end.

ghost use Rattle.std.specs.Prelude.{◌≤◌, length, IfOk, OnOk};
ghost use Rattle.std.specs.Str.{IsCharBoundary};
ghost use Rattle.mad_fitting.specs.Pieces.{AddsPart};
ghost use Rattle.mad_fitting.specs.Shortening.{IsFrontWithin, LosesEnd, LosesFront};

use crate::fronts::{longest_front, shortest_front};
use crate::measuring::total_columns;
use mad_md::Compound;
use std::alloc::{AllocError, Global};

/// The compounds without their shortest end of at least `least` columns; none where they have fewer.
pub(crate) fn without_end<'s>(
    alloc: Global,
    compounds: &[Compound<'s>],
    least: u128,
) -> Result<Vec<Compound<'s>>, AllocError>
    ensures { IfOk result (λ kept. LosesEnd least compounds.now kept.items) }
{
    match total_columns(compounds).checked_sub(least) {
        Some(most) => front_within(alloc, compounds, most),
        None => Ok(Vec::new(alloc)),
    }
}

// The longest front of the compounds that takes at most `most` columns.
fn front_within<'s>(
    alloc: Global,
    compounds: &[Compound<'s>],
    most: u128,
) -> Result<Vec<Compound<'s>>, AllocError>
    ensures { IfOk result (λ kept. IsFrontWithin most compounds.now kept.items) }
{
    let mut kept = Vec::new(alloc);
    let mut left = most;
    for compound in compounds {
        let front = longest_front(compound.src, left);
        push_part(&mut kept, *compound, 0, front.bytes)?;
        if front.bytes < compound.src.len() {
            return Ok(kept);
        }
        left -= front.columns as u128;
    }
    Ok(kept)
}

/// The compounds without their shortest front of at least `least` columns; none where they have fewer.
pub(crate) fn without_front<'s>(
    alloc: Global,
    compounds: &[Compound<'s>],
    least: u128,
) -> Result<Vec<Compound<'s>>, AllocError>
    ensures { IfOk result (λ kept. LosesFront least compounds.now kept.items) }
{
    let mut kept = Vec::new(alloc);
    let mut left = least;
    for compound in compounds {
        let front = shortest_front(compound.src, left);
        push_part(&mut kept, *compound, front.bytes, compound.src.len())?;
        left = left.saturating_sub(front.columns as u128);
    }
    Ok(kept)
}

/// Adds a part of the compound to the list, unless it is empty.
pub(crate) fn push_part<'s>(
    list: &mut Vec<Compound<'s>>,
    compound: Compound<'s>,
    start: usize,
    end: usize,
) -> Result<(), AllocError>
    requires order { start ≤ end }
    requires start { IsCharBoundary compound.src.now start }
    requires end { IsCharBoundary compound.src.now end }
    ensures { OnOk result (AddsPart compound.entry start end list.old.items list.new.items) }
{
    if start < end {
        list.push(compound.sub(start, end))?;
    }
    Ok(())
}
