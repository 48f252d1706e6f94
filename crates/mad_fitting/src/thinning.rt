//! Cutting the widest parts in the middle.
//!
//! Each cut but the last takes all of a part but its first and last character, so what is left of it is not cut again. So by how much
//! each part is cut is known at the beginning, and one pass makes all cuts.

ghost use Rattle.std.specs.Prelude.{◌≡◌, IfOk};
ghost use Rattle.mad_fitting.specs.Thinning.{IsThinned};
ghost use Rattle.mad_fitting.specs.Turns.{IsCutInTurn, still_too_many};

use crate::gains::Parts;
use crate::sweeping::cut_in_turn;
use crate::turns::Turns;
use mad_md::Compound;
use std::alloc::AllocError;

/// Cuts parts in the middle while `excess` columns are too many, the widest first and of equals the last. It answers how many are
/// too many then.
pub(crate) fn cut_parts(
    compounds: &mut Vec<Compound>,
    kind: Parts,
    excess: u128,
) -> Result<u128, AllocError>
    ensures thinned { IfOk result (λ left. IsThinned excess compounds.old.items compounds.new.items left) }
    ensures turns { IfOk result (λ _. IsCutInTurn kind excess compounds.old.items compounds.new.items) }
    ensures left { IfOk result (λ left. left ≡ still_too_many excess compounds.old.items compounds.new.items) }
{
    if excess == 0 {
        return Ok(0);
    }
    let alloc = *compounds.allocator();
    let turns = Turns::new(alloc, compounds, kind, excess)?;
    let swept = cut_in_turn(alloc, compounds, kind, &turns)?;
    let left = swept.left;
    *compounds = swept.compounds;
    Ok(left)
}
