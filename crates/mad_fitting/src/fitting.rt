//! Fitting by an alignment.

ghost use Rattle.std.specs.Prelude.{◌∷◌, [], ◌≡◌, ◌≤◌, ◌<◌, ◌+◌, ◌^◌, ◌-◌, ◌/◌, IfOk};
ghost use Rattle.mad_md.specs.Flagged.{flagged_text};
ghost use Rattle.mad_md.specs.declared.compound.Compound.{Compound};
ghost use Rattle.mad_measure.specs.TextColumns.{width_of};
ghost use Rattle.mad_fitting.specs.Fitted.{IsFitted};
ghost use Rattle.mad_fitting.specs.Ellipses.{IsEllipsis};
ghost use Rattle.mad_fitting.specs.Thinning.{IsCutInside};
ghost use Rattle.mad_fitting.specs.Turns.{IsCutDown, IsReplacedAs};
ghost use Rattle.mad_fitting.specs.Shortening.{IsEndReplaced, IsFrontReplaced, AreBothReplaced};

use crate::ellipses::ellipsis;
use crate::gains::Parts;
use crate::measuring::excess_columns;
use crate::shortening::{without_end, without_front};
use crate::thinning::cut_parts;
use mad_md::{Alignment, Compound};
use std::alloc::{AllocError, Global};

/// The compounds fitted to a width, behind an indent that is a part of it.
///
/// Those that fit stay. Else an ellipsis is put in place of what goes: at the end of what is aligned left, at the front of what is aligned
/// right, at both ends of what is centered. Without alignment the widest words are cut in the middle, then the widest compounds, and only
/// then the end goes.
///
/// # Errors
///
/// Out of memory is the only error.
pub fn fit_compounds<'s>(
    alloc: Global,
    compounds: &[Compound<'s>],
    indent: usize,
    width: usize,
    align: Alignment,
) -> Result<Vec<Compound<'s>>, AllocError>
    ensures fits { indent + width_of (flagged_text compounds.now) ≤ width → IfOk result (λ fitted. fitted.items ≡ compounds.now) }
    ensures fitted { width < indent + width_of (flagged_text compounds.now) → IfOk result (λ fitted. IsFitted align indent width compounds.now fitted.items) }

    // How that is, exactly, at each width but 0 and 1.
    ensures replaced { 2 ≤ width → width < indent + width_of (flagged_text compounds.now) → IfOk result (λ fitted. IsReplacedAs align (indent + width_of (flagged_text compounds.now) - width) compounds.now fitted.items) }
{
    let excess = excess_columns(compounds, indent, width);
    if excess == 0 {
        return compounds.to_vec(alloc);
    }
    match width {
        0 => Ok(Vec::new(alloc)),
        1 => only_ellipsis(alloc),
        _ => match align {
            Alignment::Unspecified => fit_inside(alloc, compounds, excess),
            Alignment::Left => fit_end(alloc, compounds, excess),
            Alignment::Center => fit_both(alloc, compounds, excess),
            Alignment::Right => fit_front(alloc, compounds, excess),
        },
    }
}

fn only_ellipsis<'s>(alloc: Global) -> Result<Vec<Compound<'s>>, AllocError>
    ensures { IfOk result (λ fitted. (e : Compound) × (fitted.items ≡ e ∷ []) × IsEllipsis e) }
{
    let mut fitted = Vec::new(alloc);
    fitted.push(ellipsis())?;
    Ok(fitted)
}

// With an ellipsis in place of the end.
fn fit_end<'s>(
    alloc: Global,
    compounds: &[Compound<'s>],
    excess: u128,
) -> Result<Vec<Compound<'s>>, AllocError>
    requires { excess + 1 < 2 ^ 128 }
    ensures { IfOk result (λ fitted. IsEndReplaced (excess + 1) compounds.now fitted.items) }
{
    let mut fitted = without_end(alloc, compounds, excess + 1)?;
    fitted.push(ellipsis())?;
    Ok(fitted)
}

// With an ellipsis in place of the front.
fn fit_front<'s>(
    alloc: Global,
    compounds: &[Compound<'s>],
    excess: u128,
) -> Result<Vec<Compound<'s>>, AllocError>
    requires { excess + 1 < 2 ^ 128 }
    ensures { IfOk result (λ fitted. IsFrontReplaced (excess + 1) compounds.now fitted.items) }
{
    let mut fitted = without_front(alloc, compounds, excess + 1)?;
    fitted.insert(0, ellipsis())?;
    Ok(fitted)
}

// With an ellipsis in place of both ends, each with half of the columns that are too many; of the end alone, if that is one.
fn fit_both<'s>(
    alloc: Global,
    compounds: &[Compound<'s>],
    excess: u128,
) -> Result<Vec<Compound<'s>>, AllocError>
    requires { excess + 1 < 2 ^ 128 }
    ensures one { excess / 2 ≡ 0 → IfOk result (λ fitted. IsEndReplaced (excess + 1) compounds.now fitted.items) }
    ensures more { 0 < excess / 2 → IfOk result (λ fitted. AreBothReplaced (excess / 2 + 1) (excess - excess / 2 + 1) compounds.now fitted.items) }
{
    let half = excess / 2;
    if half == 0 {
        return fit_end(alloc, compounds, excess);
    }
    let back = without_front(alloc, compounds, half + 1)?;
    let mut fitted = fit_end(alloc, &back, excess - half)?;
    fitted.insert(0, ellipsis())?;
    Ok(fitted)
}

// With ellipses inside the widest words, then the widest compounds; where that isn't enough, in place of the end too.
fn fit_inside<'s>(
    alloc: Global,
    compounds: &[Compound<'s>],
    excess: u128,
) -> Result<Vec<Compound<'s>>, AllocError>
    requires { excess + 1 < 2 ^ 128 }
    ensures inside { IfOk result (λ fitted. IsCutInside excess compounds.now fitted.items) }
    ensures down { IfOk result (λ fitted. IsCutDown excess compounds.now fitted.items) }
{
    let mut fitted = compounds.to_vec(alloc)?;
    let left = cut_parts(&mut fitted, Parts::Runs, excess)?;
    let left = cut_parts(&mut fitted, Parts::Wholes, left)?;
    if left == 0 {
        return Ok(fitted);
    }
    fit_end(alloc, &fitted, left)
}
