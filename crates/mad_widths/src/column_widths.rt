//! The widths of a table's columns, from what was seen of their cells: the three cases.

ghost use Rattle.std.specs.Prelude.{◌≡◌, ◌*◌, ◌^◌, ◌<◌, ◌≤◌, length, map, sum, IfOk, OnOk};
ghost use Rattle.mad_widths.specs.SeenCells.{needs_in};
ghost use Rattle.mad_widths.specs.Turns.{AreTurns, turn_of};
ghost use Rattle.mad_widths.specs.ColumnWidths.{natural_widths, IsHalfway, AreReduced};
ghost use Rattle.mad_widths.specs.TableFits.{IsFit};

use crate::sharing::{
    LEAST_COLUMN, SeenColumn, Turn, first_requests, give_up_in_turn, natural_widths,
    second_requests, total_width, turns_of,
};
use crate::tbl_fit::TblFitResult;
use std::alloc::{AllocError, Global};

/// The widths of the columns, which take at most `available` together.
pub fn fitted_widths(
    alloc: Global,
    columns: &[SeenColumn],
    available: usize,
) -> Result<TblFitResult, AllocError>
    requires wide_enough { 3 * length columns.now ≤ available }
    requires short { 4 * length columns.now < 2 ^ 64 }
    ensures { IfOk result (λ fitted. IsFit available (map needs_in columns.now) fitted) }
{
    let mut widths = natural_widths(alloc, columns)?;
    let total = total_width(&widths);
    if total <= available as u128 {
        return Ok(TblFitResult {
            reduced: false,
            col_widths: widths,
        });
    }
    if columns.len() == 1 {
        return Ok(TblFitResult {
            reduced: false,
            col_widths: vec![in alloc; available]?,
        });
    }
    reduce(alloc, columns, &mut widths, available, total)?;
    Ok(TblFitResult {
        reduced: true,
        col_widths: widths,
    })
}

// Takes what is more than `available` off the natural widths, whose sum is `total`.
fn reduce(
    alloc: Global,
    columns: &[SeenColumn],
    widths: &mut [usize],
    available: usize,
    total: u128,
) -> Result<(), AllocError>
    requires naturals { widths.old ≡ natural_widths (map needs_in columns.now) }
    requires total { total ≡ sum widths.old }
    requires excess { available < total }
    requires wide_enough { 3 * length columns.now ≤ available }
    requires short { 4 * length columns.now < 2 ^ 64 }
    ensures { OnOk result (AreReduced available (map needs_in columns.now) widths.new) }
{
    let turns = turns_of(alloc, widths)?;
    let left = first_step(alloc, columns, widths, &turns, available, total)?;
    second_step(alloc, columns, widths, &turns, available, left)
}

// The first step, from the natural widths, whose sum is `total`. It answers what is left of the excess.
fn first_step(
    alloc: Global,
    columns: &[SeenColumn],
    widths: &mut [usize],
    turns: &[Turn],
    available: usize,
    total: u128,
) -> Result<u128, AllocError>
    requires naturals { widths.old ≡ natural_widths (map needs_in columns.now) }
    requires turns { AreTurns (natural_widths (map needs_in columns.now)) (map turn_of turns.now) }
    requires total { total ≡ sum widths.old }
    requires excess { available < total }
    requires short { 4 * length columns.now < 2 ^ 64 }
    ensures { IfOk result (λ left. IsHalfway available left (map needs_in columns.now) widths.new) }
{
    let excess = total - available as u128;
    let mut requests = first_requests(alloc, columns, excess)?;
    Ok(give_up_in_turn(widths, &mut requests, turns, excess))
}

// The second step, which takes off the widths what the first left of the excess.
fn second_step(
    alloc: Global,
    columns: &[SeenColumn],
    widths: &mut [usize],
    turns: &[Turn],
    available: usize,
    left: u128,
) -> Result<(), AllocError>
    requires halfway { IsHalfway available left (map needs_in columns.now) widths.old }
    requires turns { AreTurns (natural_widths (map needs_in columns.now)) (map turn_of turns.now) }
    requires wide_enough { 3 * length columns.now ≤ available }
    ensures { OnOk result (AreReduced available (map needs_in columns.now) widths.new) }
{
    if left == 0 {
        return Ok(());
    }
    let kept = available - LEAST_COLUMN * columns.len();
    let mut requests = second_requests(alloc, widths, kept)?;
    let _ = give_up_in_turn(widths, &mut requests, turns, left);
    Ok(())
}
