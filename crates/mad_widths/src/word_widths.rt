//! Columns that are no narrower than their longest words, where these fit together.

ghost use Rattle.std.specs.Prelude.{◌≡◌, ℕ, ◌+◌, ◌-◌, ◌*◌, ◌^◌, ◌<◌, ◌≤◌, length, map, sum, slice_index, IfOk, OnOk};
ghost use Rattle.mad_widths.specs.SeenCells.{needs_in};
ghost use Rattle.mad_widths.specs.Turns.{grants};
ghost use Rattle.mad_widths.specs.ColumnWidths.{natural_widths, narrowed, second_requests};
ghost use Rattle.mad_widths.specs.WordWidths.{least_widths, raised, counted_from, AreRaised, AreGivenUp, IsWordFit};

use crate::column_widths::fitted_widths;
use crate::sharing::{
    LEAST_COLUMN, SeenColumn, give_up_in_turn, natural_widths, second_requests, total_width,
    turns_of,
};
use crate::tbl_fit::TblFitResult;
use std::alloc::{AllocError, Global};

/// As `fitted_widths`, but no column is narrower than its longest word where the longest words of all columns fit together.
/// `words` has seen the longest words of the columns' cells.
pub fn fitted_to_words(
    alloc: Global,
    columns: &[SeenColumn],
    words: &[SeenColumn],
    available: usize,
) -> Result<TblFitResult, AllocError>
    requires wide_enough { 3 * length columns.now ≤ available }
    requires short { 4 * length columns.now < 2 ^ 64 }
    ensures { IfOk result (λ fitted. IsWordFit available (map needs_in columns.now) (least_widths (natural_widths (map needs_in columns.now)) (natural_widths (map needs_in words.now))) fitted) }
{
    let TblFitResult {
        reduced,
        mut col_widths,
    } = fitted_widths(alloc, columns, available)?;
    let least = least_widths(alloc, columns, words)?;
    if total_width(&least) > available as u128 {
        return Ok(TblFitResult {
            reduced,
            col_widths,
        });
    }
    raise(&mut col_widths, &least);
    give_up_excess(alloc, columns, &mut col_widths, &least, available)?;
    Ok(TblFitResult {
        reduced,
        col_widths,
    })
}

// The least width of each column.
fn least_widths(
    alloc: Global,
    columns: &[SeenColumn],
    words: &[SeenColumn],
) -> Result<Vec<usize>, AllocError>
    ensures { IfOk result (λ least. least.items ≡ least_widths (natural_widths (map needs_in columns.now)) (natural_widths (map needs_in words.now))) }
{
    let mut least = natural_widths(alloc, columns)?;
    let words = natural_widths(alloc, words)?;
    lower(&mut least, &words);
    Ok(least)
}

// Lowers each width to its column's longest word, if it is more.
fn lower(widths: &mut [usize], words: &[usize])
    ensures { widths.new ≡ least_widths widths.old words.now }
{
    let count = widths.len().min(words.len());
    for column in 0..count {
        widths[column] = widths[column].min(words[column]);
    }
}

// Raises each width to its column's least width, if it is less.
fn raise(widths: &mut [usize], least: &[usize])
    requires { length least.now ≡ length widths.old }
    ensures { widths.new ≡ raised widths.old least.now }
{
    for (column, width) in least.iter().enumerate() {
        widths[column] = widths[column].max(*width);
    }
}

// Counts each width with its column's least width as three.
fn count_from(widths: &mut [usize], least: &[usize])
    requires { AreRaised widths.old least.now }
    ensures { widths.new ≡ counted_from widths.old least.now }
{
    for (column, width) in least.iter().enumerate() {
        widths[column] -= *width - LEAST_COLUMN;
    }
}

// What each column requests to give up of what the widths are more than `available` together. The least widths fit together.
fn word_requests(
    alloc: Global,
    widths: &[usize],
    least: &[usize],
    available: usize,
) -> Result<Vec<usize>, AllocError>
    requires raised { AreRaised widths.now least.now }
    requires fits { sum least.now ≤ available }
    requires excess { available < sum widths.now }
    ensures { IfOk result (λ requests. requests.items ≡ second_requests (sum widths.now - available) (counted_from widths.now least.now)) }
{
    let mut counted = widths.to_vec(alloc)?;
    count_from(&mut counted, least);
    let kept = available - total_width(least) as usize;
    second_requests(alloc, &counted, kept)
}

// Takes off the widths what they are more than `available` together, down to their least widths, which fit together.
fn give_up_excess(
    alloc: Global,
    columns: &[SeenColumn],
    widths: &mut [usize],
    least: &[usize],
    available: usize,
) -> Result<(), AllocError>
    requires count { length widths.old ≡ length columns.now }
    requires raised { AreRaised widths.old least.now }
    requires fits { sum least.now ≤ available }
    ensures { OnOk result (AreGivenUp available (natural_widths (map needs_in columns.now)) widths.old least.now widths.new) }
{
    let total = total_width(widths);
    if total <= available as u128 {
        return Ok(());
    }
    let mut requests = word_requests(alloc, widths, least, available)?;
    let turns = turns_of(alloc, &natural_widths(alloc, columns)?)?;
    let _ = give_up_in_turn(widths, &mut requests, &turns, total - available as u128);
    Ok(())
}
