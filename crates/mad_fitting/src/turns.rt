//! In which order parts are cut, and by how much each is.

ghost use Rattle.std.specs.Prelude.{◌≡◌, ◌+◌, ◌-◌, ◌<◌, ◌≤◌, ◌∷◌, List, if◌then◌else◌, length, max, IfOk};
ghost use Rattle.std.specs.List.{AllByRecursion};
ghost use Rattle.mad_fitting.specs.Order.{AreTurns, IsLast, amount_of};
ghost use Rattle.mad_fitting.specs.Parts.{AreGains, gained, is_before, weight};

use crate::gains::{Gain, Parts, gains_of};
use crate::parts::usize_or_most;
use mad_md::Compound;
use std::alloc::{AllocError, Global};

/// The turns in which the parts of compounds are cut, where so many columns are too many: the widest first, and of equals the last.
#[derive(Drop)]
pub(crate) struct Turns {
    excess: u128,
    gains: Vec<Gain>,
    last: Option<Last>,
}

/// The part that is cut last: the first that gains enough, or nothing.
#[derive(Clone, Copy)]
pub(crate) struct Last {
    columns: usize,
    number: usize,
    // How many columns are still too many then.
    left: u128,
}

impl Turns {
    /// Of the parts of the compounds.
    pub(crate) fn new(
        alloc: Global,
        compounds: &[Compound],
        kind: Parts,
        excess: u128,
    ) -> Result<Self, AllocError>
        requires { 0 < excess }
        ensures turns { IfOk result AreTurns }
        ensures excess { IfOk result (λ turns. turns.excess ≡ excess) }
        ensures gains { IfOk result (λ turns. AreGains kind compounds.now turns.gains.items) }
    {
        let gains = gains_of(alloc, compounds, kind)?;
        let last = last_of(&gains, excess);
        Ok(Turns {
            excess,
            gains,
            last,
        })
    }

    /// By how many columns the compounds are too wide.
    pub(crate) fn excess(&self) -> u128
        ensures { result ≡ self.now.excess }
    {
        self.excess
    }

    /// By how many columns a part is cut, by its number and its columns: all of them before the last part, what is left for that, and
    /// none behind it.
    pub(crate) fn amount(&self, number: usize, columns: usize) -> usize
        ensures { result ≡ amount_of self.now.last number columns }
    {
        let Some(last) = self.last else {
            return usize::MAX;
        };
        if columns > last.columns || columns == last.columns && number > last.number {
            usize::MAX
        } else if columns == last.columns && number == last.number {
            usize_or_most(last.left)
        } else {
            0
        }
    }
}

fn last_of(gains: &[Gain], excess: u128) -> Option<Last>
    requires { 0 < excess }
    ensures { IsLast excess gains.now result }
{
    if left_for(gains, excess, 0, 0) > 0 {
        return None;
    }
    let columns = last_columns(gains, excess);
    let number = last_number(gains, excess, columns);
    let left = left_for(gains, excess, columns, number + 1);
    Some(Last {
        columns,
        number,
        left,
    })
}

// The columns of the part that is cut last.
fn last_columns(gains: &[Gain], excess: u128) -> usize
    requires some { 0 < excess }
    requires enough { excess ≤ gained excess 0 0 0 gains.now }
    ensures enough { excess ≤ gained excess result 0 0 gains.now }
    ensures few { gained excess result (length gains.now) 0 gains.now < excess }
{
    let mut low = 0;
    let mut high = most_columns(gains);
    while low < high {
        let middle = high - (high - low) / 2;
        let left = left_for(gains, excess, middle, 0);
        if left == 0 {
            low = middle;
            continue;
        }
        high = middle - 1;
    }
    low
}

// The number of the part that is cut last, which has so many columns.
fn last_number(gains: &[Gain], excess: u128, columns: usize) -> usize
    requires enough { excess ≤ gained excess columns 0 0 gains.now }
    requires few { gained excess columns (length gains.now) 0 gains.now < excess }
    ensures enough { excess ≤ gained excess columns result 0 gains.now }
    ensures few { gained excess columns (result + 1) 0 gains.now < excess }
    ensures within { result < length gains.now }
{
    let mut low = 0;
    let mut high = gains.len();
    while high - low > 1 {
        let middle = low + (high - low) / 2;
        let left = left_for(gains, excess, columns, middle);
        if left == 0 {
            low = middle;
            continue;
        }
        high = middle;
    }
    low
}

// How many columns are still too many when the wider parts have been cut, and of those as wide the ones of this number at least.
fn left_for(gains: &[Gain], excess: u128, columns: usize, least: usize) -> u128
    ensures { result ≡ excess - gained excess columns least 0 gains.now }
{
    let mut left = excess;
    for (number, gain) in gains.iter().enumerate() {
        left = left.saturating_sub(counted(*gain, excess, columns, least, number));
    }
    left
}

// What a part counts for among these. One that gains nothing ends the cutting.
fn counted(gain: Gain, excess: u128, columns: usize, least: usize, number: usize) -> u128
    ensures { result ≡ (if is_before columns least number gain then weight excess gain else 0) }
{
    if gain.columns < columns || gain.columns == columns && number < least {
        0
    } else if gain.gained == 0 {
        excess
    } else {
        gain.gained as u128
    }
}

// The most columns that a part has.
fn most_columns(gains: &[Gain]) -> usize
    ensures { AllByRecursion (λ gain. gain.columns ≤ result) gains.now }
{
    let mut most = 0;
    for gain in gains {
        most = greater(most, gain.columns);
    }
    most
}

fn greater(one: usize, other: usize) -> usize
    ensures { result ≡ max one other }
{
    if one < other { other } else { one }
}
