//! How the columns of a table that is too wide give up their excess.

ghost use Rattle.std.specs.Prelude.{sum_by, ◌≡◌, ℕ, ◌+◌, ◌-◌, ◌*◌, ◌^◌, ◌<◌, ◌≤◌, ◌++◌, ◌∷◌, [], List, length, map, min, sum, IfOk, All, slice_index};
ghost use Rattle.mad_widths.specs.Turns.{AreTurns, CanGiveUp, grants, turn_of};
ghost use Rattle.mad_widths.specs.ColumnWidths.{natural_widths, over_average, spare, first_request, first_requests, above_three, second_request, second_requests, narrowed};
ghost use Rattle.mad_widths.specs.SeenCells.{ColumnHasSeen, needs_in};

use std::alloc::{AllocError, Global};
use std::cmp::Reverse;

/// The least width of a column.
pub const LEAST_COLUMN: usize = 3;

// The width down to which a column can easily give up.
const EASY_COLUMN: usize = 4;

// The most that a column can easily give up.
const MOST_SPARE: usize = 4;

/// What is kept of the cells that were seen in a column.
#[derive(Clone, Copy, Debug)]
pub struct SeenColumn {
    /// The widest of them; 0 where there is none.
    pub widest: usize,
    /// Their count.
    pub count: usize,
    /// The sum of their widths.
    pub total: u128,
}

impl SeenColumn {
    /// A column without cells.
    pub fn empty() -> Self
        ensures { ColumnHasSeen result [] }
    {
        SeenColumn {
            widest: 0,
            count: 0,
            total: 0,
        }
    }

    /// The column after one cell more. Count and sum stay at their greatest values.
    pub fn with_cell(self, width: usize) -> Self
        ensures { (cells : List ℕ) → ColumnHasSeen self cells → ColumnHasSeen result (cells ++ width ∷ []) }
    {
        SeenColumn {
            widest: self.widest.max(width),
            count: self.count.saturating_add(1),
            total: self.total.saturating_add(width as u128),
        }
    }

    /// The width in which each cell fits, at least three.
    pub fn natural(self) -> usize
        ensures { result ≡ (needs_in self).natural }
    {
        self.widest.max(LEAST_COLUMN)
    }

    // The cells' average width, rounded up; 0 where there is none.
    fn average(self) -> u128
        ensures { result ≡ (needs_in self).average }
    {
        if self.count == 0 {
            0
        } else {
            self.total.div_ceil(self.count as u128)
        }
    }

    // What it is wider than its cells' average.
    fn over_average(self) -> usize
        ensures { result ≡ over_average (needs_in self) }
    {
        (self.natural() as u128).saturating_sub(self.average()) as usize
    }

    // What it can easily give up, at most four.
    fn spare(self) -> usize
        ensures value { result ≡ spare (needs_in self) }
        ensures bound { result ≤ 4 }
    {
        let over = self.over_average();
        if self.natural() > EASY_COLUMN && over > 1 {
            over.min(MOST_SPARE)
        } else {
            0
        }
    }

    // Its share of a goal, where all columns together can easily give up `spares`.
    fn first_request(self, spares: usize, goal: usize) -> usize
        requires { goal ≤ spares }
        ensures { result ≡ first_request spares goal (needs_in self) }
    {
        let natural = self.natural();
        let over = self.over_average();
        if goal > 0 && natural > EASY_COLUMN && over > 0 {
            let share = (over as u128 * goal as u128).div_ceil(spares as u128);
            capped(natural - EASY_COLUMN, share)
        } else {
            0
        }
    }
}

/// A column's turn to give up, the widest first and of equals the left one: its width and its number.
pub type Turn = (Reverse<usize>, usize);

// The count, or the limit where that is less.
fn capped(count: usize, limit: u128) -> usize
    ensures { result ≡ min count limit }
{
    if limit < count as u128 {
        limit as usize
    } else {
        count
    }
}

/// The width that each column needs.
#[tactic(auto, using(crate::proofs::CellLemmas::naturals_in))]
pub fn natural_widths(alloc: Global, columns: &[SeenColumn]) -> Result<Vec<usize>, AllocError>
    ensures { IfOk result (λ widths. widths.items ≡ natural_widths (map needs_in columns.now)) }
{
    columns.iter().map(|column| column.natural()).collect(alloc)
}

/// The sum of widths.
pub fn total_width(widths: &[usize]) -> u128
    ensures { result ≡ sum widths.now }
{
    let mut total = 0;
    for width in widths {
        total += *width as u128;
    }
    total
}

/// The columns' turns, in order. The time is that of sorting them.
pub fn turns_of(alloc: Global, widths: &[usize]) -> Result<Vec<Turn>, AllocError>
    ensures { IfOk result (λ turns. AreTurns widths.now (map turn_of turns.items)) }
{
    let mut turns = Vec::new(alloc);
    for (column, width) in widths.iter().enumerate() {
        turns.push((Reverse(*width), column))?;
    }
    turns.sort_unstable();
    Ok(turns)
}

// What all columns can easily give up.
fn spares_of(columns: &[SeenColumn]) -> usize
    requires { 4 * length columns.now < 2 ^ 64 }
    ensures { result ≡ sum_by spare (map needs_in columns.now) }
{
    let mut spares = 0;
    for column in columns {
        spares += column.spare();
    }
    spares
}

/// What each column requests to give up in the first step.
pub fn first_requests(
    alloc: Global,
    columns: &[SeenColumn],
    excess: u128,
) -> Result<Vec<usize>, AllocError>
    requires { 4 * length columns.now < 2 ^ 64 }
    ensures { IfOk result (λ requests. requests.items ≡ first_requests excess (map needs_in columns.now)) }
{
    let spares = spares_of(columns);
    let goal = capped(spares, excess);
    columns
        .iter()
        .map(|column| column.first_request(spares, goal))
        .collect(alloc)
}

// What columns of these widths are wider than three, together.
fn above_three(widths: &[usize]) -> u128
    ensures { result ≡ above_three widths.now }
{
    let mut total = 0;
    for width in widths {
        total += width.saturating_sub(LEAST_COLUMN) as u128;
    }
    total
}

// What a column requests where all are wider than three by `above` together, and `kept` of these are to stay.
fn second_request(width: usize, kept: usize, above: u128) -> usize
    requires some { 0 < above }
    requires kept { kept ≤ above }
    ensures { result ≡ second_request (above - kept) above width }
{
    let own = width.saturating_sub(LEAST_COLUMN);
    let kept = own as u128 * kept as u128 / above;
    own - kept as usize
}

/// What each column requests to give up in the second step, for all to stay wider than three by `kept` together.
pub fn second_requests(
    alloc: Global,
    widths: &[usize],
    kept: usize,
) -> Result<Vec<usize>, AllocError>
    requires { kept < above_three widths.now }
    ensures { IfOk result (λ requests. requests.items ≡ second_requests (above_three widths.now - kept) widths.now) }
{
    let above = above_three(widths);
    widths
        .iter()
        .map(|width| second_request(*width, kept, above))
        .collect(alloc)
}

// Cuts each request down to what is left of the excess at its turn, and answers what is left after the last.
fn grant(requests: &mut [usize], turns: &[Turn], excess: u128) -> u128
    requires { All (λ t. t.1 < length requests.old) turns.now }
    ensures lowered { (k : ℕ) → slice_index requests.new k ≤ slice_index requests.old k }
    ensures granted { (widths : List ℕ) → AreTurns widths (map turn_of turns.now) → length requests.old ≡ length widths → requests.new ≡ grants widths requests.old excess }
    ensures left { (widths : List ℕ) → AreTurns widths (map turn_of turns.now) → length requests.old ≡ length widths → result ≡ excess - sum requests.old }
{
    let mut left = excess;
    for (_, column) in turns {
        let granted = capped(requests[*column], left);
        requests[*column] = granted;
        left -= granted as u128;
    }
    left
}

// Takes off each width what its column gives up.
fn give_up(widths: &mut [usize], cuts: &[usize])
    requires len { length cuts.now ≡ length widths.old }
    requires within { (k : ℕ) → k < length cuts.now → slice_index cuts.now k ≤ slice_index widths.old k }
    ensures { widths.new ≡ narrowed widths.old cuts.now }
{
    for (column, cut) in cuts.iter().enumerate() {
        widths[column] -= *cut;
    }
}

/// Takes off each width what its column gives up of its request, in turn until the excess is gone. It answers what is left
/// of the excess.
pub fn give_up_in_turn(
    widths: &mut [usize],
    requests: &mut [usize],
    turns: &[Turn],
    excess: u128,
) -> u128
    requires { CanGiveUp widths.old requests.old turns.now }
    ensures widths { (order : List ℕ) → AreTurns order (map turn_of turns.now) → length requests.old ≡ length order → widths.new ≡ narrowed widths.old (grants order requests.old excess) }
    ensures left { (order : List ℕ) → AreTurns order (map turn_of turns.now) → length requests.old ≡ length order → result ≡ excess - sum requests.old }
{
    let left = grant(requests, turns, excess);
    give_up(widths, requests);
    left
}
