//! Numbers for the composites of rows.

ghost use Rattle.std.specs.Prelude.{◌≡◌, ◌+◌, ◌<◌, ◌++◌, ◌∷◌, [], ℕ, List, IfOk, OnOk, length, map, slice_index, slice_index_or, slice_set, vec_len};
ghost use Rattle.mad_md.specs.Flagged.{flagged_of, flags_of};
ghost use Rattle.mad_marks.specs.LineMarks.{has_mark};
ghost use Rattle.mad_marks.specs.RowMarks.{counted};
ghost use Rattle.mad_marks.specs.RowNumbers.{cells_of, count_in, firsts_of, number_after, passed, row_numbers, rows_numbers, Holds};

use mad_format::{FmtComposite, FmtLine};
use mad_mark_runs::count_of;
use mad_md::Compound;
use mad_style::CompositeKind;
use std::alloc::{AllocError, Global};
use std::slice;

/// Whether what isn't blank of a compound is counted, in a line of that kind: all of code, and links elsewhere.
pub fn has_mark(kind: CompositeKind, compound: &Compound) -> bool
    ensures { result ≡ has_mark kind (flags_of compound.now) }
{
    matches!(kind, CompositeKind::Code) || compound.link
}

/// How many counted characters a composite has.
///
/// # Errors
///
/// As out of memory, where the count is past `usize::MAX`.
pub fn count_in(composite: &FmtComposite) -> Result<usize, AllocError>
    ensures { IfOk result (λ count. count ≡ count_in has_mark composite.now) }
{
    let mut count: usize = 0;
    for compound in &composite.compounds {
        count = sum(count, count_in_compound(composite.kind, compound))?;
    }
    Ok(count)
}

/// How many a compound has, in a line of that kind.
#[tactic(auto, using(crate::proofs::NumberLemmas::compound_count))]
pub fn count_in_compound(kind: CompositeKind, compound: &Compound) -> usize
    ensures { result ≡ counted (has_mark kind) (flagged_of compound.now) }
{
    if has_mark(kind, compound) {
        count_of(compound.src)
    } else {
        0
    }
}

fn sum(a: usize, b: usize) -> Result<usize, AllocError>
    ensures { IfOk result (λ sum. sum ≡ a + b) }
{
    match a.checked_add(b) {
        Some(sum) => Ok(sum),
        None => Err(AllocError),
    }
}

/// The numbers with which the composites of a line of the text begin, the first with `number`, and the number after them.
///
/// # Errors
///
/// Out of memory is the only error.
pub fn firsts_of(
    alloc: Global,
    cells: &[FmtComposite],
    number: usize,
) -> Result<(Vec<usize>, usize), AllocError>
    ensures firsts { IfOk result (λ r. r.0.items ≡ firsts_of has_mark number cells.now) }
    ensures after { IfOk result (λ r. r.1 ≡ number_after has_mark number cells.now) }
{
    let mut firsts = Vec::with_capacity(alloc, cells.len())?;
    let mut next = number;
    for cell in cells {
        firsts.push(next)?;
        next = sum(next, count_in(cell)?)?;
    }
    Ok((firsts, next))
}

/// The numbers of the composites of rows.
#[derive(Drop)]
pub struct RowNumbers {
    // Those of all rows, one after the other, and where those of each row begin.
    numbers: Vec<usize>,
    starts: Vec<usize>,
}

impl RowNumbers {
    /// Of no rows.
    pub fn new(alloc: Global) -> Self
        ensures { Holds result [] }
    {
        RowNumbers {
            numbers: Vec::new(alloc),
            starts: Vec::new(alloc),
        }
    }

    /// Adds those of a row, where its columns have come to these numbers, which go on.
    ///
    /// # Errors
    ///
    /// Out of memory. The numbers are of no use then.
    fn push_cells(&mut self, firsts: &mut [usize], cells: &[FmtComposite]) -> Result<(), AllocError>
        ensures numbers { OnOk result (self.new.numbers.items ≡ self.old.numbers.items ++ row_numbers firsts.old cells.now) }
        ensures starts { OnOk result (self.new.starts.items ≡ self.old.starts.items ++ length self.old.numbers.items ∷ []) }
        ensures passed { OnOk result (firsts.new ≡ passed has_mark firsts.old cells.now) }
    {
        self.starts.push(self.numbers.len())?;
        let mut i: usize = 0;
        while i < cells.len() {
            let number = first_at(firsts, i);
            self.numbers.push(number)?;
            pass(firsts, i, count_in(&cells[i])?)?;
            i += 1;
        }
        Ok(())
    }

    // The same of a line.
    fn push_line(&mut self, firsts: &mut [usize], line: &FmtLine) -> Result<(), AllocError>
        ensures numbers { OnOk result (self.new.numbers.items ≡ self.old.numbers.items ++ row_numbers firsts.old (cells_of line.now)) }
        ensures starts { OnOk result (self.new.starts.items ≡ self.old.starts.items ++ length self.old.numbers.items ∷ []) }
        ensures passed { OnOk result (firsts.new ≡ passed has_mark firsts.old (cells_of line.now)) }
    {
        match line {
            FmtLine::Normal(composite) => self.push_cells(firsts, slice::from_ref(composite)),
            FmtLine::TableRow(row) => self.push_cells(firsts, &row.cells),
            FmtLine::TableRule(_) | FmtLine::HorizontalRule => self.push_cells(firsts, &[]),
        }
    }

    /// Adds those of the rows of a line of the text, whose composites begin with these numbers.
    ///
    /// # Errors
    ///
    /// Out of memory. The numbers are of no use then.
    pub fn push_rows(&mut self, firsts: &mut [usize], rows: &[FmtLine]) -> Result<(), AllocError>
        ensures { OnOk result ((ns : List (List ℕ)) → Holds self.old ns → Holds self.new (ns ++ rows_numbers has_mark firsts.old (map cells_of rows.now))) }
    {
        for row in rows {
            self.push_line(firsts, row)?;
        }
        Ok(())
    }

    /// Those of the composites of a row.
    pub fn of_row(&self, row: usize) -> &[usize]
        ensures { (ns : List (List ℕ)) → Holds self.now ns → row < length ns → result.now ≡ slice_index_or ns row [] }
    {
        if row >= self.starts.len() {
            return &[];
        }
        let start = self.starts[row];
        let end = self.end_of(row);
        if end < start {
            return &[];
        }
        if self.numbers.len() < end {
            return &[];
        }
        &self.numbers[start..end]
    }

    // Where those of a row end.
    fn end_of(&self, row: usize) -> usize
        requires { row < vec_len self.now.starts }
        ensures { result ≡ slice_index_or self.now.starts.items (row + 1) (vec_len self.now.numbers) }
    {
        if row + 1 < self.starts.len() {
            self.starts[row + 1]
        } else {
            self.numbers.len()
        }
    }
}

fn first_at(firsts: &[usize], i: usize) -> usize
    ensures { result ≡ slice_index firsts.now i }
{
    if i < firsts.len() { firsts[i] } else { 0 }
}

// A column has so many counted characters more.
fn pass(firsts: &mut [usize], i: usize, count: usize) -> Result<(), AllocError>
    ensures { OnOk result (firsts.new ≡ slice_set firsts.old i (slice_index firsts.old i + count)) }
{
    if i < firsts.len() {
        firsts[i] = sum(firsts[i], count)?;
    }
    Ok(())
}
