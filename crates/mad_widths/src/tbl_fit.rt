//! A table that sees the widths of its cells, and what its columns are fitted to.

ghost use Rattle.std.specs.Prelude.{◌≡◌, ℕ, ◌+◌, ◌*◌, ◌<◌, ◌≤◌, List, [], vec_len, replicate, IfOk, MatchResult};

use crate::column_widths::fitted_widths;
use crate::sharing::SeenColumn;
use crate::word_widths::fitted_to_words;
use mad_term::{Error, InsufficientWidthError};
use std::alloc::{AllocError, Global};

/// A table that sees the widths of its cells, and fits its columns to its own width.
#[derive(Debug, Drop)]
pub struct TblFit {
    width: usize,
    columns: Vec<SeenColumn>,
    ghost wide_enough: { 4 * vec_len columns + 1 ≤ width },
}

/// The widths of a table's columns.
#[derive(Debug, Drop)]
pub struct TblFitResult {
    /// Whether the table has several columns and they get less than their cells need.
    pub reduced: bool,
    /// The width of each column, from left to right, in columns of the terminal.
    pub col_widths: Vec<usize>,
}

impl TblFit {
    ghost use Rattle.mad_term.specs.declared.errors.Error.TheVariants.{InsufficientWidth, Memory};
    ghost use Rattle.mad_widths.specs.SeenCells.{TableHasSeen, cell_added};
    ghost use Rattle.mad_widths.specs.TableFits.{IsTableFit};
    ghost use Rattle.mad_widths.specs.WordWidths.{IsTableWordFit};

    /// A table of `column_count` columns that is at most `width` columns of the terminal wide, with no cell seen yet.
    ///
    /// Each of its columns takes at least three and a border, and one more border ends the table.
    /// A width under that, four times `column_count` plus one, is refused with that width. The only other error is out of memory.
    pub fn new(alloc: Global, column_count: usize, width: usize) -> Result<Self, Error>
        ensures refused { width < 4 * column_count + 1 → result ≡ Err (InsufficientWidth (record { available_width = width })) }
        ensures made { 4 * column_count + 1 ≤ width → MatchResult result (λ fit. TableHasSeen fit width (replicate column_count [])) (λ e. e ≡ Memory) }
    {
        if width == 0 || (width - 1) / 4 < column_count {
            return Err(Error::InsufficientWidth(InsufficientWidthError {
                available_width: width,
            }));
        }
        Ok(TblFit::with_room(alloc, column_count, width)?)
    }

    /// As `new`, of a width that is at least four times `column_count` plus one. Only out of memory is an error.
    pub fn with_room(alloc: Global, column_count: usize, width: usize) -> Result<Self, AllocError>
        requires { 4 * column_count + 1 ≤ width }
        ensures { IfOk result (λ fit. TableHasSeen fit width (replicate column_count [])) }
    {
        let columns = vec![in alloc; SeenColumn::empty(); column_count]?;
        Ok(TblFit { width, columns })
    }

    /// Sees a cell of `cell_width` columns of the terminal in a column of the table, the leftmost being 0.
    ///
    /// A column that the table doesn't have is ignored. No memory is taken.
    pub fn see_cell(&mut self, column: usize, cell_width: usize)
        ensures { (width : ℕ) → (cells : List (List ℕ)) → TableHasSeen self.old width cells → TableHasSeen self.new width (cell_added cells column cell_width) }
    {
        if column < self.columns.len() {
            self.columns[column] = self.columns[column].with_cell(cell_width);
        }
    }

    /// The widths of the columns: as wide as the cells seen need, or less where the table is too narrow for that.
    ///
    /// The only error is out of memory. The time is that of sorting the columns, whatever the number of cells.
    pub fn fit(&self, alloc: Global) -> Result<TblFitResult, AllocError>
        ensures { IfOk result (λ fitted. (width : ℕ) → (cells : List (List ℕ)) → TableHasSeen self.now width cells → IsTableFit width cells fitted) }
    {
        fitted_widths(
            alloc,
            self.columns.as_slice(),
            self.width - 1 - self.columns.len(),
        )
    }

    /// As `fit`, but no column is narrower than its longest word where the longest words of all columns fit together.
    ///
    /// `words` is a table that has seen the longest word of each cell, as this one has seen the cell. What a column is raised to its
    /// longest word, others give up in proportion to what they are wider than their own, as in the last step of `fit`. Where the
    /// longest words don't fit together, the widths are those of `fit`. A column of which no word was seen may get three columns.
    ///
    /// The only error is out of memory. The time is that of sorting the columns, whatever the number of cells.
    pub fn fit_words(&self, alloc: Global, words: &TblFit) -> Result<TblFitResult, AllocError>
        ensures { IfOk result (λ fitted. (width words_width : ℕ) → (cells word_cells : List (List ℕ)) → TableHasSeen self.now width cells → TableHasSeen words.now words_width word_cells → IsTableWordFit width cells word_cells fitted) }
    {
        fitted_to_words(
            alloc,
            self.columns.as_slice(),
            words.columns.as_slice(),
            self.width - 1 - self.columns.len(),
        )
    }
}
