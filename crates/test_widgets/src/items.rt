//! The rows of the lists that are tried: a number and a letter each.

use mad_list::{CellExtract, ListViewCell, RowFilter, RowOrder};
use mad_style::CompoundStyle;
use std::alloc::{AllocError, Global};
use std::cmp::Ordering;

/// A row.
#[derive(Clone, Copy, Drop)]
pub struct Item {
    /// Its number, which a filter and an order look at.
    pub number: u32,
    /// Its letter.
    pub letter: char,
}

/// The row that some words name, as `2 a`.
pub fn item_of(words: &str) -> Item {
    let (number, letter) = words.split_once(' ').unwrap_or((words, ""));
    Item {
        number: number.parse().unwrap_or(0),
        letter: letter.chars().next().unwrap_or('-'),
    }
}

/// Shows the rows whose number is another.
#[derive(Drop)]
pub struct Without(pub u32);

impl RowFilter<Item> for Without {
    ghost use Rattle.std.specs.Prelude.{⊤};

    ghost answers = { λ _ _ _. ⊤ };

    fn accepts(&self, item: &Item) -> bool {
        item.number != self.0
    }
}

/// Orders rows by their number.
#[derive(Drop)]
pub struct ByNumber;

impl RowOrder<Item> for ByNumber {
    ghost use Rattle.std.specs.Prelude.{⊤};

    ghost compares = { λ _ _ _ _. ⊤ };

    fn compare(&self, a: &Item, b: &Item) -> Ordering {
        a.number.cmp(&b.number)
    }
}

/// A cell with the number, or with the letter, of a row.
#[derive(Drop)]
pub struct Part {
    /// The allocator.
    pub alloc: Global,
    /// Whether it is the number.
    pub is_number: bool,
    /// The style of its cells.
    pub style: CompoundStyle,
}

impl CellExtract<Item> for Part {
    ghost use Rattle.std.specs.Prelude.{◌≡◌, encode_utf8, IfOk, if◌then◌else◌};
    ghost use Rattle.std.specs.Fmt.{decimal};
    ghost use Rattle.mad_list_columns.specs.Cells.{shown_cell};

    // The number's digits, or the letter, in the part's style.
    ghost extracts = { λ part item result. IfOk result (λ cell. shown_cell cell ≡ record { text = if part.is_number then decimal item.number else encode_utf8 item.letter; style = part.style }) };

    fn cell(&self, item: &Item) -> Result<ListViewCell, AllocError> {
        let text = if self.is_number {
            format!(in self.alloc; "{}", item.number)?
        } else {
            format!(in self.alloc; "{}", item.letter)?
        };
        Ok(ListViewCell::new(text, self.style))
    }
}
