//! Rivers, which are the rows of the list.

ghost use Rattle.std.specs.Prelude.{◌≡◌, IfOk, string_bytes};
ghost use Rattle.examples_asked.specs.Rivers.{name_of, length_of, shown_text};

use std::alloc::{AllocError, Global};
use termimad::{CellExtract, CompoundStyle, ListViewCell};

/// A river.
#[derive(Clone, Copy)]
pub enum River {
    Volga,
    Danube,
    Rhine,
    Elbe,
    Loire,
    Rhone,
    Seine,
    Thames,
}

impl River {
    /// Its name.
    pub fn name(&self) -> &'static str
        ensures { result.now ≡ name_of self.now }
    {
        match self {
            River::Volga => "Volga",
            River::Danube => "Danube",
            River::Rhine => "Rhine",
            River::Elbe => "Elbe",
            River::Loire => "Loire",
            River::Rhone => "Rhone",
            River::Seine => "Seine",
            River::Thames => "Thames",
        }
    }

    /// Its length in kilometers.
    pub fn length(&self) -> u32
        ensures { result ≡ length_of self.now }
    {
        match self {
            River::Volga => 3530,
            River::Danube => 2850,
            River::Rhine => 1233,
            River::Elbe => 1094,
            River::Loire => 1012,
            River::Rhone => 813,
            River::Seine => 777,
            River::Thames => 346,
        }
    }
}

/// Some rivers of Europe.
pub const RIVERS: [River; 8] = [
    River::Volga,
    River::Danube,
    River::Rhine,
    River::Elbe,
    River::Loire,
    River::Rhone,
    River::Seine,
    River::Thames,
];

/// What a column shows of a river.
#[derive(Drop)]
pub struct Shown {
    /// The allocator.
    pub alloc: Global,
    /// Whether it is the length, or else the name.
    pub is_length: bool,
}

impl Shown {
    // The text of the cell.
    fn text(&self, river: &River) -> Result<String, AllocError>
        ensures { IfOk result (λ text. string_bytes text ≡ shown_text self.now river.now) }
    {
        if self.is_length {
            format!(in self.alloc; "{}", river.length())
        } else {
            String::from_str(self.alloc, river.name())
        }
    }
}

impl CellExtract<River> for Shown {
    ghost use Rattle.std.specs.Prelude.{◌≡◌, IfOk};
    ghost use Rattle.mad_style.specs.CompoundStyles.{unstyled};
    ghost use Rattle.mad_list_columns.specs.Cells.{shown_cell};
    ghost use Rattle.examples_asked.specs.Rivers.{shown_text};

    // The length or the name, without style.
    ghost extracts = { λ shown river result. IfOk result (λ cell. shown_cell cell ≡ record { text = shown_text shown river; style = unstyled }) };

    fn cell(&self, river: &River) -> Result<ListViewCell, AllocError> {
        let text = self.text(river)?;
        Ok(ListViewCell::new(text, CompoundStyle::default()))
    }
}
