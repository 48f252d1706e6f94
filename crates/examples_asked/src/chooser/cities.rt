//! Cities, which are the rows of the list; its filter, and what it shows of them.

use std::alloc::{AllocError, Global};
use termimad::{CellExtract, CompoundStyle, ListViewCell, RowFilter};

/// A city, by its name.
#[derive(Clone, Copy)]
pub struct City(pub &'static str);

/// Some cities on rivers.
pub const CITIES: [City; 8] = [
    City("Basel"),
    City("Bonn"),
    City("Bratislava"),
    City("Budapest"),
    City("Hamburg"),
    City("Linz"),
    City("Rotterdam"),
    City("Wien"),
];

/// Shows the cities whose names have a text, by case.
#[derive(Drop)]
pub struct Having(pub String);

impl RowFilter<City> for Having {
    ghost use Rattle.std.specs.Prelude.{⊤};

    ghost answers = { λ _ _ _. ⊤ };

    fn accepts(&self, city: &City) -> bool {
        city.0.contains(self.0.as_str())
    }
}

/// What the column shows of a city: its name.
#[derive(Drop)]
pub struct Name {
    /// The allocator.
    pub alloc: Global,
}

impl CellExtract<City> for Name {
    ghost use Rattle.std.specs.Prelude.{◌≡◌, IfOk};
    ghost use Rattle.mad_style.specs.CompoundStyles.{unstyled};
    ghost use Rattle.mad_list_columns.specs.Cells.{shown_cell};

    // The name, without style.
    ghost extracts = { λ _ city result. IfOk result (λ cell. shown_cell cell ≡ record { text = city.0.now; style = unstyled }) };

    fn cell(&self, city: &City) -> Result<ListViewCell, AllocError> {
        let name = String::from_str(self.alloc, city.0)?;
        Ok(ListViewCell::new(name, CompoundStyle::default()))
    }
}
