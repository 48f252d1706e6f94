//! The list, what is typed, and what a key does.

use crate::chooser::cities::{CITIES, City, Having, Name};
use crate::panel::Panel;
use std::alloc::{AllocError, Global};
use termimad::{
    Alignment, Area, Error, InputField, KeyCode, KeyEvent, ListView, ListViewColumn, MadSkin,
    NoOrder, Out,
};

// How a chooser goes on after a key.
#[derive(Clone, Copy, PartialEq, Eq, Debug)]
enum Turn {
    Goes,
    Chosen,
    Left,
}

/// A list of cities below a field, whose text filters it.
#[derive(Drop)]
pub struct Chooser<'k> {
    field: InputField,
    list: ListView<'k, City, Name, Having, NoOrder>,
    turn: Turn,
}

impl<'k> Chooser<'k> {
    /// A chooser of all cities, the first one selected.
    pub fn new(alloc: Global, skin: &'k MadSkin) -> Result<Self, Error> {
        let mut columns = Vec::new(alloc);
        let name = Name { alloc };
        columns.push(ListViewColumn::new(alloc, "city", 6, 14, name)?.with_align(Alignment::Left))?;
        let mut list = ListView::new(alloc, Area::new(0, 1, 16, 5), columns, skin);
        for city in CITIES {
            list.add_row(city)?;
        }
        list.select_first_line();
        Ok(Chooser {
            field: InputField::new(alloc, Area::new(0, 0, 16, 1))?,
            list,
            turn: Turn::Goes,
        })
    }

    // What is typed filters the list, and its first row is selected then.
    fn type_key(&mut self, key: KeyEvent) -> Result<(), AllocError> {
        self.field.apply_key_event(key)?;
        let typed = self.field.get_content()?;
        self.list.set_filter(Having(typed));
        self.list.select_first_line();
        Ok(())
    }

    /// The name of the chosen city, if one was chosen.
    pub fn chosen(&self) -> Option<&'static str> {
        match self.list.get_selection() {
            Some(city) if self.turn == Turn::Chosen => Some(city.0),
            _ => None,
        }
    }
}

impl Panel for Chooser<'_> {
    // Up and Down select, Enter chooses what is selected, Esc leaves; any other key goes to the field, and its text filters the list.
    fn apply(&mut self, key: KeyEvent) -> Result<(), Error> {
        match key.code {
            KeyCode::Up => self.list.try_select_next(true),
            KeyCode::Down => self.list.try_select_next(false),
            KeyCode::Enter if self.list.has_selection() => self.turn = Turn::Chosen,
            KeyCode::Esc => self.turn = Turn::Left,
            _ => self.type_key(key)?,
        }
        Ok(())
    }

    fn is_open(&self) -> bool {
        self.turn == Turn::Goes
    }

    // Draws the field and the list, each where its area is on a screen.
    fn draw<O: Out>(&mut self, alloc: Global, out: &mut O) -> Result<(), Error> {
        if self.field.area().is_within_limits() {
            self.field.display_on(out)?;
        }
        self.list.update_dimensions();
        if self.list.area.is_within_limits() {
            self.list.write_on(alloc, out)?;
        }
        Ok(())
    }
}
