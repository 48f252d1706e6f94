//! A chooser: cities in a list that is filtered as one types. Up and Down select, Enter writes the chosen one, Esc ends without one.
//!
//! 1. [`cities`]: the rows of the list, its filter and its order.
//! 2. [`chooser`]: the list, what is typed, and what a key does.
mod chooser;
mod cities;

use crate::chooser::chooser::Chooser;
use crate::panel;
use std::io::Read;
use termimad::{Error, MadSkin};

const COLUMNS: u16 = 16;

const ROWS: u16 = 6;

pub fn run<R: Read + Drop>(rt: &HostRuntime, input: R) -> Result<(), Error> {
    let skin = MadSkin::no_style();
    let mut chooser = Chooser::new(rt.alloc(), &skin)?;
    panel::run(rt, input, &mut chooser, COLUMNS, ROWS)?;
    if let Some(city) = chooser.chosen() {
        println!(rt; "{city}")?;
    }
    Ok(())
}
