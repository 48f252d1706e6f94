//! A form of two fields and a button, driven by what a terminal sends: after each block of keys what has changed is sent to a terminal, whose
//! screen is written as rows of text.
//!
//! 1. [`form`]: the fields and the button, and which of them gets an event.
//! 2. [`script`]: the blocks of keys.
mod form;
mod script;

use crate::form::form::Form;
use crate::form::script::Step;
use std::alloc::AllocError;
use termimad::keys::Keys;
use termimad::{ClearType, Error, Frame, TestTerminal, queue_clear};

const COLUMNS: u16 = 20;

const ROWS: u16 = 5;

pub fn run(rt: &HostRuntime) -> Result<(), Error> {
    let alloc = rt.alloc();
    let mut form = Form::new(alloc)?;
    let mut keys = Keys::new();
    let mut frame = Frame::new(alloc, COLUMNS, ROWS)?;
    let mut terminal = TestTerminal::new(alloc, COLUMNS, ROWS);
    for step in &script::STEPS {
        apply(&mut form, &mut keys, step)?;
        let before = terminal.taken().len();
        queue_clear(&mut frame, ClearType::All)?;
        form.draw(alloc, &mut frame)?;
        frame.present(alloc, &mut terminal)?;
        let sent = terminal.taken().len().saturating_sub(before);
        let screen = terminal.shown(alloc)?;
        let looks = screen.looks()?;
        let caption = step.caption;
        println!(rt; "{caption}: {sent} bytes\n{screen}{looks}")?;
    }
    let (name, password) = form.texts()?;
    println!(rt; "name {name}, password {password}")?;
    Ok(())
}

// Applies the events of a block of keys, and of the pause after it.
fn apply(form: &mut Form, keys: &mut Keys, step: &Step) -> Result<(), AllocError> {
    for b in step.keys {
        if let Some(event) = keys.byte(*b) {
            form.apply(event)?;
        }
    }
    if let Some(event) = keys.pause() {
        form.apply(event)?;
    }
    Ok(())
}
