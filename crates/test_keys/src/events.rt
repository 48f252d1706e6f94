//! An event as a word.

use mad_term::{Event, KeyModifiers};
use std::alloc::AllocError;

/// An event: its modifiers, and what was pressed or done.
pub fn push_event(answer: &mut String, event: &Event) -> Result<(), AllocError> {
    match event {
        Event::Key(key) => {
            push_modifiers(answer, key.modifiers)?;
            let code = key.code;
            write!(answer, "{code:?}")
        }
        Event::Mouse(mouse) => {
            push_modifiers(answer, mouse.modifiers)?;
            let kind = mouse.kind;
            let column = mouse.column;
            let row = mouse.row;
            write!(answer, "{kind:?} at {column} {row}")
        }
        Event::Resize(columns, rows) => write!(answer, "{columns} by {rows}"),
        Event::FocusGained => answer.push_str("focus"),
        Event::FocusLost => answer.push_str("no focus"),
    }
}

fn push_modifiers(answer: &mut String, modifiers: KeyModifiers) -> Result<(), AllocError> {
    answer.push_str(names_of(modifiers))
}

fn names_of(modifiers: KeyModifiers) -> &'static str {
    let shift = KeyModifiers::SHIFT;
    let control = KeyModifiers::CONTROL;
    let alt = KeyModifiers::ALT;
    if modifiers == KeyModifiers::NONE {
        ""
    } else if modifiers == shift {
        "Shift-"
    } else if modifiers == control {
        "Control-"
    } else if modifiers == alt {
        "Alt-"
    } else if modifiers == shift | control {
        "Shift-Control-"
    } else if modifiers == shift | alt {
        "Shift-Alt-"
    } else if modifiers == control | alt {
        "Control-Alt-"
    } else {
        "Shift-Control-Alt-"
    }
}
