//! What is told of where the call is made: the environment.

ghost use Rattle.std.specs.Prelude.{◌≡◌};
ghost use Rattle.termimad_options.specs.Telling.{text_told};
ghost use Rattle.termimad_program.specs.Environments.{Tells, text_of};

use std::alloc::AllocError;
use std::env::{VarError, var};
use std::io::IsTerminal;
use termimad_options::Told;

/// Values of the environment, if they are there, and whether the program's own output is a terminal.
#[derive(Drop)]
pub struct Environment {
    /// Whether standard output is a terminal.
    pub is_terminal: bool,
    /// TERM.
    pub term: Option<String>,
    /// NO_COLOR.
    pub no_color: Option<String>,
    /// COLUMNS.
    pub set_columns: Option<String>,
    /// TERMIMAD_SKIN.
    pub skin: Option<String>,
    /// TERMIMAD_SHADE, which is there where a script writes what the program does on a terminal.
    pub shade: Option<String>,
    /// TERMIMAD_COLUMNS.
    pub columns: Option<String>,
    /// TERMIMAD_ROWS.
    pub rows: Option<String>,
    /// TERMIMAD_COLORS.
    pub colors: Option<String>,
}

impl Environment {
    /// What it tells. Where there is a shade, the text goes to a terminal, also where the program's own output is none.
    pub fn told(&self) -> Told<'_>
        ensures { Tells self.now result }
    {
        Told {
            is_terminal: self.is_terminal || self.shade.is_some(),
            term: text_of(&self.term),
            no_color: text_of(&self.no_color),
            set_columns: text_of(&self.set_columns),
            skin: text_of(&self.skin),
            shade: text_of(&self.shade),
            columns: text_of(&self.columns),
            rows: text_of(&self.rows),
            colors: text_of(&self.colors),
        }
    }
}

/// What the environment says. A value that isn't UTF-8 is as one that isn't there.
///
/// # Errors
///
/// Out of memory is the only error.
pub fn ask_environment(rt: &HostRuntime) -> Result<Environment, AllocError> {
    Ok(Environment {
        is_terminal: rt.stdout().is_terminal(),
        term: value(rt, "TERM")?,
        no_color: value(rt, "NO_COLOR")?,
        set_columns: value(rt, "COLUMNS")?,
        skin: value(rt, "TERMIMAD_SKIN")?,
        shade: value(rt, "TERMIMAD_SHADE")?,
        columns: value(rt, "TERMIMAD_COLUMNS")?,
        rows: value(rt, "TERMIMAD_ROWS")?,
        colors: value(rt, "TERMIMAD_COLORS")?,
    })
}

// The value of a name, if there is one.
fn value(rt: &HostRuntime, name: &str) -> Result<Option<String>, AllocError> {
    match var(rt, name) {
        Ok(value) => Ok(Some(value)),
        Err(VarError::OutOfMemory) => Err(AllocError),
        Err(_) => Ok(None),
    }
}

// A value as a word.
fn text_of(value: &Option<String>) -> Option<&str>
    ensures { text_told result ≡ text_of value.now }
{
    match value {
        Some(text) => Some(text.as_str()),
        None => None,
    }
}
