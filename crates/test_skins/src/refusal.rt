//! Why a call has no answer.

use serde_json::Error as JsonError;
use std::alloc::{AllocError, Global};
use termimad::screen::NotPlain;
use termimad::{Error, SkinError};

/// Why a call has no answer.
#[derive(Drop)]
pub enum Refusal {
    /// A growth of a list or a text was refused.
    Memory,
    /// A text is no JSON.
    Json,
    /// A value is no skin.
    Skin(SkinError),
    /// A text can't be written.
    Writing(Error),
    /// The plain terminal can't read what was written.
    Screen(NotPlain),
}

impl Refusal {
    /// Its text. Out of memory it has none.
    ///
    /// # Errors
    ///
    /// Out of memory is the only error.
    pub fn told(self, alloc: Global) -> Result<String, AllocError> {
        match self {
            Refusal::Memory => Err(AllocError),
            Refusal::Json => String::from_str(alloc, "no JSON"),
            Refusal::Skin(error) => format!(in alloc; "{error}"),
            Refusal::Writing(error) => format!(in alloc; "{error}"),
            Refusal::Screen(error) => format!(in alloc; "{error}"),
        }
    }
}

impl From<AllocError> for Refusal {
    fn from(_: AllocError) -> Self {
        Refusal::Memory
    }
}

impl From<JsonError> for Refusal {
    fn from(error: JsonError) -> Self {
        if error.is_memory() {
            return Refusal::Memory;
        }
        Refusal::Json
    }
}

impl From<SkinError> for Refusal {
    fn from(error: SkinError) -> Self {
        match error {
            SkinError::Memory => Refusal::Memory,
            error => Refusal::Skin(error),
        }
    }
}

impl From<Error> for Refusal {
    fn from(error: Error) -> Self {
        match error {
            Error::Memory => Refusal::Memory,
            error => Refusal::Writing(error),
        }
    }
}

impl From<NotPlain> for Refusal {
    fn from(error: NotPlain) -> Self {
        match error {
            NotPlain::Memory => Refusal::Memory,
            error => Refusal::Screen(error),
        }
    }
}
