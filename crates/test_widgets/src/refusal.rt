//! Why a call has no answer.

use mad_screen::NotPlain;
use mad_term::Error;
use std::alloc::{AllocError, AllocFailed, Global};

/// Why a call has no answer.
#[derive(Drop)]
pub enum Refusal {
    /// A growth of a list or a text was refused.
    Memory,
    /// A list can't be written.
    Writing(Error),
    /// The plain terminal can't read what was written.
    Screen(NotPlain),
    /// A call was refused, and a value isn't what it was before it.
    Changed,
}

impl Refusal {
    /// Its text. Out of memory it has none.
    pub fn told(self, alloc: Global) -> Result<String, AllocError> {
        match self {
            Refusal::Memory => Err(AllocError),
            Refusal::Writing(error) => format!(in alloc; "{error}"),
            Refusal::Screen(error) => format!(in alloc; "{error}"),
            Refusal::Changed => String::from_str(alloc, "changed by a refusal"),
        }
    }
}

impl From<AllocError> for Refusal {
    fn from(_: AllocError) -> Self {
        Refusal::Memory
    }
}

impl<T: Drop> From<AllocFailed<T>> for Refusal {
    fn from(_: AllocFailed<T>) -> Self {
        Refusal::Memory
    }
}

impl From<Error> for Refusal {
    fn from(error: Error) -> Self {
        match error {
            Error::Memory => Refusal::Memory,
            error => Refusal::Writing(error),
        }
    }
}

impl From<NotPlain> for Refusal {
    fn from(error: NotPlain) -> Self {
        match error {
            NotPlain::Memory => Refusal::Memory,
            error => Refusal::Screen(error),
        }
    }
}
