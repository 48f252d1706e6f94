//! What asking refuses by.

ghost use Rattle.std.specs.Prelude.{◌≡◌};
ghost use Rattle.mad_ask.specs.ErrorTexts.{ask_error_text};

use std::alloc::{AllocError, AllocFailed};
use std::{fmt, io};

/// Why a question has no answer.
#[derive(Debug, Drop)]
pub enum AskError {
    /// The reader or the writer failed in this very call.
    IO(io::Error),
    /// The input ended before a line that answers, and there is no default.
    EndOfInput,
    /// A line that was read isn't UTF-8.
    NotUtf8,
    /// A growth of a list or a text was refused.
    Memory,
}

impl fmt::Display for AskError {
    ghost output = { ask_error_text };

    fn fmt<W: fmt::Write>(&self, f: &mut fmt::Formatter<W>) -> fmt::Result {
        match self {
            AskError::IO(e) => write!(f, "IO error: {e}"),
            AskError::EndOfInput => write!(f, "end of input"),
            AskError::NotUtf8 => write!(f, "not UTF-8"),
            AskError::Memory => write!(f, "want of memory"),
        }
    }
}

impl std::error::Error for AskError {}

impl From<io::Error> for AskError {
    ghost use Rattle.mad_ask.specs.declared.ask_error.AskError.TheVariants.{IO};

    ghost from_gives = { λ e r. r ≡ IO e };

    fn from(e: io::Error) -> Self {
        AskError::IO(e)
    }
}

impl From<AllocError> for AskError {
    ghost use Rattle.mad_ask.specs.declared.ask_error.AskError.TheVariants.{Memory};

    ghost from_gives = { λ _ r. r ≡ Memory };

    fn from(_: AllocError) -> Self {
        AskError::Memory
    }
}

impl<T: Drop> From<AllocFailed<T>> for AskError {
    ghost use Rattle.mad_ask.specs.declared.ask_error.AskError.TheVariants.{Memory};

    ghost from_gives = { λ _ r. r ≡ Memory };

    fn from(_: AllocFailed<T>) -> Self {
        AskError::Memory
    }
}
