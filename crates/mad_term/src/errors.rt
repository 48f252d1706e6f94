//! What the library's calls refuse by.

ghost use Rattle.std.specs.Prelude.{◌≡◌, Some};
ghost use Rattle.mad_term.specs.Errors.{width_error_text, error_text};

use std::alloc::{AllocError, AllocFailed};
use std::{fmt, io};

/// A width, in columns, that is too small for what was to be laid out in it.
#[derive(Clone, Copy, Debug, PartialEq, Eq)]
pub struct InsufficientWidthError {
    /// The columns that there were.
    pub available_width: usize,
}

impl fmt::Display for InsufficientWidthError {
    ghost output = { λ e. Some (width_error_text e) };

    fn fmt<W: fmt::Write>(&self, f: &mut fmt::Formatter<W>) -> fmt::Result {
        let available_width = self.available_width;
        write!(f, "Insufficient available width ({available_width})")
    }
}

impl std::error::Error for InsufficientWidthError {}

/// Why a call was refused.
#[derive(Debug, Drop)]
pub enum Error {
    /// A device failed in this very call.
    IO(io::Error),
    /// The width is under three where lines are to be wrapped, or too small for the columns and borders of a table.
    InsufficientWidth(InsufficientWidthError),
    /// A growth of a list or a text was refused.
    Memory,
}

impl fmt::Display for Error {
    ghost output = { error_text };

    fn fmt<W: fmt::Write>(&self, f: &mut fmt::Formatter<W>) -> fmt::Result {
        match self {
            Error::IO(e) => write!(f, "IO error: {e}"),
            Error::InsufficientWidth(e) => write!(f, "InsufficientWidth: {e}"),
            Error::Memory => write!(f, "want of memory"),
        }
    }
}

impl std::error::Error for Error {}

impl From<io::Error> for Error {
    ghost use Rattle.mad_term.specs.declared.errors.Error.TheVariants.{IO};

    ghost from_gives = { λ e r. r ≡ IO e };

    fn from(e: io::Error) -> Self {
        Error::IO(e)
    }
}

impl From<InsufficientWidthError> for Error {
    ghost use Rattle.mad_term.specs.declared.errors.Error.TheVariants.{InsufficientWidth};

    ghost from_gives = { λ e r. r ≡ InsufficientWidth e };

    fn from(e: InsufficientWidthError) -> Self {
        Error::InsufficientWidth(e)
    }
}

impl From<AllocError> for Error {
    ghost use Rattle.mad_term.specs.declared.errors.Error.TheVariants.{Memory};

    ghost from_gives = { λ _ r. r ≡ Memory };

    fn from(_: AllocError) -> Self {
        Error::Memory
    }
}

impl<T: Drop> From<AllocFailed<T>> for Error {
    ghost use Rattle.mad_term.specs.declared.errors.Error.TheVariants.{Memory};

    ghost from_gives = { λ _ r. r ≡ Memory };

    fn from(_: AllocFailed<T>) -> Self {
        Error::Memory
    }
}
