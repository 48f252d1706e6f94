//! What a present refuses by.

ghost use Rattle.std.specs.Prelude.{◌≡◌};
ghost use Rattle.mad_frames.specs.Refusals.{present_error_text, present_error_of, IsErrorOf};

use mad_screen::NotPlain;
use mad_term::Error;
use std::alloc::AllocError;
use std::{fmt, io};

/// Why a present was refused.
#[derive(Debug, Drop)]
pub enum PresentError {
    /// The device failed in this very call.
    IO(io::Error),
    /// The plain terminal can't read what was drawn.
    Undefined,
    /// A growth of a list or a text was refused.
    Memory,
}

impl fmt::Display for PresentError {
    ghost output = { present_error_text };

    fn fmt<W: fmt::Write>(&self, f: &mut fmt::Formatter<W>) -> fmt::Result {
        match self {
            PresentError::IO(e) => write!(f, "IO error: {e}"),
            PresentError::Undefined => write!(f, "not plain terminal output"),
            PresentError::Memory => write!(f, "want of memory"),
        }
    }
}

impl std::error::Error for PresentError {}

impl From<io::Error> for PresentError {
    ghost use Rattle.mad_frames.specs.declared.errors.PresentError.TheVariants.{IO};

    ghost from_gives = { λ e r. r ≡ IO e };

    fn from(e: io::Error) -> Self {
        PresentError::IO(e)
    }
}

impl From<NotPlain> for PresentError {
    ghost from_gives = { λ e r. r ≡ present_error_of e };

    fn from(e: NotPlain) -> Self {
        match e {
            NotPlain::Undefined => PresentError::Undefined,
            NotPlain::Memory => PresentError::Memory,
        }
    }
}

impl From<AllocError> for PresentError {
    ghost use Rattle.mad_frames.specs.declared.errors.PresentError.TheVariants.{Memory};

    ghost from_gives = { λ _ r. r ≡ Memory };

    fn from(_: AllocError) -> Self {
        PresentError::Memory
    }
}

impl From<PresentError> for Error {
    ghost from_gives = { λ e r. IsErrorOf e r };

    fn from(e: PresentError) -> Self {
        match e {
            PresentError::IO(e) => Error::IO(e),
            PresentError::Undefined => Error::IO(io::Error::from(io::ErrorKind::InvalidData)),
            PresentError::Memory => Error::Memory,
        }
    }
}
