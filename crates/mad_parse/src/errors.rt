//! What the readers of styles refuse by.

ghost use Rattle.std.specs.Prelude.{Some, codes};
ghost use Rattle.mad_parse.specs.Errors.{color_error_text, token_error_text};

use std::alloc::{AllocError, AllocFailed};
use std::error::Error;
use std::fmt;

/// Why a text is no color.
#[derive(Clone, Copy, Debug, PartialEq, Eq)]
pub enum ParseColorError {
    /// No color is written so.
    Unrecognized,
    /// A gray whose level, of at most 255, is above 23, the greatest. One with a greater number is not recognized.
    InvalidGreyLevel { level: u8 },
}

impl fmt::Display for ParseColorError {
    ghost output = { λ e. Some (color_error_text e) };

    fn fmt<W: fmt::Write>(&self, f: &mut fmt::Formatter<W>) -> fmt::Result {
        match *self {
            ParseColorError::Unrecognized => f.write_str("not a recognized color"),
            ParseColorError::InvalidGreyLevel { level } => {
                write!(f, "grey level must be between 0 and 23 (got {level})")
            }
        }
    }
}

impl Error for ParseColorError {}

/// Why a text is no attribute.
#[derive(Clone, Copy, Debug, PartialEq, Eq)]
pub enum ParseAttributeError {
    /// No attribute is written so.
    Unrecognized,
}

impl fmt::Display for ParseAttributeError {
    ghost output = { λ _. Some (codes "not a recognized attribute") };

    fn fmt<W: fmt::Write>(&self, f: &mut fmt::Formatter<W>) -> fmt::Result {
        f.write_str("not a recognized attribute")
    }
}

impl Error for ParseAttributeError {}

/// Why a text is no alignment.
#[derive(Clone, Copy, Debug, PartialEq, Eq)]
pub enum ParseAlignError {
    /// No alignment is written so.
    Unrecognized,
}

impl fmt::Display for ParseAlignError {
    ghost output = { λ _. Some (codes "not a valid alignment") };

    fn fmt<W: fmt::Write>(&self, f: &mut fmt::Formatter<W>) -> fmt::Result {
        f.write_str("not a valid alignment")
    }
}

impl Error for ParseAlignError {}

/// Why a text of style tokens is refused.
#[derive(Debug, Drop, PartialEq)]
pub enum ParseStyleTokenError {
    /// The first text that is no token.
    Unrecognized(String),
    /// The first text that is no token, which is a gray above level 23.
    InvalidColor(ParseColorError),
    /// A growth of a list or a text was refused.
    Memory,
}

impl fmt::Display for ParseStyleTokenError {
    ghost output = { λ e. Some (token_error_text e) };

    fn fmt<W: fmt::Write>(&self, f: &mut fmt::Formatter<W>) -> fmt::Result {
        match self {
            ParseStyleTokenError::Unrecognized(text) => {
                write!(f, "{text} not recognized as a style token")
            }
            ParseStyleTokenError::InvalidColor(error) => write!(f, "Invalid color: {error}"),
            ParseStyleTokenError::Memory => f.write_str("want of memory"),
        }
    }
}

impl Error for ParseStyleTokenError {}

impl From<ParseColorError> for ParseStyleTokenError {
    ghost use Rattle.std.specs.Prelude.{◌≡◌};
    ghost use Rattle.mad_parse.specs.declared.errors.ParseStyleTokenError.TheVariants.{InvalidColor};

    ghost from_gives = { λ error e. e ≡ InvalidColor error };

    fn from(error: ParseColorError) -> Self {
        ParseStyleTokenError::InvalidColor(error)
    }
}

impl From<AllocError> for ParseStyleTokenError {
    ghost use Rattle.std.specs.Prelude.{◌≡◌};
    ghost use Rattle.mad_parse.specs.declared.errors.ParseStyleTokenError.TheVariants.{Memory};

    ghost from_gives = { λ _ e. e ≡ Memory };

    fn from(_: AllocError) -> Self {
        ParseStyleTokenError::Memory
    }
}

impl<T: Drop> From<AllocFailed<T>> for ParseStyleTokenError {
    ghost use Rattle.std.specs.Prelude.{◌≡◌};
    ghost use Rattle.mad_parse.specs.declared.errors.ParseStyleTokenError.TheVariants.{Memory};

    ghost from_gives = { λ _ e. e ≡ Memory };

    fn from(_: AllocFailed<T>) -> Self {
        ParseStyleTokenError::Memory
    }
}
