//! Why a value is no skin.

ghost use Rattle.std.specs.Prelude.{◌≡◌, ℕ, Bool, List, Some, Result, string_bytes};
ghost use Rattle.mad_layout.specs.declared.skin.MadSkin.{MadSkin};
ghost use Rattle.mad_json.specs.Faults.{ValueFault, TellsValue, TellsSkin};
ghost use Rattle.mad_json.specs.Reading.{found_part};
ghost use Rattle.mad_json.specs.Errors.{skin_error_text};

use mad_parse::ParseStyleTokenError;
use std::alloc::{AllocError, AllocFailed};
use std::error::Error;
use std::fmt;

/// Why a value is no skin.
#[derive(Debug, Drop)]
pub enum SkinError {
    /// The value is no object.
    NotObject,
    /// The value of this key is of another kind than its part of a skin, or it holds a float.
    WrongType {
        key: String,
    },
    /// A text in the value of this key has a word that is no style token, or says no indentation mode.
    Style {
        key: String,
        error: ParseStyleTokenError,
    },
    /// This key names a part that another key before it named.
    TwoNames {
        key: String,
    },
    /// A growth of a list or a text was refused.
    Memory,
}

impl fmt::Display for SkinError {
    ghost output = { λ e. Some (skin_error_text e) };

    fn fmt<W: fmt::Write>(&self, f: &mut fmt::Formatter<W>) -> fmt::Result {
        match self {
            SkinError::NotObject => f.write_str("not an object"),
            SkinError::WrongType { key } => write!(f, "wrong type: {key}"),
            SkinError::Style { key, error } => write!(f, "{key}: {error}"),
            SkinError::TwoNames { key } => write!(f, "two names: {key}"),
            SkinError::Memory => f.write_str("want of memory"),
        }
    }
}

impl Error for SkinError {}

impl From<AllocError> for SkinError {
    ghost use Rattle.mad_json.specs.declared.errors.SkinError.TheVariants.{Memory};

    ghost from_gives = { λ _ e. e ≡ Memory };

    fn from(_: AllocError) -> Self {
        SkinError::Memory
    }
}

/// Why the value of a key says no part of a skin.
#[derive(Debug, Drop)]
pub enum ValueError {
    /// The value is of another kind than its part.
    WrongType,
    /// A text in it has a word that is no style token, or says no indentation mode.
    Style(ParseStyleTokenError),
    /// A growth of a list or a text was refused.
    Memory,
}

impl From<ParseStyleTokenError> for ValueError {
    ghost use Rattle.mad_json.specs.Faults.{value_error_of};

    ghost from_gives = { λ error e. e ≡ value_error_of error };

    fn from(error: ParseStyleTokenError) -> Self {
        match error {
            ParseStyleTokenError::Memory => ValueError::Memory,
            error => ValueError::Style(error),
        }
    }
}

impl From<AllocError> for ValueError {
    ghost use Rattle.mad_json.specs.declared.errors.ValueError.TheVariants.{Memory};

    ghost from_gives = { λ _ e. e ≡ Memory };

    fn from(_: AllocError) -> Self {
        ValueError::Memory
    }
}

impl<T: Drop> From<AllocFailed<T>> for ValueError {
    ghost use Rattle.mad_json.specs.declared.errors.ValueError.TheVariants.{Memory};

    ghost from_gives = { λ _ e. e ≡ Memory };

    fn from(_: AllocFailed<T>) -> Self {
        ValueError::Memory
    }
}

/// The error of a skin whose key has a value that is refused so.
pub(crate) fn at_key(key: &String, error: ValueError) -> SkinError
    ensures { (read : Result MadSkin ValueFault) (seen : List Bool) (unknown : List (List ℕ)) → TellsValue error read → TellsSkin result (found_part (string_bytes key.now) seen unknown read) }
{
    let Ok(key) = key.clone() else {
        return SkinError::Memory;
    };
    match error {
        ValueError::WrongType => SkinError::WrongType { key },
        ValueError::Style(error) => SkinError::Style { key, error },
        ValueError::Memory => SkinError::Memory,
    }
}
