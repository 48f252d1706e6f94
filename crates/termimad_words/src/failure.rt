//! How a run fails.

ghost use Rattle.std.specs.Prelude.{◌≡◌};
ghost use Rattle.serde_json.specs.Errors.{IsMemory};
ghost use Rattle.termimad_words.specs.Failures.{status_of, failure_line, failure_of, skin_failure, SaysOnce};

use mad_json::SkinError;
use mad_term::{Error, Out, put_all};
use std::alloc::{AllocError, AllocFailed};
use std::io;

/// Why a run ended with a status other than 0.
#[derive(Clone, Copy, PartialEq, Eq, Debug)]
pub enum Failure {
    /// A fault of the input or of the output.
    Io,
    /// The arguments are no call of the program.
    Usage,
    /// The input is no text.
    NotUtf8,
    /// The skin's word is no JSON text, or says no skin.
    Skin,
    /// Out of memory.
    Memory,
}

impl Failure {
    /// The exit status.
    pub fn status(self) -> u8
        ensures { result ≡ status_of self }
    {
        match self {
            Failure::Io => 1,
            Failure::Usage => 2,
            Failure::NotUtf8 => 3,
            Failure::Skin => 4,
            Failure::Memory => 5,
        }
    }

    /// What standard error gets: one line.
    pub fn line(self) -> &'static [u8]
        ensures { result.now ≡ failure_line self }
    {
        match self {
            Failure::Io => b"termimad-view: io\n",
            Failure::Usage => {
                b"usage: termimad-view area L T W H [SKIN] | text W [SKIN] | inline [SKIN]\n"
            }
            Failure::NotUtf8 => b"termimad-view: input is not UTF-8\n",
            Failure::Skin => b"termimad-view: skin\n",
            Failure::Memory => b"termimad-view: memory\n",
        }
    }
}

impl From<io::Error> for Failure {
    ghost use Rattle.termimad_words.specs.declared.failure.Failure.TheVariants.{Io};

    ghost from_gives = { λ _ failure. failure ≡ Io };

    fn from(_: io::Error) -> Self {
        Failure::Io
    }
}

impl<T: Drop> From<AllocFailed<T>> for Failure {
    ghost use Rattle.termimad_words.specs.declared.failure.Failure.TheVariants.{Memory};

    ghost from_gives = { λ _ failure. failure ≡ Memory };

    fn from(_: AllocFailed<T>) -> Self {
        Failure::Memory
    }
}

impl From<AllocError> for Failure {
    ghost use Rattle.termimad_words.specs.declared.failure.Failure.TheVariants.{Memory};

    ghost from_gives = { λ _ failure. failure ≡ Memory };

    fn from(_: AllocError) -> Self {
        Failure::Memory
    }
}

impl From<Error> for Failure {
    ghost from_gives = { λ e failure. failure ≡ failure_of e };

    /// No writing call refuses by a width here.
    fn from(e: Error) -> Self {
        match e {
            Error::IO(_) | Error::InsufficientWidth(_) => Failure::Io,
            Error::Memory => Failure::Memory,
        }
    }
}

impl From<serde_json::Error> for Failure {
    ghost use Rattle.termimad_words.specs.declared.failure.Failure.TheVariants.{Skin, Memory};

    ghost from_gives = { λ e failure. (IsMemory e → failure ≡ Memory) × (¬ IsMemory e → failure ≡ Skin) };

    fn from(e: serde_json::Error) -> Self {
        if e.is_memory() {
            return Failure::Memory;
        }
        Failure::Skin
    }
}

impl From<SkinError> for Failure {
    ghost from_gives = { λ e failure. failure ≡ skin_failure e };

    fn from(e: SkinError) -> Self {
        match e {
            SkinError::Memory => Failure::Memory,
            _ => Failure::Skin,
        }
    }
}

/// Says a failure on a device, once, and answers its status. A fault of the device changes nothing.
pub fn refuse<E: Out>(err: &mut E, failure: Failure) -> u8
    ensures status { result ≡ status_of failure }
    ensures said { SaysOnce (E.seen err.old) (failure_line failure) (E.seen err.new) }
{
    let _ = put_all(err, failure.line());
    failure.status()
}
