//! Why a source wasn't written whole.

ghost use Rattle.mad_stream.specs.SourceErrors.{source_error_text};

use std::{fmt, io};

/// Why a source wasn't written whole.
#[derive(Debug, Drop)]
pub enum SourceError {
    /// The source failed in this very call.
    Source(io::Error),
    /// The device failed in this very call.
    Device(io::Error),
    /// What was read isn't UTF-8.
    NotUtf8,
    /// A growth of a list or a text was refused.
    Memory,
}

impl fmt::Display for SourceError {
    ghost output = { source_error_text };

    fn fmt<W: fmt::Write>(&self, f: &mut fmt::Formatter<W>) -> fmt::Result {
        match self {
            SourceError::Source(e) => write!(f, "source: {e}"),
            SourceError::Device(e) => write!(f, "device: {e}"),
            SourceError::NotUtf8 => write!(f, "not UTF-8"),
            SourceError::Memory => write!(f, "out of memory"),
        }
    }
}

impl std::error::Error for SourceError {}
