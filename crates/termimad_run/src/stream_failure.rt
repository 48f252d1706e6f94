//! How a run fails while its text comes.

ghost use Rattle.std.specs.Prelude.{◌≡◌};
ghost use Rattle.termimad_run.specs.StreamFailures.{streamed_failure};

use mad_stream::SourceError;
use termimad_words::Failure;

/// What makes of a run that a source wasn't written whole.
pub(crate) fn streamed_failure(e: SourceError) -> Failure
    ensures { result ≡ streamed_failure e }
{
    match e {
        SourceError::Source(_) | SourceError::Device(_) => Failure::Io,
        SourceError::NotUtf8 => Failure::NotUtf8,
        SourceError::Memory => Failure::Memory,
    }
}
