//! What is sought: a text, read as a regular expression.

ghost use Rattle.std.specs.Prelude.{◌≡◌, IfOk, IfErr, option_map};
ghost use Rattle.regex.specs.Failures.{IsRightKind};
ghost use Rattle.regex.specs.Sources.{IsRefusal};
ghost use Rattle.regex.specs.Strings.{IsReadFromSource, regex_config, regex_pattern, regex_source};
ghost use Rattle.mad_patterns.specs.Readings.{is_of_memory, options, reading_of, IsReadingOf, IsSaidOf};

use crate::faults::Fault;
use crate::letters::has_capital;
use regex::{Error, Regex, RegexBuilder};
use std::alloc::{AllocError, Global};

/// What is sought.
#[derive(Drop)]
pub enum Sought {
    /// Nothing.
    Nothing,
    /// What a regular expression matches.
    Pattern(Regex),
    /// Nothing, since a text is no regular expression.
    Refused(Fault),
}

impl Sought {
    /// What a text says that is to be sought, which is read as a regular expression. Where it has no capital but behind a backslash, it
    /// stands for any case. An empty text says that nothing is.
    ///
    /// # Errors
    ///
    /// Out of memory is the only error.
    pub fn read(alloc: Global, text: &str) -> Result<Self, AllocError>
        ensures { IfOk result (λ sought. IsReadingOf text.now (reading_of sought)) }
    {
        if text.is_empty() {
            return Ok(Sought::Nothing);
        }
        match built(alloc, text) {
            Ok(regex) => Ok(Sought::Pattern(regex)),
            Err(error) => refused(error),
        }
    }

    /// The regular expression, if something is sought.
    pub fn pattern(&self) -> Option<&Regex>
        ensures { option_map (λ regex. regex_pattern regex.now) result ≡ (reading_of self.now).pattern }
    {
        match self {
            Sought::Pattern(regex) => Some(regex),
            Sought::Nothing | Sought::Refused(_) => None,
        }
    }

    /// Why nothing is, where a text is no regular expression.
    pub fn fault(&self) -> Option<Fault>
        ensures { result ≡ (reading_of self.now).fault }
    {
        match self {
            Sought::Refused(fault) => Some(*fault),
            Sought::Nothing | Sought::Pattern(_) => None,
        }
    }
}

// What an error of a text says: out of memory, or why it is no regular expression.
fn refused(error: Error) -> Result<Sought, AllocError>
    ensures { IfOk result (IsSaidOf error) }
{
    if is_of_memory(error) {
        return Err(AllocError);
    }
    Ok(Sought::Refused(Fault::of_error(error)))
}

// Whether an error is out of memory.
fn is_of_memory(error: Error) -> bool
    ensures { result ≡ is_of_memory error }
{
    matches!(error, Error::OutOfMemory)
}

// A text as a regular expression.
fn built(alloc: Global, text: &str) -> Result<Regex, Error>
    ensures source { IfOk result (λ regex. regex_source regex ≡ text.now) }
    ensures under { IfOk result (λ regex. regex_config regex ≡ options text.now) }
    ensures read { IfOk result IsReadFromSource }
    ensures refused { IfErr result (IsRefusal (options text.now) text.now) }
    ensures right { IfErr result (IsRightKind (options text.now) text.now) }
{
    RegexBuilder::new(text)
        .case_insensitive(!has_capital(text))
        .build(alloc)
}
