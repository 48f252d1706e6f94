//! Why a text is no regular expression.

ghost use Rattle.std.specs.Prelude.{◌≡◌};
ghost use Rattle.mad_patterns.specs.Readings.{fault_of, fault_of_kind, fault_words};

use regex::Error;
use regex_syntax::ErrorKind;

/// Why a text is no regular expression.
#[derive(Clone, Copy, Debug, PartialEq, Eq)]
pub enum Fault {
    /// A group isn't closed.
    UnclosedGroup,
    /// A group is closed that isn't open.
    UnopenedGroup,
    /// A class in brackets isn't closed.
    UnclosedClass,
    /// A range in a class doesn't go from a character to a later one.
    WrongRange,
    /// There is nothing before a sign of repetition.
    NothingRepeated,
    /// How often something is repeated isn't said by one or two numbers in order.
    WrongCount,
    /// What is behind a backslash has no meaning.
    WrongBackslash,
    /// Unicode has no such class of characters.
    UnknownClass,
    /// The flags or the name of a group, which stand behind `(?`, aren't right.
    WrongGroup,
    /// What is before a place or behind it is asked for.
    LooksAround,
    /// It is too large, or groups are nested too deep.
    TooLarge,
    /// It is wrong in some other way.
    NoPattern,
}

impl Fault {
    /// The words of it.
    pub fn words(self) -> &'static str
        ensures { result.now ≡ fault_words self }
    {
        match self {
            Fault::UnclosedGroup => "unclosed (",
            Fault::UnopenedGroup => "unopened )",
            Fault::UnclosedClass => "unclosed [",
            Fault::WrongRange => "no such range",
            Fault::NothingRepeated => "nothing to repeat",
            Fault::WrongCount => "no such count",
            Fault::WrongBackslash => "no such \\",
            Fault::UnknownClass => "no such class",
            Fault::WrongGroup => "no such (?",
            Fault::LooksAround => "no looking around",
            Fault::TooLarge => "too large",
            Fault::NoPattern => "no pattern",
        }
    }

    // The one of an error of the kit's.
    pub(crate) fn of_error(error: Error) -> Self
        ensures { result ≡ fault_of error }
    {
        match error {
            Error::Syntax(error) => Fault::of_kind(error.kind),
            Error::CompiledTooBig | Error::Internal | Error::OutOfMemory => Fault::TooLarge,
        }
    }

    // The one of an error of this kind.
    fn of_kind(kind: ErrorKind) -> Self
        ensures { result ≡ fault_of_kind kind }
    {
        match kind {
            ErrorKind::GroupUnclosed => Fault::UnclosedGroup,
            ErrorKind::GroupUnopened => Fault::UnopenedGroup,
            ErrorKind::ClassUnclosed => Fault::UnclosedClass,
            ErrorKind::ClassRangeInvalid | ErrorKind::ClassRangeLiteral => Fault::WrongRange,
            ErrorKind::RepetitionMissing => Fault::NothingRepeated,
            ErrorKind::DecimalInvalid
            | ErrorKind::RepetitionCountDecimalEmpty
            | ErrorKind::RepetitionCountInvalid
            | ErrorKind::RepetitionCountUnclosed => Fault::WrongCount,
            ErrorKind::ClassEscapeInvalid
            | ErrorKind::EscapeHexEmpty
            | ErrorKind::EscapeHexInvalid
            | ErrorKind::EscapeHexInvalidDigit
            | ErrorKind::EscapeUnexpectedEof
            | ErrorKind::EscapeUnrecognized
            | ErrorKind::UnsupportedBackreference
            | ErrorKind::SpecialWordBoundaryUnclosed
            | ErrorKind::SpecialWordBoundaryUnrecognized
            | ErrorKind::SpecialWordOrRepetitionUnexpectedEof => Fault::WrongBackslash,
            ErrorKind::UnicodeClassInvalid
            | ErrorKind::UnicodePropertyNotFound
            | ErrorKind::UnicodePropertyValueNotFound => Fault::UnknownClass,
            ErrorKind::FlagDanglingNegation
            | ErrorKind::FlagDuplicate
            | ErrorKind::FlagRepeatedNegation
            | ErrorKind::FlagUnexpectedEof
            | ErrorKind::FlagUnrecognized
            | ErrorKind::GroupNameDuplicate
            | ErrorKind::GroupNameEmpty
            | ErrorKind::GroupNameInvalid
            | ErrorKind::GroupNameUnexpectedEof => Fault::WrongGroup,
            ErrorKind::UnsupportedLookAround => Fault::LooksAround,
            ErrorKind::CaptureLimitExceeded | ErrorKind::NestLimitExceeded => Fault::TooLarge,
            ErrorKind::InvalidUtf8 | ErrorKind::UnicodeNotAllowed | ErrorKind::OutOfMemory => {
                Fault::NoPattern
            }
        }
    }
}
