//! The tone of a class: a number, 0 for what is plain.

ghost use Rattle.std.specs.Prelude.{◌≡◌, ◌<◌};
ghost use Rattle.code_tones.specs.Tones.{tone_of};

use code_tables::rules::Class;

/// How many tones there are.
pub const TONES: usize = 9;

/// The tone of a class.
pub fn tone_of(class: Class) -> usize
    ensures value { result ≡ tone_of class }
    ensures few { result < TONES }
{
    match class {
        Class::Plain => 0,
        Class::Comment => 1,
        Class::Text => 2,
        Class::Number => 3,
        Class::Keyword => 4,
        Class::Name => 5,
        Class::Key => 6,
        Class::Inserted => 7,
        Class::Deleted => 8,
    }
}
