//! The characters that a terminal is shown.

ghost use Rattle.std.specs.Prelude.{◌≡◌, true};
ghost use Rattle.markdown_inlines.specs.Printable.{is_printable, shown_char};

use mad_characters::picture;

/// What is shown of a character: a space for a tab and a newline, and else what [`picture`] says.
///
/// No control character comes out, nor one that turns the direction of writing.
#[tactic(auto, using(crate::proofs::PrintableLemmas::shown_is))]
pub fn shown_char(c: char) -> char
    ensures value { result ≡ shown_char c }
    ensures printable { is_printable result ≡ true }
{
    if c == '\t' || c == '\n' {
        return ' ';
    }
    picture(c)
}
