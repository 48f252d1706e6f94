//! The characters of a text of bytes, and which of them are counted.

ghost use Rattle.std.specs.Prelude.{◌≡◌, ◌<◌, ◌≤◌, length};
ghost use Rattle.bstr.specs.Utf8.{decoded, or_replacement};
ghost use Rattle.code_tones.specs.Tones.{is_counted};

use bstr::decode_lossy;

/// The first character, and its bytes: U+FFFD for bytes that are no character.
#[tactic(auto, using(crate::proofs::WalkLemmas::size_some, crate::proofs::WalkLemmas::size_within))]
pub(crate) fn first_char(text: &[u8]) -> (char, usize)
    requires { 0 < length text.now }
    ensures char { result.0 ≡ or_replacement (decoded text.now).char }
    ensures size { result.1 ≡ (decoded text.now).size }
    ensures some { 0 < result.1 }
    ensures within { result.1 ≤ length text.now }
{
    decode_lossy(text)
}

/// Whether a character is no whitespace.
pub(crate) fn is_counted(c: char) -> bool
    ensures { result ≡ is_counted c }
{
    !c.is_whitespace()
}
