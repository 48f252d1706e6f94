//! Numbers on the command line.

ghost use Rattle.std.specs.Prelude.{ℕ, MatchOption};
ghost use Rattle.termimad_words.specs.Numbers.{IsNumber};

/// The number that a word is: one or more ASCII digits of a value of at most 65535, and nothing else. Leading zeros are
/// allowed; a sign or a space is not.
pub fn parse_number(word: &str) -> Option<u16>
    ensures { MatchOption result ((n : ℕ) → ¬ (IsNumber word.now n)) (λ n. IsNumber word.now n) }
{
    // A number of the standard library may begin with a plus.
    if word.as_bytes().first() == Some(&b'+') {
        return None;
    }
    word.parse::<u16>().ok()
}
