//! The first characters of a text.

ghost use Rattle.std.specs.Prelude.{◌≡◌, ◌+◌, ◌≤◌, ◌∷◌, [], length, chars, slice_index, MatchOption, IfSome};

/// The first character of a text, and the text behind it.
pub(crate) fn cut_first(text: &str) -> Option<(char, &str)>
    ensures cases { MatchOption result (chars text.entry.now ≡ []) (λ p. chars text.entry.now ≡ p.0 ∷ chars p.1.now) }
    ensures shorter { IfSome result (λ p. length p.1.now + 1 ≤ length text.entry.now) }
{
    let mut rest = text.chars();
    match rest.next() {
        Some(c) => Some((c, rest.as_str())),
        None => None,
    }
}

/// The first character of a text, 0 if there is none.
pub(crate) fn first(text: &str) -> char
    ensures { result ≡ slice_index (chars text.now) 0 }
{
    match cut_first(text) {
        Some((c, _)) => c,
        None => '\0',
    }
}

/// The second character of a text, 0 if there is none.
pub(crate) fn second(text: &str) -> char
    ensures { result ≡ slice_index (chars text.now) 1 }
{
    match cut_first(text) {
        Some((_, rest)) => first(rest),
        None => '\0',
    }
}
