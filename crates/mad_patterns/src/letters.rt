//! Capitals in what is sought.

ghost use Rattle.std.specs.Prelude.{◌≡◌, ◌==◌, ◌&&◌, not};
ghost use Rattle.mad_patterns.specs.Capitals.{has_capital, is_capital, small};

/// Whether a text has a capital: a character whose small form is another one. One behind a backslash doesn't count, as the W of `\W`.
pub(crate) fn has_capital(text: &str) -> bool
    ensures { result ≡ has_capital text.now }
{
    let mut has_one = false;
    let mut is_behind = false;
    for c in text.chars() {
        has_one |= counts(c, is_behind);
        is_behind = hides_next(c, is_behind);
    }
    has_one
}

// Whether a character is a capital that isn't behind a backslash.
fn counts(c: char, is_behind: bool) -> bool
    ensures { result ≡ (not is_behind && is_capital c) }
{
    !is_behind && is_capital(c)
}

// Whether it is a backslash that the next character is behind.
fn hides_next(c: char, is_behind: bool) -> bool
    ensures { result ≡ (not is_behind && (c == 92)) }
{
    !is_behind && c == '\\'
}

// Whether a character's small form is another one.
fn is_capital(c: char) -> bool
    ensures { result ≡ is_capital c }
{
    small(c) != c
}

// The small form of a character, as Unicode has it. A character whose small form isn't one character is its own.
fn small(c: char) -> char
    ensures { result ≡ small c }
{
    let mut letters = c.to_lowercase();
    match (letters.next(), letters.next()) {
        (Some(letter), None) => letter,
        _ => c,
    }
}
