//! The first characters of a text.

ghost use Rattle.std.specs.Prelude.{◌≡◌, min, length, take, chars, encode_utf8_all};

/// The first characters of a text, `most` at most, and how many these are. One pass over them.
pub fn first_chars(text: &str, most: usize) -> (&str, usize)
    ensures front { result.0.now ≡ encode_utf8_all (take most (chars text.entry.now)) }
    ensures count { result.1 ≡ min most (length (chars text.entry.now)) }
{
    let mut bytes = 0;
    let mut count = 0;
    for c in text.chars() {
        if count == most {
            return (&text[..bytes], count);
        }
        bytes += c.len_utf8();
        count += 1;
    }
    (&text[..bytes], count)
}
