//! Names of values, in any ASCII case.

ghost use Rattle.std.specs.Prelude.{◌≡◌, map};
ghost use Rattle.mad_parse.specs.Names.{named};

/// The value that a table has for a text: that of the first name that the text is, without regard to ASCII case.
pub(crate) fn named<T: Copy>(names: &[(&str, T)], text: &str) -> Option<T>
    ensures { result ≡ named (map (λ entry. (entry.0.now, entry.1)) names.now) text.now }
{
    for (name, value) in names {
        if text.eq_ignore_ascii_case(name) {
            return Some(*value);
        }
    }
    None
}
