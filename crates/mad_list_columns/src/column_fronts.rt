//! The front of a text that some columns have room for.

ghost use Rattle.std.specs.Prelude.{◌≡◌, chars, encode_utf8_all};
ghost use Rattle.mad_measure.specs.TextColumns.{columns};
ghost use Rattle.mad_list_columns.specs.Places.{front_within};

use mad_characters::char_columns;

/// The characters at the front of a text for which `most` columns have room, and how many columns they take. One pass over them.
pub(crate) fn first_columns(text: &str, most: usize) -> (&str, usize)
    ensures front { result.0.now ≡ encode_utf8_all (front_within most (chars text.entry.now)) }
    ensures count { result.1 ≡ columns (front_within most (chars text.entry.now)) }
{
    let mut bytes = 0;
    let mut room = most;
    for c in text.chars() {
        let Some(left) = room.checked_sub(char_columns(c)) else {
            return (&text[..bytes], most - room);
        };
        bytes += c.len_utf8();
        room = left;
    }
    (&text[..bytes], most - room)
}
