//! Fronts of a text that are graphic ASCII, told by their bytes.

ghost use Rattle.std.specs.Prelude.{◌≡◌, ◌≤◌, ◌<◌, ◌+◌, ◌^◌, length};
ghost use Rattle.mad_measure.specs.Ascii.{AreGraphic, AreSpacesOrGraphic, is_end_of_word, is_lone_space};

use crate::chunks::plain_end;

/// How many bytes from `start` on are graphic ASCII characters, counted up to `most`.
///
/// Each of these takes one byte and one column.
pub(crate) fn graphic_at(text: &str, start: usize, most: usize) -> usize
    requires { start ≤ length text.now }
    ensures graphic { AreGraphic text.now start result }
    ensures inside { start + result ≤ length text.now }
    ensures within { result ≤ most }
    ensures fits { length text.now < 2 ^ 64 }
{
    let bytes = text.as_bytes();
    let room = most.min(bytes.len() - start);
    let mut count = 0;
    while count < room && bytes[start + count].is_ascii_graphic() {
        count += 1;
    }
    count
}

/// How many bytes at the front are spaces and graphic ASCII characters, counted up to `most`.
///
/// Each of these takes one byte and one column.
pub(crate) fn ascii_front(text: &str, most: usize) -> usize
    ensures ascii { AreSpacesOrGraphic text.now result }
    ensures inside { result ≤ length text.now }
    ensures within { result ≤ most }
{
    let bytes = text.as_bytes();
    let room = most.min(bytes.len());
    plain_end(&bytes[..room], 0)
}

/// Whether the text ends at this byte, or has a space there that isn't code.
pub(crate) fn is_end_of_word(text: &str, code: bool, end: usize) -> bool
    ensures { result ≡ is_end_of_word code text.now end }
{
    let bytes = text.as_bytes();
    end >= bytes.len() || (bytes[end] == b' ' && !code)
}

/// Whether there is a space at this byte that isn't code, and after it a graphic ASCII character or the end.
pub(crate) fn is_lone_space(text: &str, code: bool, at: usize) -> bool
    requires { at < length text.now }
    ensures { result ≡ is_lone_space code text.now at }
{
    let bytes = text.as_bytes();
    !code && bytes[at] == b' ' && (at + 1 >= bytes.len() || bytes[at + 1].is_ascii_graphic())
}
