//! Cutting a text into lines.

ghost use Rattle.std.specs.Prelude.{◌≡◌, ◌≤◌, ◌<◌, ◌∷◌, not, length};
ghost use Rattle.std.specs.List.{prefix_len};
ghost use Rattle.markdown_blocks.specs.Lines.{is_line_end, text_lines, end_len};

use markdown_marks::bytes::tail;
use memchr::memchr2;

// How many bytes are before the first end of a line, or in all.
fn line_len(text: &[u8]) -> usize
    ensures value { result ≡ prefix_len (λ b. not (is_line_end b)) text.now }
    ensures within { result ≤ length text.now }
{
    memchr2(b'\n', b'\r', text).unwrap_or(text.len())
}

// How many bytes of an end of a line are in front.
fn end_len(text: &[u8]) -> usize
    ensures value { result ≡ end_len text.now }
    ensures within { result ≤ length text.now }
    ensures some { 0 < length text.now → 0 < result }
{
    match text {
        [] => 0,
        [b'\r', b'\n', ..] => 2,
        [_, ..] => 1,
    }
}

/// The first line, without its end, and what comes after it.
pub fn cut_line(text: &[u8]) -> (&[u8], &[u8])
    requires { 0 < length text.now }
    ensures lines { text_lines text.entry.now ≡ result.0.now ∷ text_lines result.1.now }
    ensures shorter { length result.1.now < length text.entry.now }
{
    let len = line_len(text);
    let end = tail(text, len);
    (&text[..len], tail(end, end_len(end)))
}
