//! Code spans.

ghost use Rattle.std.specs.Prelude.{◌≡◌, ◌+◌, ◌≤◌, IfSome, length, drop};
ghost use Rattle.std.specs.List.{list_all};
ghost use Rattle.markdown_spans.specs.Ticks.{AreLasts};
ghost use Rattle.markdown_spans.specs.Code.{code_of, spaced, is_space, is_padded};

use crate::ticks::first_run;
use markdown_marks::bytes::{count_in_front, tail};

/// A code span at the beginning of a rest.
#[derive(Debug, Clone, Copy)]
pub struct Code {
    /// How many backquotes it begins and ends with.
    pub marks: usize,
    /// How many bytes are between them.
    pub len: usize,
}

/// The code span that a run of backquotes begins, if one of the same length follows.
pub fn code_at(lasts: &[usize], text: &[u8], at: usize) -> Option<Code>
    requires lasts { AreLasts lasts.now text.now }
    requires within { at ≤ length text.now }
    ensures value { result ≡ code_of (drop at text.now) }
    ensures within { IfSome result (λ code. at + code.marks + code.len + code.marks ≤ length text.now) }
{
    let marks = count_in_front(tail(text, at), b'`');
    if marks == 0 {
        return None;
    }
    match first_run(lasts, text, at + marks, marks) {
        Some(len) => Some(Code { marks, len }),
        None => None,
    }
}

/// The end of a line as a space.
pub fn spaced(b: u8) -> u8
    ensures { result ≡ spaced b }
{
    if b == b'\n' { b' ' } else { b }
}

// Whether it is nothing but spaces and ends of lines.
fn is_space_alone(bytes: &[u8]) -> bool
    ensures { result ≡ list_all is_space bytes.now }
{
    bytes.iter().all(|b| spaced(*b) == b' ')
}

/// Whether there's a space at both ends that doesn't belong to it.
pub fn is_padded(bytes: &[u8]) -> bool
    ensures { result ≡ is_padded bytes.now }
{
    !bytes.is_empty()
        && spaced(bytes[0]) == b' '
        && spaced(bytes[bytes.len() - 1]) == b' '
        && !is_space_alone(bytes)
}
