//! How far a word goes from the cursor, in its line.

ghost use Rattle.std.specs.Prelude.{◌≡◌, ◌≤◌, ◌<◌, ◌↔◌, length};
ghost use Rattle.mad_edit.specs.Words.{word_before, word_after};

use mad_edit_lines::CharClass;

/// How far a word goes to the left, of the characters before the cursor in its line.
pub(crate) fn word_before(front: &[char]) -> usize
    ensures is { result ≡ word_before front.now }
    ensures within { result ≤ length front.now }
    ensures some { (0 < result) ↔ (0 < length front.now) }
{
    let len = front.len();
    if len == 0 {
        return 0;
    }
    1 + CharClass::Alphanumeric.count_end(&front[..len - 1])
}

/// How far a word goes to the right, of the characters after the cursor in its line.
pub(crate) fn word_after(rest: &[char]) -> usize
    ensures is { result ≡ word_after rest.now }
    ensures within { result ≤ length rest.now }
    ensures some { (0 < result) ↔ (0 < length rest.now) }
{
    let len = rest.len();
    if len == 0 {
        return 0;
    }
    1 + CharClass::Alphanumeric.count_front(&rest[len.min(2)..])
}
