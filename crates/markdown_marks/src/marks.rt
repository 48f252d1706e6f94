//! How leaves begin: each is told by the bytes after at most three columns of blanks.

ghost use Rattle.std.specs.Prelude.{◌≡◌, ◌≤◌, ◌==◌, ◌||◌, length, count_by, IfSome};
ghost use Rattle.std.specs.List.{list_all, list_any};
ghost use Rattle.markdown_marks.specs.Bytes.{is_blank_byte};
ghost use Rattle.markdown_marks.specs.Marks.{is_rule_of, is_rule, heading_level, fence_start, underline_level};

use crate::bytes::{count_in_front, ends_sign, first, is_run_alone, tail};

/// A fence of a block of code.
#[derive(Debug, Clone, Copy, PartialEq, Eq)]
pub struct Fence {
    /// A backquote or a tilde.
    pub sign: u8,
    /// How many times it is repeated, three at least.
    pub length: usize,
}

/// Whether the line is a thematic break: three or more of one of the signs `*`, `-` and `_`, with nothing but blanks between them.
#[tactic(auto, unfolding(crate::specs::Marks::is_rule))]
pub fn is_rule(bytes: &[u8]) -> bool
    ensures { result ≡ is_rule bytes.now }
{
    let sign = first(bytes);
    (sign == b'*' || sign == b'-' || sign == b'_') && is_rule_of(bytes, sign)
}

// Whether there are three or more of this sign, with nothing but blanks between them.
fn is_rule_of(bytes: &[u8], sign: u8) -> bool
    ensures { result ≡ is_rule_of sign bytes.now }
{
    is_made_of(bytes, sign) && count_of(bytes, sign) >= 3
}

// Whether all are this sign or blanks.
fn is_made_of(bytes: &[u8], sign: u8) -> bool
    ensures { result ≡ list_all (λ b. (b == sign) || is_blank_byte b) bytes.now }
{
    bytes
        .iter()
        .all(|byte| *byte == sign || *byte == b' ' || *byte == b'\t')
}

// How often this sign is among them.
fn count_of(bytes: &[u8], sign: u8) -> usize
    ensures { result ≡ count_by (λ b. b == sign) bytes.now }
{
    bytes.iter().filter(|byte| **byte == sign).count()
}

/// The level of the heading that begins here, if one does: how many signs `#` there are, one to six. A blank follows them, or nothing.
#[tactic(auto, unfolding(crate::specs::Marks::heading_level))]
pub fn heading_level(bytes: &[u8]) -> Option<usize>
    ensures value { result ≡ heading_level bytes.now }
    ensures within { IfSome result (λ level. level ≤ length bytes.now) }
    ensures few { IfSome result (λ level. level ≤ 6) }
{
    let level = count_in_front(bytes, b'#');
    if level == 0 || level > 6 || !ends_sign(tail(bytes, level)) {
        return None;
    }
    Some(level)
}

/// The fence that begins a block of code here, if one does. After backquotes there is no further one in the line.
#[tactic(auto, unfolding(crate::specs::Marks::fence_start))]
pub fn fence_start(bytes: &[u8]) -> Option<Fence>
    ensures value { result ≡ fence_start bytes.now }
    ensures within { IfSome result (λ fence. fence.length ≤ length bytes.now) }
{
    let sign = first(bytes);
    let length = count_in_front(bytes, sign);
    let fits = (sign == b'`' || sign == b'~') && length >= 3;
    if !fits || (sign == b'`' && has_backquote(tail(bytes, length))) {
        return None;
    }
    Some(Fence { sign, length })
}

// Whether a backquote is among them.
fn has_backquote(bytes: &[u8]) -> bool
    ensures { result ≡ list_any (λ b. b == 96) bytes.now }
{
    bytes.iter().any(|byte| *byte == b'`')
}

/// The level of the heading that this line makes of the paragraph before it: 1 where it is of `=` alone, 2 where of `-`. Blanks may follow.
#[tactic(auto, unfolding(crate::specs::Marks::underline_level))]
pub fn underline_level(bytes: &[u8]) -> Option<usize>
    ensures { result ≡ underline_level bytes.now }
{
    if is_run_alone(bytes, b'=', 1) {
        Some(1)
    } else if is_run_alone(bytes, b'-', 1) {
        Some(2)
    } else {
        None
    }
}
