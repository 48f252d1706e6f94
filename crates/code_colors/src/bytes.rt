//! Bytes of code, and how many of a kind are in front.

ghost use Rattle.std.specs.Prelude.{◌≡◌, ◌≤◌, ◌+◌, length, drop, IsTrue};
ghost use Rattle.std.specs.List.{prefix_len};
ghost use Rattle.std.specs.Char.{is_ascii_digit};
ghost use Rattle.code_tables.specs.Kinds.{is_blank_byte};
ghost use Rattle.code_colors.specs.Bytes.{first, is_in_line, is_continuation, is_among, char_len, line_len, is_word_byte, word_len, begins_word, digits_len, blanks_len, begins};

use code_tables::kinds::is_blank_byte;

/// The first byte, 0 if there is none.
pub fn first(bytes: &[u8]) -> u8
    ensures { result ≡ first bytes.now }
{
    if bytes.is_empty() { 0 } else { bytes[0] }
}

/// The bytes behind so many, if there are as many.
pub fn tail(bytes: &[u8], from: usize) -> &[u8]
    ensures { result.now ≡ drop from bytes.now }
{
    if from < bytes.len() {
        &bytes[from..]
    } else {
        &[]
    }
}

fn is_continuation(b: u8) -> bool
    ensures { result ≡ is_continuation b }
{
    128 <= b && b < 192
}

pub fn is_among(bytes: &[u8], b: u8) -> bool
    ensures { result ≡ is_among bytes.now b }
{
    bytes.iter().any(|c| *c == b)
}

pub fn is_word_byte(more: &[u8], b: u8) -> bool
    ensures { result ≡ is_word_byte more.now b }
{
    b.is_ascii_alphanumeric() || b == b'_' || 128 <= b || is_among(more, b)
}

/// Whether a word that has no mark before it begins with the byte.
pub fn begins_word(starts: &[u8], b: u8) -> bool
    ensures { result ≡ begins_word starts.now b }
{
    b.is_ascii_alphabetic() || b == b'_' || 128 <= b || is_among(starts, b)
}

fn begins_on(bytes: &[u8], prefix: &[u8]) -> bool
    ensures value { result ≡ begins bytes.now prefix.now }
    ensures within { IsTrue result → length prefix.now ≤ length bytes.now }
{
    let mut rest = bytes;
    let mut left = prefix;
    while let [p, next @ ..] = left {
        match rest {
            [b, after @ ..] if *b == *p => {
                rest = after;
                left = next;
            }
            _ => return false,
        }
    }
    true
}

/// Whether the bytes begin with others.
pub fn begins(bytes: &[u8], prefix: &[u8]) -> bool
    ensures value { result ≡ begins bytes.now prefix.now }
    ensures within { IsTrue result → length prefix.now ≤ length bytes.now }
{
    match prefix {
        [] => true,
        [p, left @ ..] => match bytes {
            [b, rest @ ..] if *b == *p => begins_on(rest, left),
            _ => false,
        },
    }
}

fn continuations(bytes: &[u8]) -> usize
    ensures value { result ≡ prefix_len is_continuation bytes.now }
    ensures within { result ≤ length bytes.now }
{
    let mut i = 0;
    while i < bytes.len() && is_continuation(bytes[i]) {
        i += 1;
    }
    i
}

/// How many bytes the first character has.
pub fn char_len(bytes: &[u8]) -> usize
    ensures value { result ≡ char_len bytes.now }
    ensures few { result ≤ length bytes.now + 1 }
{
    1 + continuations(tail(bytes, 1))
}

/// How many bytes are before the end of the line.
pub fn line_len(bytes: &[u8]) -> usize
    ensures value { result ≡ line_len bytes.now }
    ensures within { result ≤ length bytes.now }
{
    let mut i = 0;
    while i < bytes.len() && bytes[i] != b'\n' {
        i += 1;
    }
    i
}

/// How many bytes of a word are in front.
pub fn word_len(more: &[u8], bytes: &[u8]) -> usize
    ensures value { result ≡ word_len more.now bytes.now }
    ensures within { result ≤ length bytes.now }
{
    let mut i = 0;
    while i < bytes.len() && is_word_byte(more, bytes[i]) {
        i += 1;
    }
    i
}

/// How many digits are in front.
pub fn digits_len(bytes: &[u8]) -> usize
    ensures value { result ≡ digits_len bytes.now }
    ensures within { result ≤ length bytes.now }
{
    let mut i = 0;
    while i < bytes.len() && bytes[i].is_ascii_digit() {
        i += 1;
    }
    i
}

/// How many blanks are in front.
pub fn blanks_len(bytes: &[u8]) -> usize
    ensures value { result ≡ blanks_len bytes.now }
    ensures within { result ≤ length bytes.now }
{
    let mut i = 0;
    while i < bytes.len() && is_blank_byte(bytes[i]) {
        i += 1;
    }
    i
}
