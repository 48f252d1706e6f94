//! Bytes of a line: blanks, and runs of one byte.

ghost use Rattle.std.specs.Prelude.{◌≡◌, ◌≤◌, ◌==◌, length, drop, take};
ghost use Rattle.std.specs.List.{prefix_len};
ghost use Rattle.std.specs.Char.{is_ascii_digit};
ghost use Rattle.std.specs.Str.Parse.{AllDigits, digits_value};
ghost use Rattle.markdown_marks.specs.Bytes.{is_blank_byte, is_blank, first, count_in_front, ends_sign, is_run_alone, without_blanks};

/// Whether the byte is a space or a tab.
pub fn is_blank_byte(byte: u8) -> bool
    ensures { result ≡ is_blank_byte byte }
{
    byte == b' ' || byte == b'\t'
}

/// Whether there is nothing but blanks.
#[tactic(auto, unfolding(crate::specs::Bytes::is_blank))]
pub fn is_blank(bytes: &[u8]) -> bool
    ensures { result ≡ is_blank bytes.now }
{
    bytes.iter().all(|byte| *byte == b' ' || *byte == b'\t')
}

/// The first byte, 0 if there is none.
pub fn first(bytes: &[u8]) -> u8
    ensures { result ≡ first bytes.now }
{
    if bytes.is_empty() { 0 } else { bytes[0] }
}

/// How many times the byte is repeated in front.
#[tactic(auto, unfolding(crate::specs::Bytes::count_in_front))]
pub fn count_in_front(bytes: &[u8], byte: u8) -> usize
    ensures value { result ≡ count_in_front byte bytes.now }
    ensures within { result ≤ length bytes.now }
{
    let mut i = 0;
    while i < bytes.len() && bytes[i] == byte {
        i += 1;
    }
    i
}

/// How many digits are in front.
pub fn digits_in_front(bytes: &[u8]) -> usize
    ensures value { result ≡ prefix_len is_ascii_digit bytes.now }
    ensures within { result ≤ length bytes.now }
{
    let mut i = 0;
    while i < bytes.len() && bytes[i].is_ascii_digit() {
        i += 1;
    }
    i
}

/// How many blanks are in front.
pub fn blanks_in_front(bytes: &[u8]) -> usize
    ensures value { result ≡ prefix_len is_blank_byte bytes.now }
    ensures within { result ≤ length bytes.now }
{
    let mut i = 0;
    while i < bytes.len() && is_blank_byte(bytes[i]) {
        i += 1;
    }
    i
}

/// The bytes from position `from` on.
pub fn tail(bytes: &[u8], from: usize) -> &[u8]
    requires { from ≤ length bytes.now }
    ensures { result.now ≡ drop from bytes.now }
{
    &bytes[from..]
}

/// Whether a sign ends before these bytes: there are none, or a blank is first.
pub fn ends_sign(bytes: &[u8]) -> bool
    ensures { result ≡ ends_sign bytes.now }
{
    bytes.is_empty() || is_blank_byte(first(bytes))
}

/// Whether the bytes are at least `least` times this byte, and then nothing but blanks.
#[tactic(auto, unfolding(crate::specs::Bytes::is_run_alone))]
pub fn is_run_alone(bytes: &[u8], byte: u8, least: usize) -> bool
    ensures { result ≡ is_run_alone byte least bytes.now }
{
    let count = count_in_front(bytes, byte);
    least <= count && is_blank(tail(bytes, count))
}

/// The bytes without the blanks in front.
#[tactic(auto, unfolding(crate::specs::Bytes::without_blanks))]
pub fn without_blanks(bytes: &[u8]) -> &[u8]
    ensures { result.now ≡ without_blanks bytes.now }
{
    let blanks = blanks_in_front(bytes);
    tail(bytes, blanks)
}

/// The number that at most nine digits write.
pub fn number(digits: &[u8]) -> u32
    requires few { length digits.now ≤ 9 }
    requires digits { AllDigits 10 digits.now }
    ensures { result ≡ digits_value 10 digits.now }
{
    let mut number: u32 = 0;
    for digit in digits {
        number = number * 10 + u32::from(*digit - b'0');
    }
    number
}
