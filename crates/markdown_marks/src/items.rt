//! How items of lists begin.

ghost use Rattle.std.specs.Prelude.{◌≡◌, ◌≤◌, length, take, IfSome, slice_index};
ghost use Rattle.std.specs.List.{prefix_len};
ghost use Rattle.std.specs.Char.{is_ascii_digit};
ghost use Rattle.markdown_marks.specs.Items.{marker_start, ordered_of, may_interrupt, is_bullet};

use crate::bytes::{digits_in_front, ends_sign, first, is_blank, number, tail};

/// The marker of an item.
#[derive(Debug, Clone, Copy, PartialEq, Eq)]
pub struct Marker {
    /// The bullet `-`, `+` or `*`, or what stands after a number: `.` or `)`.
    pub sign: u8,
    /// The number, which has at most nine digits; 0 after a bullet.
    pub number: u32,
    /// How many bytes the marker has.
    pub length: usize,
}

/// The marker of the item that begins here, if one does. A blank follows a marker, or nothing.
pub fn marker_start(bytes: &[u8]) -> Option<Marker>
    ensures value { result ≡ marker_start bytes.now }
    ensures within { IfSome result (λ marker. marker.length ≤ length bytes.now) }
    ensures few { IfSome result (λ marker. marker.length ≤ 10) }
{
    let sign = first(bytes);
    if is_bullet(sign) {
        if !ends_sign(tail(bytes, 1)) {
            return None;
        }
        return Some(Marker {
            sign,
            number: 0,
            length: 1,
        });
    }
    ordered_of(bytes)
}

// Whether the byte is a hyphen, a plus sign or a star.
fn is_bullet(sign: u8) -> bool
    ensures { result ≡ is_bullet sign }
{
    sign == b'*' || sign == b'+' || sign == b'-'
}

// The marker of one to nine digits, and a full stop or a parenthesis.
fn ordered_of(bytes: &[u8]) -> Option<Marker>
    ensures value { result ≡ ordered_of (prefix_len is_ascii_digit bytes.now) (slice_index bytes.now (prefix_len is_ascii_digit bytes.now)) bytes.now }
    ensures within { IfSome result (λ marker. marker.length ≤ length bytes.now) }
    ensures few { IfSome result (λ marker. marker.length ≤ 10) }
{
    let digits = digits_in_front(bytes);
    if digits == 0 || digits > 9 || digits == bytes.len() {
        return None;
    }
    let sign = bytes[digits];
    let fits = sign == b'.' || sign == b')';
    if !fits || !ends_sign(tail(bytes, digits + 1)) {
        return None;
    }
    let number = number(&bytes[..digits]);
    Some(Marker {
        sign,
        number,
        length: digits + 1,
    })
}

/// Whether an item may begin in a paragraph's next line. The bytes begin with its marker. Such an item isn't empty, and a number is 1.
pub fn may_interrupt(marker: Marker, bytes: &[u8]) -> bool
    requires { marker.length ≤ length bytes.now }
    ensures { result ≡ may_interrupt marker bytes.now }
{
    !is_blank(tail(bytes, marker.length)) && (is_bullet(marker.sign) || marker.number == 1)
}
