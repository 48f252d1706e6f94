//! Addresses in angle brackets.

ghost use Rattle.std.specs.Prelude.{◌≡◌, ◌≤◌, false, length, IfSome};
ghost use Rattle.std.specs.List.{prefix_len};
ghost use Rattle.std.specs.Option.{option_copied};
ghost use Rattle.markdown_addresses.specs.Addresses.{is_scheme_byte, is_address_byte, is_local_byte, has_scheme, uri_len, may_end, domain_step, IsFew, after_domain, email_len, address_len, scheme_of};

use markdown_marks::bytes::{first, tail};

fn is_scheme_byte(b: u8) -> bool
    ensures { result ≡ is_scheme_byte b }
{
    b.is_ascii_alphanumeric() || b == b'+' || b == b'.' || b == b'-'
}

// No blank, no control character and no angle bracket.
fn is_address_byte(b: u8) -> bool
    ensures { result ≡ is_address_byte b }
{
    b > b' ' && b != 127 && b != b'<' && b != b'>'
}

fn is_local_byte(b: u8) -> bool
    ensures { result ≡ is_local_byte b }
{
    b.is_ascii_alphanumeric()
        || (b.is_ascii_punctuation()
            && !matches!(
                b,
                b'"' | b'(' | b')' | b',' | b':' | b';' | b'<' | b'>' | b'@' | b'[' | b'\\' | b']'
            ))
}

// How many bytes of a scheme are in front.
fn scheme_len(bytes: &[u8]) -> usize
    ensures value { result ≡ prefix_len is_scheme_byte bytes.now }
    ensures within { result ≤ length bytes.now }
{
    let mut i = 0;
    while i < bytes.len() && is_scheme_byte(bytes[i]) {
        i += 1;
    }
    i
}

// How many bytes of an address are in front.
fn part_len(bytes: &[u8]) -> usize
    ensures value { result ≡ prefix_len is_address_byte bytes.now }
    ensures within { result ≤ length bytes.now }
{
    let mut i = 0;
    while i < bytes.len() && is_address_byte(bytes[i]) {
        i += 1;
    }
    i
}

// How many bytes of a name before an at sign are in front.
fn local_len(bytes: &[u8]) -> usize
    ensures value { result ≡ prefix_len is_local_byte bytes.now }
    ensures within { result ≤ length bytes.now }
{
    let mut i = 0;
    while i < bytes.len() && is_local_byte(bytes[i]) {
        i += 1;
    }
    i
}

// Whether a scheme of so many bytes is in front: a letter, and 1 to 31 bytes more.
fn has_scheme(bytes: &[u8], len: usize) -> bool
    requires { len ≤ length bytes.now }
    ensures { result ≡ has_scheme bytes.now len }
{
    first(bytes).is_ascii_alphabetic() && len >= 2 && len <= 32 && first(tail(bytes, len)) == b':'
}

// The length of an address with a scheme, which a closing angle bracket ends.
fn uri_len(bytes: &[u8]) -> Option<usize>
    ensures value { result ≡ uri_len bytes.now }
    ensures within { IfSome result (λ len. len ≤ length bytes.now) }
{
    let scheme = scheme_len(bytes);
    if !has_scheme(bytes, scheme) {
        return None;
    }
    let len = scheme + 1 + part_len(tail(bytes, scheme + 1));
    if first(tail(bytes, len)) != b'>' {
        return None;
    }
    Some(len)
}

/// What a byte of a domain does.
#[derive(Clone, Copy)]
pub enum Domain {
    /// It goes on: so many bytes of a label, the last of which is a hyphen or isn't.
    On(usize, bool),
    /// The address ends.
    Ends,
    /// It is no domain.
    No,
}

// Whether a label of so many bytes may end here.
fn may_end(count: usize, hyphen: bool) -> bool
    ensures { result ≡ may_end count hyphen }
{
    count > 0 && !hyphen
}

// One more byte, after so many of a label. A label has at most 63 letters, digits and hyphens, and no hyphen at its ends.
fn domain_step(b: u8, count: usize, hyphen: bool) -> Domain
    requires { count ≤ 63 }
    ensures value { result ≡ domain_step b count hyphen }
    ensures few { IsFew result }
{
    if b.is_ascii_alphanumeric() {
        return if count < 63 {
            Domain::On(count + 1, false)
        } else {
            Domain::No
        };
    }
    if b == b'-' {
        return if count > 0 && count < 63 {
            Domain::On(count + 1, true)
        } else {
            Domain::No
        };
    }
    if b == b'.' {
        return if may_end(count, hyphen) {
            Domain::On(0, false)
        } else {
            Domain::No
        };
    }
    if b == b'>' && may_end(count, hyphen) {
        Domain::Ends
    } else {
        Domain::No
    }
}

// What follows a domain, and the closing angle bracket behind it.
#[tactic(auto, unfolding(crate::specs::Addresses::after_domain))]
fn after_domain(bytes: &[u8]) -> Option<&[u8]>
    ensures { option_copied result ≡ after_domain 0 false bytes.entry.now }
{
    let mut rest = bytes;
    let mut count = 0;
    let mut hyphen = false;
    while let [b, next @ ..] = rest {
        match domain_step(*b, count, hyphen) {
            Domain::On(n, h) => {
                count = n;
                hyphen = h;
                rest = next;
            }
            Domain::Ends => return Some(next),
            Domain::No => return None,
        }
    }
    None
}

// The length of an address with an at sign, which a closing angle bracket ends.
fn email_len(bytes: &[u8]) -> Option<usize>
    ensures value { result ≡ email_len bytes.now }
    ensures within { IfSome result (λ len. len ≤ length bytes.now) }
{
    let local = local_len(bytes);
    if local == 0 || first(tail(bytes, local)) != b'@' {
        return None;
    }
    match after_domain(tail(bytes, local + 1)) {
        None => None,
        Some(after) => Some(bytes.len().saturating_sub(after.len()).saturating_sub(1)),
    }
}

/// The length of the address that a rest begins with, after its opening angle bracket and before its closing one.
pub fn address_len(bytes: &[u8]) -> Option<usize>
    ensures value { result ≡ address_len bytes.now }
    ensures within { IfSome result (λ len. len ≤ length bytes.now) }
{
    match uri_len(bytes) {
        Some(len) => Some(len),
        None => email_len(bytes),
    }
}

/// What the destination of an address begins with, before the address.
#[derive(Debug, Clone, Copy, PartialEq, Eq)]
pub enum Scheme {
    /// Nothing: the address has a scheme.
    Itself,
    /// `mailto:`
    Mail,
    /// `http://`
    Web,
}

/// What the destination of an address in angle brackets begins with.
pub fn scheme_of(bytes: &[u8]) -> Scheme
    ensures { result ≡ scheme_of bytes.now }
{
    match uri_len(bytes) {
        Some(_) => Scheme::Itself,
        None => Scheme::Mail,
    }
}
