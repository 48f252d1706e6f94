//! Addresses without brackets, as GitHub has them: `http://`, `https://`, `ftp://`, `www.` and mail.
//!
//! What is other than in GitHub's words: behind a scheme a domain needs no period; a semicolon at the end isn't of the address; an address of
//! mail begins where the byte before can't be of it, and ends in a letter; a domain of the web has at most 255 bytes, so a text takes time
//! in proportion to its length. The reader of pieces adds that none begins where a bracket is open.

ghost use Rattle.std.specs.Prelude.{◌≡◌, ◌+◌, ◌<◌, ◌≤◌, ◌==◌, if◌then◌else◌, true, false, length, IfSome, None};
ghost use Rattle.std.specs.List.{prefix_len, list_any};
ghost use Rattle.std.specs.Char.{is_ascii_alphanumeric};
ghost use Rattle.markdown_addresses.specs.Bare.{is_domain_byte, goes_on, domain_len, is_period, is_low, web_domain, is_path_byte, count_of, is_trailing, ends_name, trim_step, trimmed, address_end, web_from, is_in_front, web_of, is_mail_byte, mail_domain, mail_of, may_precede_www, may_precede_scheme, may_precede_web, may_precede_mail, bare_after, may_begin_web, HasNoAt};

use crate::addresses::Scheme;
use markdown_html::names::same_letters;
use markdown_marks::bytes::{first, tail};
use markdown_spans::words::{bytes_from, bytes_up_to};

/// A bare address.
#[derive(Debug, Clone, Copy)]
pub struct Bare {
    /// How many bytes it has.
    pub len: usize,
    /// What its destination begins with.
    pub scheme: Scheme,
}

// ---- domains

fn is_domain_byte(b: u8) -> bool
    ensures { result ≡ is_domain_byte b }
{
    b.is_ascii_alphanumeric() || b == b'_' || b == b'-'
}

// Whether a byte is of a domain, or a period before one.
fn goes_on(b: u8, next: &[u8]) -> bool
    ensures { result ≡ goes_on b next.now }
{
    is_domain_byte(b) || (b == b'.' && is_domain_byte(first(next)))
}

// How many bytes of a domain are in front.
#[tactic(auto, unfolding(crate::specs::Bare::domain_len))]
fn domain_len(bytes: &[u8]) -> usize
    ensures value { result ≡ domain_len bytes.now }
    ensures within { result ≤ length bytes.now }
{
    let mut rest = bytes;
    let mut len = 0;
    while let [b, next @ ..] = rest {
        if !goes_on(*b, next) {
            return len;
        }
        len += 1;
        rest = next;
    }
    len
}

fn has_period(bytes: &[u8]) -> bool
    ensures { result ≡ list_any is_period bytes.now }
{
    bytes.iter().any(|b| *b == b'.')
}

// Whether an underscore is in one of the last two parts of a domain.
#[tactic(auto, unfolding(crate::specs::Bare::is_low))]
fn is_low(bytes: &[u8]) -> bool
    ensures { result ≡ is_low false false bytes.now }
{
    let mut rest = bytes;
    let mut before = false;
    let mut now = false;
    while let [b, next @ ..] = rest {
        rest = next;
        if *b == b'.' {
            before = now;
            now = false;
            continue;
        }
        now = now || *b == b'_';
    }
    before || now
}

// How many bytes the domain of an address of the web has.
fn web_domain(dotted: bool, bytes: &[u8]) -> Option<usize>
    ensures { result ≡ web_domain dotted bytes.now }
{
    if !is_domain_byte(first(bytes)) {
        return None;
    }
    let len = domain_len(bytes_up_to(bytes, 256));
    if len > 255 {
        return None;
    }
    let domain = bytes_up_to(bytes, len);
    if (dotted && !has_period(domain)) || is_low(domain) {
        return None;
    }
    Some(len)
}

// ---- the end of an address

fn is_path_byte(b: u8) -> bool
    ensures { result ≡ is_path_byte b }
{
    !(b == b' ' || b == b'\t' || b == b'\n' || b == b'<')
}

// How many bytes there are before a blank or an angle bracket.
fn path_len(bytes: &[u8]) -> usize
    ensures value { result ≡ prefix_len is_path_byte bytes.now }
    ensures within { result ≤ length bytes.now }
{
    let mut i = 0;
    while i < bytes.len() && is_path_byte(bytes[i]) {
        i += 1;
    }
    i
}

#[tactic(auto, unfolding(crate::specs::Bare::count_of))]
fn count_of(b: u8, bytes: &[u8]) -> usize
    ensures value { result ≡ count_of b bytes.now }
    ensures few { result ≤ length bytes.now }
{
    let mut rest = bytes;
    let mut count = 0;
    while let [c, next @ ..] = rest {
        rest = next;
        if *c == b {
            count += 1;
        }
    }
    count
}

// Whether punctuation at the end isn't of the address.
fn is_trailing(b: u8) -> bool
    ensures { result ≡ is_trailing b }
{
    matches!(
        b,
        b'?' | b'!' | b'.' | b',' | b':' | b'*' | b'_' | b'~' | b'\'' | b'"'
    )
}

// Whether the last of so many bytes are `&` and a name.
#[tactic(auto, unfolding(crate::specs::Bare::ends_name))]
fn ends_name(count: usize, bytes: &[u8]) -> bool
    requires { count ≤ length bytes.now }
    ensures { result ≡ ends_name false count bytes.now }
{
    let mut left = count;
    let mut some = false;
    while left > 0 {
        left -= 1;
        if bytes[left] == b'&' {
            return some;
        }
        if !bytes[left].is_ascii_alphanumeric() {
            return false;
        }
        some = true;
    }
    false
}

/// What becomes of the last byte of an address.
#[derive(Clone, Copy)]
pub enum Trim {
    /// It is of the address.
    Stays,
    /// It isn't: so many parentheses that close are to spare now, and what is before it is in an entity or isn't.
    Goes(usize, bool),
}

// What becomes of a byte of an entity that isn't of the address.
fn trim_entity(b: u8, spare: usize) -> Trim
    ensures { result ≡ (if b == 38 then Trim.Goes spare false else if is_ascii_alphanumeric b then Trim.Goes spare true else Trim.Stays) }
{
    if b == b'&' {
        Trim::Goes(spare, false)
    } else if b.is_ascii_alphanumeric() {
        Trim::Goes(spare, true)
    } else {
        Trim::Stays
    }
}

// What becomes of a byte at the end, behind so many.
fn trim_step(spare: usize, entity: bool, count: usize, bytes: &[u8]) -> Trim
    requires { count < length bytes.now }
    ensures { result ≡ trim_step spare entity count bytes.now }
{
    let b = bytes[count];
    if entity {
        return trim_entity(b, spare);
    }
    if is_trailing(b) {
        return Trim::Goes(spare, false);
    }
    if b == b')' {
        return if spare == 0 {
            Trim::Stays
        } else {
            Trim::Goes(spare - 1, false)
        };
    }
    if b == b';' {
        return Trim::Goes(spare, ends_name(count, bytes));
    }
    Trim::Stays
}

// How many of so many bytes are left without those at the end that aren't of the address.
#[tactic(auto, unfolding(crate::specs::Bare::trimmed), using(crate::proofs::BareLemmas::trim_more))]
fn trimmed(spare: usize, count: usize, bytes: &[u8]) -> usize
    requires { count ≤ length bytes.now }
    ensures value { result ≡ trimmed spare false count bytes.now }
    ensures few { result ≤ count }
{
    let mut left = count;
    let mut spare = spare;
    let mut entity = false;
    while left > 0 {
        match trim_step(spare, entity, left - 1, bytes) {
            Trim::Stays => return left,
            Trim::Goes(s, e) => {
                spare = s;
                entity = e;
                left -= 1;
            }
        }
    }
    0
}

// How many bytes an address has from its domain on.
fn address_end(bytes: &[u8]) -> usize
    ensures value { result ≡ address_end bytes.now }
    ensures few { result ≤ 1 + length bytes.now }
{
    let rest = bytes_from(bytes, 1);
    let all = path_len(rest);
    let address = bytes_up_to(rest, all);
    let spare = count_of(b')', address).saturating_sub(count_of(b'(', address));
    1 + trimmed(spare, all, rest)
}

// ---- addresses

fn web_from(start: usize, dotted: bool, scheme: Scheme, bytes: &[u8]) -> Option<Bare>
    requires { start ≤ 8 }
    ensures { result ≡ web_from start dotted scheme bytes.now }
{
    let rest = bytes_from(bytes, start);
    match web_domain(dotted, rest) {
        None => None,
        Some(_) => Some(Bare {
            len: start + address_end(rest),
            scheme,
        }),
    }
}

// Whether this name is in front, in letters of any case.
fn is_in_front(name: &[u8], bytes: &[u8]) -> bool
    ensures { result ≡ is_in_front name.now bytes.now }
{
    same_letters(name, bytes_up_to(bytes, name.len()))
}

// The address of the web that a rest begins with.
fn web_of(bytes: &[u8]) -> Option<Bare>
    ensures { result ≡ web_of bytes.now }
{
    if is_in_front(b"www.", bytes) {
        return web_from(0, true, Scheme::Web, bytes);
    }
    if is_in_front(b"https://", bytes) {
        return web_from(8, false, Scheme::Itself, bytes);
    }
    if is_in_front(b"http://", bytes) {
        return web_from(7, false, Scheme::Itself, bytes);
    }
    if is_in_front(b"ftp://", bytes) {
        return web_from(6, false, Scheme::Itself, bytes);
    }
    None
}

fn is_mail_byte(b: u8) -> bool
    ensures { result ≡ is_mail_byte b }
{
    b.is_ascii_alphanumeric() || b == b'.' || b == b'+' || b == b'_' || b == b'-'
}

// How many bytes of a name before an at sign are in front.
fn local_len(bytes: &[u8]) -> usize
    ensures value { result ≡ prefix_len is_mail_byte bytes.now }
    ensures within { result ≤ length bytes.now }
{
    let mut i = 0;
    while i < bytes.len() && is_mail_byte(bytes[i]) {
        i += 1;
    }
    i
}

// How many bytes the domain of an address of mail has.
fn mail_domain(bytes: &[u8]) -> Option<usize>
    ensures value { result ≡ mail_domain bytes.now }
    ensures within { IfSome result (λ len. len ≤ length bytes.now) }
{
    if !is_domain_byte(first(bytes)) {
        return None;
    }
    let len = domain_len(bytes);
    if !has_period(bytes_up_to(bytes, len)) {
        return None;
    }
    if !first(bytes_from(bytes, len.saturating_sub(1))).is_ascii_alphabetic() {
        return None;
    }
    Some(len)
}

// The address of mail that a rest begins with.
fn mail_of(bytes: &[u8]) -> Option<Bare>
    ensures { result ≡ mail_of bytes.now }
{
    let local = local_len(bytes);
    if local == 0 || first(tail(bytes, local)) != b'@' {
        return None;
    }
    match mail_domain(tail(bytes, local + 1)) {
        None => None,
        Some(domain) => Some(Bare {
            len: local + 1 + domain,
            scheme: Scheme::Mail,
        }),
    }
}

// ---- where one may begin

// Whether an address may begin with `www.` behind this byte.
fn may_precede_www(before: Option<u8>) -> bool
    ensures { result ≡ may_precede_www before }
{
    match before {
        None => true,
        Some(b) => matches!(b, b' ' | b'\t' | b'\n' | b'*' | b'_' | b'~' | b'('),
    }
}

// Whether one may begin with a scheme behind this byte.
fn may_precede_scheme(before: Option<u8>) -> bool
    ensures { result ≡ may_precede_scheme before }
{
    match before {
        None => true,
        Some(b) => !b.is_ascii_alphabetic(),
    }
}

fn may_precede_web(before: Option<u8>, bytes: &[u8]) -> bool
    ensures { result ≡ may_precede_web before bytes.now }
{
    if is_in_front(b"www.", bytes) {
        may_precede_www(before)
    } else {
        may_precede_scheme(before)
    }
}

fn may_precede_mail(before: Option<u8>) -> bool
    ensures { result ≡ may_precede_mail before }
{
    match before {
        None => true,
        Some(b) => !is_mail_byte(b),
    }
}

/// The bare address that a rest begins with, behind this byte or at the beginning of a text.
pub fn bare_after(before: Option<u8>, bytes: &[u8]) -> Option<Bare>
    ensures { result ≡ bare_after before bytes.now }
{
    if may_precede_web(before, bytes) {
        if let Some(bare) = web_of(bytes) {
            return Some(bare);
        }
    }
    if may_precede_mail(before) {
        return mail_of(bytes);
    }
    None
}

// ---- where it is known that none begins

// Whether an address of the web may begin with this byte.
fn may_begin_web(b: u8) -> bool
    ensures { result ≡ may_begin_web b }
{
    matches!(b, b'w' | b'W' | b'h' | b'H' | b'f' | b'F')
}

fn web_at(before: Option<u8>, bytes: &[u8]) -> Option<Bare>
    ensures { result ≡ if may_precede_web before bytes.now then web_of bytes.now else None }
{
    if !may_begin_web(first(bytes)) {
        return None;
    }
    if !may_precede_web(before, bytes) {
        return None;
    }
    web_of(bytes)
}

fn mail_at(mail: bool, before: Option<u8>, bytes: &[u8]) -> Option<Bare>
    requires { mail ≡ false → HasNoAt bytes.now }
    ensures { result ≡ if may_precede_mail before then mail_of bytes.now else None }
{
    if !mail {
        return None;
    }
    if !may_precede_mail(before) {
        return None;
    }
    mail_of(bytes)
}

/// The same as [`bare_after`], where `mail` says whether there may be an at sign.
pub fn bare_known(mail: bool, before: Option<u8>, bytes: &[u8]) -> Option<Bare>
    requires { mail ≡ false → HasNoAt bytes.now }
    ensures { result ≡ bare_after before bytes.now }
{
    match web_at(before, bytes) {
        Some(bare) => Some(bare),
        None => mail_at(mail, before, bytes),
    }
}
