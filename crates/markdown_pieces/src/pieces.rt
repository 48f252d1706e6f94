//! What a rest of a text begins with.

ghost use Rattle.std.specs.Prelude.{◌≡◌, ◌≤◌, ◌<◌, ◌++◌, length, drop, slice_index, chars, encode_utf8, MatchOption, IfOk, Some, true, false, is_some, IsTrue, ◌&&◌};
ghost use Rattle.std.specs.Str.{IsCharBoundary, IsUtf8};
ghost use Rattle.markdown_spans.specs.Ticks.{AreLasts};
ghost use Rattle.markdown_spans.specs.Html.{AreEnds};
ghost use Rattle.markdown_pieces.specs.Known.{IsKnown};
ghost use Rattle.markdown_addresses.specs.Bare.{HasNoAt};
ghost use Rattle.markdown_pieces.specs.Scan.{HasNoWeb};
ghost use Rattle.markdown_pieces.specs.Pieces.{is_plain, last_char, first_char, before_at, after_at, piece, run_piece, code_piece, escape_piece, entity_piece, html_piece, angle_piece, ends_line, break_piece, is_hard, bare_if, is_word, stays, plain_from, plain_piece, no_mark_piece, byte_before, piece_at};

use crate::scan::{may_have_web, quiet_len};
use markdown_addresses::addresses::{Scheme, address_len, scheme_of};
use markdown_addresses::bare::{Bare, bare_known};
use markdown_brackets::brackets::Link;
use markdown_emphasis::{Run, Sign};
use markdown_marks::bytes::{blanks_in_front, count_in_front, first, is_blank_byte, tail};
use markdown_runs::{Neighbor, beside, run_of};
use markdown_spans::attributes::{Html, html_shown};
use markdown_spans::code::{Code, code_at};
use markdown_spans::entities::{Escape, entity_of, escape_of};
use markdown_spans::html::{Ends, ends_of, html_len};
use markdown_spans::ticks::last_runs;
use markdown_spans::words::bytes_up_to;
use memchr::memchr;
use std::alloc::{AllocError, Global};

/// What a piece of a text is.
#[derive(Clone, Copy)]
pub enum Kind {
    /// Its bytes as they are.
    Plain,
    /// An escape or an entity: this character, and a second one that some names have.
    Shown(char, Option<char>),
    Code(Code),
    /// An address in angle brackets, of so many bytes, and what its destination begins with.
    Address(usize, Scheme),
    /// An address without brackets, and what its destination begins with.
    Bare(Scheme),
    /// Raw html, and what it shows.
    Html(Html),
    /// The end of a line.
    Soft,
    /// The end of a line that breaks it.
    Hard,
    Run(Run),
    /// An opening bracket, of an image or not.
    Opening(bool),
    /// A closing bracket, with what it makes.
    Closing(Option<Link>),
}

/// A piece of a text.
#[derive(Clone, Copy)]
pub struct Piece {
    pub kind: Kind,
    /// How many bytes it has after its first.
    pub more: usize,
}

/// What is known of a text before it is cut, which saves searches that find nothing.
#[derive(Drop)]
pub struct Known {
    /// Where the last run of backquotes of each length is.
    pub ticks: Vec<usize>,
    /// Where the ends of raw html are last.
    pub ends: Ends,
    /// Whether there may be an at sign.
    pub mail: bool,
    /// Whether there may be an address of the web.
    pub web: bool,
}

// Whether there is an at sign.
pub(crate) fn has_at(text: &[u8]) -> bool
    ensures { result ≡ false → HasNoAt text.now }
{
    memchr(b'@', text).is_some()
}

/// What is known of a text before it is cut.
///
/// # Errors
///
/// Out of memory is the only error.
pub fn known_of(alloc: Global, text: &[u8]) -> Result<Known, AllocError>
    ensures { IfOk result (λ known. IsKnown known text.now) }
{
    let ticks = last_runs(alloc, text)?;
    Ok(Known {
        ticks,
        ends: ends_of(text),
        mail: has_at(text),
        web: may_have_web(text),
    })
}

/// A piece of so many bytes more.
pub fn piece_of(kind: Kind, more: usize) -> Piece
    ensures { result ≡ piece kind more }
{
    Piece { kind, more }
}

// Whether a byte is nothing but itself.
fn is_plain(b: u8) -> bool
    ensures { result ≡ is_plain b }
{
    !matches!(
        b,
        b'`' | b'*' | b'_' | b'~' | b'\\' | b'&' | b'<' | b'[' | b']' | b'!' | b'\n' | b' ' | b'\t'
    )
}

// The bare address that a rest begins with, where no bracket is open.
fn bare_if(free: bool, mail: bool, before: Option<u8>, rest: &[u8]) -> Option<Bare>
    requires { mail ≡ false → HasNoAt rest.now }
    ensures { result ≡ bare_if free before rest.now }
{
    if free {
        bare_known(mail, before, rest)
    } else {
        None
    }
}

// Behind a letter no bare address begins.
fn is_word(b: u8) -> bool
    ensures { result ≡ is_word b }
{
    b.is_ascii_alphabetic()
}

// Whether both bytes are small letters, of a word then.
fn is_in_word(last: u8, b: u8) -> bool
    ensures { IsTrue result → (is_word last && is_word b) ≡ true }
{
    last.is_ascii_lowercase() && b.is_ascii_lowercase()
}

// Whether a bare address begins behind this byte.
fn is_bare(free: bool, mail: bool, last: u8, rest: &[u8]) -> bool
    requires { mail ≡ false → HasNoAt rest.now }
    ensures { result ≡ is_some (bare_if free (Some last) rest.now) }
{
    if is_word(last) {
        return false;
    }
    bare_if(free, mail, Some(last), rest).is_some()
}

// Whether blanks are in front, and then the end of a line.
fn ends_line(rest: &[u8]) -> bool
    ensures { result ≡ ends_line rest.now }
{
    first(tail(rest, blanks_in_front(rest))) == b'\n'
}

// Whether the first byte stands for itself; `inside` says that no end of a line follows blanks in front.
fn stays(inside: bool, b: u8, rest: &[u8]) -> bool
    requires { inside ≡ true → ends_line rest.now ≡ false }
    ensures { result ≡ stays b rest.now }
{
    if !is_blank_byte(b) {
        return is_plain(b);
    }
    inside || !ends_line(rest)
}

// How many bytes in front stand for themselves, up to a bare address.
fn plain_len(free: bool, mail: bool, before: u8, bytes: &[u8]) -> usize
    requires { mail ≡ false → HasNoAt bytes.now }
    ensures value { result ≡ plain_from free (Some before) bytes.now }
    ensures within { result ≤ length bytes.now }
{
    if !free {
        return quiet_len(bytes);
    }
    let mut last = before;
    let mut len = 0;
    // whether it is known that no end of a line follows the blanks in front
    let mut inside = false;
    while len < bytes.len() {
        let b = bytes[len];
        if is_in_word(last, b) {
            inside = false;
            last = b;
            len += 1;
            continue;
        }
        let rest = tail(bytes, len);
        if !stays(inside, b, rest) {
            return len;
        }
        if is_bare(free, mail, last, rest) {
            return len;
        }
        inside = is_blank_byte(b);
        last = b;
        len += 1;
    }
    len
}

// The characters before the last one, and that.
fn split_last(text: &str) -> Option<(&str, char)>
    ensures { MatchOption result (length text.entry.now ≡ 0) (λ parts. IsUtf8 parts.0.now × (text.entry.now ≡ parts.0.now ++ encode_utf8 parts.1)) }
{
    let mut chars = text.chars();
    let c = chars.next_back()?;
    Some((chars.as_str(), c))
}

// The last character, if there is one.
fn last_char(text: &str) -> Option<char>
    ensures { result ≡ last_char (chars text.now) }
{
    match split_last(text) {
        Some((_, c)) => Some(c),
        None => None,
    }
}

// The first character, if there is one.
fn first_char(text: &str) -> Option<char>
    ensures { result ≡ first_char (chars text.now) }
{
    text.chars().next()
}

// What stands before a place.
fn before_at(text: &str, at: usize) -> Neighbor
    requires { IsCharBoundary text.now at }
    ensures { result ≡ before_at text.now at }
{
    beside(last_char(&text[..at]))
}

// What stands after a place.
fn after_at(text: &str, at: usize) -> Neighbor
    requires { IsCharBoundary text.now at }
    ensures { result ≡ after_at text.now at }
{
    beside(first_char(&text[at..]))
}

// A run of marks.
fn run_piece(sign: Sign, text: &str, at: usize) -> Piece
    requires within { at < length text.now }
    requires mark { slice_index text.now at < 128 }
    ensures { result ≡ run_piece sign text.now at (drop at text.now) }
{
    let rest = tail(text.as_bytes(), at);
    let count = count_in_front(rest, first(rest));
    let run = run_of(sign, count, before_at(text, at), after_at(text, at + count));
    piece_of(Kind::Run(run), count.saturating_sub(1))
}

// A code span, or a run of backquotes.
fn code_piece(lasts: &[usize], text: &[u8], at: usize) -> Piece
    requires lasts { AreLasts lasts.now text.now }
    requires within { at ≤ length text.now }
    ensures { result ≡ code_piece (drop at text.now) }
{
    match code_at(lasts, text, at) {
        Some(code) => piece_of(
            Kind::Code(code),
            (code.marks + code.len + code.marks).saturating_sub(1),
        ),
        None => piece_of(
            Kind::Plain,
            count_in_front(tail(text, at), b'`').saturating_sub(1),
        ),
    }
}

fn escape_piece(after: &[u8]) -> Piece
    ensures { result ≡ escape_piece after.now }
{
    match escape_of(after) {
        Escape::Sign(b) => piece_of(Kind::Shown(char::from(b), None), 1),
        Escape::Break => piece_of(Kind::Hard, 1),
        Escape::Itself => piece_of(Kind::Plain, 0),
    }
}

fn entity_piece(after: &[u8]) -> Piece
    ensures { result ≡ entity_piece after.now }
{
    match entity_of(after) {
        Some(entity) => piece_of(Kind::Shown(entity.shown, entity.second), entity.len),
        None => piece_of(Kind::Plain, 0),
    }
}

// Raw html, or an angle bracket.
#[tactic(auto, unfolding(crate::specs::Pieces::html_piece))]
fn html_piece(ends: &Ends, text: &[u8], at: usize) -> Piece
    requires ends { AreEnds ends.now text.now }
    requires within { at ≤ length text.now }
    ensures { result ≡ html_piece (drop at text.now) }
{
    match html_len(ends, text, at) {
        Some(len) => piece_of(
            Kind::Html(html_shown(bytes_up_to(tail(text, at), len))),
            len,
        ),
        None => piece_of(Kind::Plain, 0),
    }
}

// An address, raw html, or an angle bracket, which ends at this place.
fn angle_piece(ends: &Ends, text: &[u8], at: usize) -> Piece
    requires ends { AreEnds ends.now text.now }
    requires within { at ≤ length text.now }
    ensures { result ≡ angle_piece (drop at text.now) }
{
    match address_len(tail(text, at)) {
        Some(len) => piece_of(Kind::Address(len, scheme_of(tail(text, at))), len + 1),
        None => html_piece(ends, text, at),
    }
}

// Whether so many blanks end with two spaces.
fn is_hard(rest: &[u8], blanks: usize) -> bool
    requires { blanks ≤ length rest.now }
    ensures { result ≡ is_hard rest.now blanks }
{
    blanks >= 2 && rest[blanks - 1] == b' ' && rest[blanks - 2] == b' '
}

// The end of a line, and the blanks before it.
fn break_piece(rest: &[u8]) -> Piece
    ensures { result ≡ break_piece rest.now }
{
    let blanks = blanks_in_front(rest);
    if is_hard(rest, blanks) {
        piece_of(Kind::Hard, blanks)
    } else {
        piece_of(Kind::Soft, blanks)
    }
}

// A bare address, or bytes that stand for themselves: the first is `b`, behind `before`.
#[tactic(auto, unfolding(crate::specs::Pieces::plain_piece))]
fn plain_piece(free: bool, mail: bool, before: Option<u8>, b: u8, rest: &[u8]) -> Piece
    requires some { 0 < length rest.now }
    requires mail { mail ≡ false → HasNoAt rest.now }
    ensures { result ≡ plain_piece free before b rest.now }
{
    match bare_if(free, mail, before, rest) {
        Some(bare) => piece_of(Kind::Bare(bare.scheme), bare.len.saturating_sub(1)),
        None => piece_of(Kind::Plain, plain_len(free, mail, b, tail(rest, 1))),
    }
}

// A rest that begins with the byte `b`, which is no mark, behind `before`.
fn no_mark_piece(free: bool, mail: bool, before: Option<u8>, b: u8, rest: &[u8]) -> Piece
    requires some { 0 < length rest.now }
    requires mail { mail ≡ false → HasNoAt rest.now }
    ensures { result ≡ no_mark_piece free before b rest.now }
{
    if ends_line(rest) {
        return break_piece(rest);
    }
    plain_piece(free, mail, before, b, rest)
}

// The same, where it is known whether there may be an address.
fn known_piece(known: &Known, free: bool, before: Option<u8>, b: u8, rest: &[u8]) -> Piece
    requires some { 0 < length rest.now }
    requires mail { known.now.mail ≡ false → HasNoAt rest.now }
    requires web { known.now.web ≡ false → HasNoWeb rest.now }
    ensures { result ≡ no_mark_piece free before b rest.now }
{
    if known.mail || known.web {
        return no_mark_piece(free, known.mail, before, b, rest);
    }
    no_mark_piece(false, false, before, b, rest)
}

fn byte_before(text: &[u8], at: usize) -> Option<u8>
    requires { at ≤ length text.now }
    ensures { result ≡ byte_before text.now at }
{
    if at == 0 { None } else { Some(text[at - 1]) }
}

/// What the text from a place on begins with, where it is no bracket. Bare addresses are read where `free` says that no bracket is open.
#[tactic(auto, unfolding(crate::specs::Pieces::piece_at))]
pub fn piece_at(known: &Known, free: bool, text: &str, at: usize) -> Piece
    requires known { IsKnown known.now text.now }
    requires within { at < length text.now }
    ensures { result ≡ piece_at free text.now at (drop at text.now) }
{
    let bytes = text.as_bytes();
    let rest = tail(bytes, at);
    match bytes[at] {
        b'`' => code_piece(&known.ticks, bytes, at),
        b'*' => run_piece(Sign::Star, text, at),
        b'_' => run_piece(Sign::Underscore, text, at),
        b'~' => run_piece(Sign::Tilde, text, at),
        b'\\' => escape_piece(tail(rest, 1)),
        b'&' => entity_piece(tail(rest, 1)),
        b'<' => angle_piece(&known.ends, bytes, at + 1),
        b => known_piece(known, free, byte_before(bytes, at), b, rest),
    }
}
