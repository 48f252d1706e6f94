//! The token that begins at a place.

ghost use Rattle.std.specs.Prelude.{◌≡◌, ◌<◌, ◌≤◌, ◌+◌, ◌-◌, ◌^◌, map, length, slice_index, slice_index_or, [], false};
ghost use Rattle.code_colors.specs.Bytes.{first};
ghost use Rattle.code_tables.specs.Rules.{bytes_of, rule_of, word_of, mode_of};
ghost use Rattle.code_tables.specs.Heads.{by_head, heads_in, rules_of, rules_with};
ghost use Rattle.code_tables.specs.Tables.{mode_at, rules_at};
ghost use Rattle.code_colors.specs.Tokens.{marked_word, word_before, marked_up_to, behind, extent_len, begins_any, is_followed, followed_len, is_marked, rule_len, taken_of, is_exponent, is_number_byte, number_from, is_base, is_based, number_len, lowered, is_same, find_class, other_class, word_class, word_taken, other_taken, first_rule, capped, token_at};

use crate::bytes::{
    begins, begins_word, blanks_len, char_len, first, is_word_byte, line_len, tail, word_len,
};
use crate::extents::{digits, nested, pattern, quoted_char, through, two_parts, up_to};
use crate::labels::labelled;
use crate::places::{Before, is_placed};
use code_tables::kinds::{is_blank_byte, is_space_byte};
use code_tables::rules::{Class, Extent, Language, ModeRow, RuleRow, Turn};
use code_tables::tables::{mode_at, words_with};

/// A token of a byte and so many more, and what it does to the open modes.
#[derive(Debug, Clone, Copy)]
pub struct Taken {
    pub more: usize,
    pub class: Class,
    pub turn: Turn,
}

fn taken_of(more: usize, class: Class, turn: Turn) -> Taken
    ensures { result ≡ taken_of more class turn }
{
    Taken { more, class, turn }
}

fn marked_word(mode: &ModeRow, marks: usize, rest: &[u8]) -> usize
    ensures value { result ≡ marked_word (mode_of mode.now) marks rest.now }
    ensures within { result ≤ length rest.now }
{
    if marks == 0 && !begins_word(mode.starts.as_bytes(), first(rest)) {
        return 0;
    }
    word_len(mode.more.as_bytes(), rest)
}

// So many bytes, if `close` follows them at once; else 0.
fn word_before(close: &[u8], len: usize, rest: &[u8]) -> usize
    ensures value { result ≡ word_before close.now len rest.now }
    ensures within { result ≤ len }
{
    if begins(tail(rest, len), close) {
        len
    } else {
        0
    }
}

fn marked_up_to(marks: usize, close: &[u8], rest: &[u8]) -> usize
    requires { marks + length rest.now < 2 ^ 63 }
    ensures { result ≡ marked_up_to marks close.now rest.now }
{
    if marks == 0 && first(rest) == b'-' {
        return 0;
    }
    marks + up_to(close, rest)
}

fn behind(marks: usize, len: usize) -> usize
    requires { marks + len < 2 ^ 64 }
    ensures { result ≡ behind marks len }
{
    if len == 0 { 0 } else { marks + len }
}

// How many bytes a token has whose mark has so many, by what is behind the mark: 0 if it doesn't fit.
fn extent_len(mode: &ModeRow, r: &RuleRow, marks: usize, rest: &[u8]) -> usize
    requires { marks + length rest.now < 2 ^ 63 }
    ensures { result ≡ extent_len (mode_of mode.now) (rule_of r.now) r.now.extent marks rest.now }
{
    let close = r.close.as_bytes();
    match r.extent {
        Extent::Itself => marks,
        Extent::OneMore => marks + char_len(rest),
        Extent::Line => marks + line_len(rest),
        Extent::Word => {
            let len = marked_word(mode, marks, rest);
            behind(marks, word_before(close, len, rest))
        }
        Extent::Digits => behind(marks, digits(rest)),
        Extent::UpTo => marked_up_to(marks, close, rest),
        Extent::Through(escape) => marks + through(close, escape, false, rest),
        Extent::ThroughLines(escape) => marks + through(close, escape, true, rest),
        Extent::Nested => marks + nested(r.mark.as_bytes(), close, rest),
        Extent::QuotedChar => behind(marks, quoted_char(rest)),
        Extent::Pattern => marks + pattern(rest),
        Extent::TwoParts => marks + two_parts(close, rest),
        Extent::Labelled(strict) => behind(marks, labelled(strict, rest)),
    }
}

#[tactic(auto, unfolding(crate::specs::Tokens::begins_any))]
fn begins_any(marks: &[&str], rest: &[u8]) -> bool
    ensures { result ≡ begins_any (map bytes_of marks.now) rest.now }
{
    let mut left = marks;
    while let [m, next @ ..] = left {
        if begins(rest, m.as_bytes()) {
            return true;
        }
        left = next;
    }
    false
}

fn is_followed(marks: &[&str], rest: &[u8]) -> bool
    ensures { result ≡ is_followed (map bytes_of marks.now) rest.now }
{
    marks.is_empty() || begins_any(marks, tail(rest, blanks_len(rest)))
}

fn followed_len(marks: &[&str], len: usize, rest: &[u8]) -> usize
    ensures { result ≡ followed_len (map bytes_of marks.now) len rest.now }
{
    if is_followed(marks, tail(rest, len)) {
        len
    } else {
        0
    }
}

// Whether the mark is in front, by the first byte: most marks begin with another.
#[tactic(auto, using(crate::proofs::FirstLemmas::other_mark))]
fn is_marked(mark: &[u8], head: u8, rest: &[u8]) -> bool
    requires { head ≡ first rest.now }
    ensures { result ≡ is_marked mark.now rest.now }
{
    match mark {
        [] => !is_space_byte(head),
        [m, ..] => *m == head && begins(rest, mark),
    }
}

// How many bytes a token by this rule has here: 0 if it doesn't fit.
fn rule_len(mode: &ModeRow, before: Before, head: u8, rest: &[u8], r: &RuleRow) -> usize
    requires { head ≡ first rest.now }
    ensures { result ≡ rule_len (mode_of mode.now) before rest.now (rule_of r.now) }
{
    let mark = r.mark.as_bytes();
    if is_marked(mark, head, rest) && is_placed(r.place, before) {
        let len = extent_len(mode, r, mark.len(), tail(rest, mark.len()));
        followed_len(r.followed, len, rest)
    } else {
        0
    }
}

fn is_exponent(last: u8, b: u8) -> bool
    ensures { result ≡ is_exponent last b }
{
    (b == b'+' || b == b'-') && (last == b'e' || last == b'E')
}

fn is_number_byte(based: bool, last: u8, b: u8, next: u8) -> bool
    ensures { result ≡ is_number_byte based last b next }
{
    b.is_ascii_alphanumeric()
        || b == b'_'
        || (next.is_ascii_digit() && (b == b'.' || (!based && is_exponent(last, b))))
}

#[tactic(auto, unfolding(crate::specs::Tokens::number_from))]
fn number_from(based: bool, bytes: &[u8]) -> usize
    ensures { result ≡ number_from based 0 bytes.now }
{
    let mut rest = bytes;
    let mut last: u8 = 0;
    let mut at: usize = 0;
    while let [b, next @ ..] = rest {
        if !is_number_byte(based, last, *b, first(next)) {
            return at;
        }
        last = *b;
        at += 1;
        rest = next;
    }
    at
}

fn is_base(b: u8) -> bool
    ensures { result ≡ is_base b }
{
    matches!(b, b'x' | b'X' | b'b' | b'B' | b'o' | b'O')
}

fn is_based(rest: &[u8]) -> bool
    ensures { result ≡ is_based rest.now }
{
    first(rest) == b'0' && is_base(first(tail(rest, 1)))
}

fn number_len(rest: &[u8]) -> usize
    ensures { result ≡ number_len rest.now }
{
    number_from(is_based(rest), rest)
}

fn lowered(folds: bool, b: u8) -> u8
    ensures { result ≡ lowered folds b }
{
    if folds { b.to_ascii_lowercase() } else { b }
}

// Whether a row has this word.
fn is_same(folds: bool, w: &[u8], word: &[u8]) -> bool
    ensures { result ≡ is_same folds w.now word.now }
{
    let mut rest = word;
    let mut left = w;
    while let [p, next @ ..] = left {
        match rest {
            [b, after @ ..] if *p == lowered(folds, *b) => {
                rest = after;
                left = next;
            }
            _ => return false,
        }
    }
    rest.is_empty()
}

// Whether a row has this word, by the word's first byte: most rows have another.
#[tactic(auto, using(crate::proofs::FirstLemmas::other_word))]
fn is_row(folds: bool, head: u8, w: &[u8], word: &[u8]) -> bool
    requires { head ≡ lowered folds (first word.now) }
    ensures { result ≡ is_same folds w.now word.now }
{
    first(w) == head && is_same(folds, w, word)
}

// What the first row with this word says.
#[tactic(auto, unfolding(crate::specs::Tokens::find_class))]
fn find_class(folds: bool, otherwise: Class, word: &[u8], rows: &[(&str, Class)]) -> Class
    ensures { result ≡ find_class folds otherwise word.now (map word_of rows.now) }
{
    let head = lowered(folds, first(word));
    let mut rest = rows;
    while let [(w, class), next @ ..] = rest {
        if is_row(folds, head, w.as_bytes(), word) {
            return *class;
        }
        rest = next;
    }
    otherwise
}

fn other_class(mode: &ModeRow, word: &[u8]) -> Class
    ensures { result ≡ other_class (mode_of mode.now) word.now }
{
    if mode.capitals && first(word).is_ascii_uppercase() {
        Class::Name
    } else {
        mode.otherwise
    }
}

fn word_class(mode: &ModeRow, before: Before, word: &[u8]) -> Class
    ensures { result ≡ word_class (mode_of mode.now) before word.now }
{
    if mode.members && before.last == b'.' {
        return mode.otherwise;
    }
    find_class(
        mode.folds,
        other_class(mode, word),
        word,
        words_with(mode.words, word.len()),
    )
}

fn word_taken(mode: &ModeRow, before: Before, len: usize, rest: &[u8]) -> Taken
    requires { len ≤ length rest.now }
    ensures { result ≡ word_taken (mode_of mode.now) before len rest.now }
{
    taken_of(
        len.saturating_sub(1),
        word_class(mode, before, &rest[..len]),
        Turn::Stays,
    )
}

// A number, a word, blanks, or a byte.
fn other_taken(mode: &ModeRow, before: Before, rest: &[u8]) -> Taken
    ensures { result ≡ other_taken (mode_of mode.now) before rest.now }
{
    if mode.numbers && first(rest).is_ascii_digit() {
        return taken_of(
            number_len(rest).saturating_sub(1),
            Class::Number,
            Turn::Stays,
        );
    }
    if begins_word(mode.starts.as_bytes(), first(rest)) {
        return word_taken(mode, before, word_len(mode.more.as_bytes(), rest), rest);
    }
    if is_word_byte(mode.more.as_bytes(), first(rest)) {
        let len = word_len(mode.more.as_bytes(), rest);
        return taken_of(len.saturating_sub(1), mode.otherwise, Turn::Stays);
    }
    if is_blank_byte(first(rest)) {
        let len = blanks_len(rest);
        return taken_of(len.saturating_sub(1), Class::Plain, Turn::Stays);
    }
    if is_space_byte(first(rest)) {
        return taken_of(0, Class::Plain, Turn::Stays);
    }
    taken_of(0, mode.otherwise, Turn::Stays)
}

// What the first of these rules says that fits.
#[tactic(auto, unfolding(crate::specs::Tokens::first_rule))]
fn first_rule(mode: &ModeRow, before: Before, bytes: &[u8], rules: &[RuleRow]) -> Taken
    ensures { result ≡ first_rule (mode_of mode.now) before bytes.now (map rule_of rules.now) }
{
    let head = first(bytes);
    let mut rest = rules;
    while let [r, next @ ..] = rest {
        let len = rule_len(mode, before, head, bytes, r);
        if len > 0 {
            return taken_of(len - 1, r.class, r.turn);
        }
        rest = next;
    }
    other_taken(mode, before, bytes)
}

fn place_of(places: &[u8], b: u8) -> usize
    ensures { result ≡ slice_index places.now b - 48 }
{
    usize::from(first(tail(places, usize::from(b)))).saturating_sub(48)
}

fn rules_in(rules: &'static [&'static [RuleRow]], n: usize) -> &'static [RuleRow]
    ensures { map rule_of result.now ≡ slice_index_or (map rules_of rules.now) n [] }
{
    if n < rules.len() { rules[n] } else { &[] }
}

// The rules that may begin with the byte.
fn rules_with(mode: &ModeRow, b: u8) -> &'static [RuleRow]
    ensures { map rule_of result.now ≡ rules_with (heads_in mode.now) b }
{
    rules_in(mode.rules, place_of(mode.places.as_bytes(), b))
}

fn capped(few: usize, token: Taken) -> Taken
    ensures value { result ≡ capped few token }
    ensures few { result.more ≤ few }
{
    taken_of(token.more.min(few), token.class, token.turn)
}

/// The token that begins here, in a mode of a language.
pub fn token_at(language: Language, n: usize, before: Before, rest: &[u8]) -> Taken
    ensures value { result ≡ token_at language n before rest.now }
    ensures within { result.more ≤ length rest.now - 1 }
{
    token_in(language, n, &mode_at(language, n), before, rest)
}

/// The token that begins here, in a mode that was looked up before. Only those of its rules are tried that may begin with the first byte.
pub fn token_in(
    _language: Language,
    _n: usize,
    mode: &ModeRow,
    before: Before,
    rest: &[u8],
) -> Taken
    requires words { mode_of mode.now ≡ mode_at _language _n }
    requires rules { heads_in mode.now ≡ by_head (rules_at _language _n) }
    ensures value { result ≡ token_at _language _n before rest.now }
    ensures within { result.more ≤ length rest.now - 1 }
{
    let rules = rules_with(mode, first(rest));
    capped(
        rest.len().saturating_sub(1),
        first_rule(mode, before, rest, rules),
    )
}
