//! Commands of a text for a terminal.

ghost use Rattle.std.specs.Prelude.{◌≡◌, false, chars, slice_index};
ghost use Rattle.mad_plain.specs.Commands.{is_parameter, is_intermediate, is_final, opens_string, sequence_from, string_from, ends_escape, escape_from, command_len};

use crate::fronts::{cut_first, first};

fn is_parameter(c: char) -> bool
    ensures { result ≡ is_parameter c }
{
    matches!(c, '0'..='?')
}

fn is_intermediate(c: char) -> bool
    ensures { result ≡ is_intermediate c }
{
    matches!(c, ' '..='/')
}

fn is_final(c: char) -> bool
    ensures { result ≡ is_final c }
{
    matches!(c, '@'..='~')
}

fn opens_string(c: char) -> bool
    ensures { result ≡ opens_string c }
{
    matches!(c, 'P' | 'X' | ']' | '^' | '_')
}

fn ends_escape(middle: bool, c: char) -> bool
    ensures { result ≡ ends_escape middle c }
{
    matches!(c, '0'..='~') && (middle || !(c == '[' || opens_string(c)))
}

// How many characters a control sequence has, `[` with them, which came before.
fn sequence_len(text: &str) -> usize
    ensures { result ≡ sequence_from false 1 (chars text.now) }
{
    let mut rest = text;
    let mut middle = false;
    let mut at = 1;
    while let Some((c, next)) = cut_first(rest) {
        rest = next;
        if is_parameter(c) && !middle {
            at += 1;
        } else if is_intermediate(c) {
            middle = true;
            at += 1;
        } else if is_final(c) {
            return at + 1;
        } else {
            return 0;
        }
    }
    0
}

// How many characters a string has, the one that opens it with them, which came before.
fn string_len(text: &str) -> usize
    ensures { result ≡ string_from 1 (chars text.now) }
{
    let mut rest = text;
    let mut at = 1;
    while let Some((c, next)) = cut_first(rest) {
        rest = next;
        if c == '\u{7}' {
            return at + 1;
        }
        if c == '\u{1b}' {
            return if first(rest) == '\\' { at + 2 } else { 0 };
        }
        if c.is_control() {
            return 0;
        }
        at += 1;
    }
    0
}

// How many characters another escape has.
fn escape_len(text: &str) -> usize
    ensures { result ≡ escape_from false 0 (chars text.now) }
{
    let mut rest = text;
    let mut middle = false;
    let mut at = 0;
    while let Some((c, next)) = cut_first(rest) {
        rest = next;
        if is_intermediate(c) {
            middle = true;
            at += 1;
        } else if ends_escape(middle, c) {
            return at + 1;
        } else {
            return 0;
        }
    }
    0
}

/// How many characters the command has that the text begins with, behind its ESC: 0 if there is none.
pub fn command_len(text: &str) -> usize
    ensures { result ≡ command_len (chars text.now) }
{
    let Some((c, rest)) = cut_first(text) else {
        return 0;
    };
    if c == '[' {
        sequence_len(rest)
    } else if opens_string(c) {
        string_len(rest)
    } else {
        escape_len(text)
    }
}
