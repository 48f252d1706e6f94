//! The runs of a text.

ghost use Rattle.std.specs.Prelude.{◌≡◌, ◌==◌, ◌<◌, ◌≤◌, IfOk, length, slice_index};
ghost use Rattle.std.specs.List.{prefix_len};
ghost use Rattle.markdown_runs.specs.Texts.{sign_of, char_at, char_before, is_char, marks_with, marks_of, runs_of};

use crate::flanking::{beside, run_of};
use markdown_emphasis::{Run, Sign};
use std::alloc::{AllocError, Global};

/// A run of marks in a text.
#[derive(Clone, Copy)]
pub struct Marks {
    /// The index of its first mark.
    pub start: usize,
    pub run: Run,
}

// The sign that a character is.
fn sign_of(c: char) -> Option<Sign>
    ensures { result ≡ sign_of c }
{
    match c {
        '*' => Some(Sign::Star),
        '_' => Some(Sign::Underscore),
        '~' => Some(Sign::Tilde),
        _ => None,
    }
}

// The character at an index, if there is one.
fn char_at(chars: &[char], index: usize) -> Option<char>
    ensures { result ≡ char_at chars.now index }
{
    if index < chars.len() {
        Some(chars[index])
    } else {
        None
    }
}

// The character before an index.
fn char_before(chars: &[char], index: usize) -> Option<char>
    ensures { result ≡ char_before chars.now index }
{
    if index == 0 {
        None
    } else {
        char_at(chars, index - 1)
    }
}

// How many characters at the front are this one.
fn count_front(chars: &[char], c: char) -> usize
    ensures is { result ≡ prefix_len (λ d. d == c) chars.now }
    ensures within { result ≤ length chars.now }
{
    for (index, d) in chars.iter().enumerate() {
        if *d != c {
            return index;
        }
    }
    chars.len()
}

// Whether there is a character, and it is this one.
fn is_char(c: char, other: Option<char>) -> bool
    ensures { result ≡ is_char c other }
{
    match other {
        Some(d) => c == d,
        None => false,
    }
}

// The run of a character and sign that begins at an index.
fn marks_with(chars: &[char], start: usize, c: char, sign: Sign) -> Marks
    requires { start < length chars.now }
    ensures { result ≡ marks_with chars.now start c sign }
{
    let count = count_front(&chars[start..], c);
    let after = char_at(chars, start + count);
    Marks {
        start,
        run: run_of(
            sign,
            count,
            beside(char_before(chars, start)),
            beside(after),
        ),
    }
}

// The run that begins at an index, if one does.
fn marks_at(chars: &[char], start: usize) -> Option<Marks>
    requires { start < length chars.now }
    ensures { result ≡ marks_of chars.now start (slice_index chars.now start) }
{
    let c = chars[start];
    if is_char(c, char_before(chars, start)) {
        return None;
    }
    let sign = sign_of(c)?;
    Some(marks_with(chars, start, c, sign))
}

/// The runs of a text, in order.
///
/// # Errors
///
/// Out of memory is the only error.
pub fn runs_of(alloc: Global, chars: &[char]) -> Result<Vec<Marks>, AllocError>
    ensures { IfOk result (λ runs. runs.items ≡ runs_of chars.now) }
{
    let mut runs = Vec::new(alloc);
    for start in 0..chars.len() {
        if let Some(marks) = marks_at(chars, start) {
            runs.push(marks)?;
        }
    }
    Ok(runs)
}
