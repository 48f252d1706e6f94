//! What follows a closing bracket.

ghost use Rattle.std.specs.Prelude.{◌≡◌, ◌+◌, ◌≤◌, IfOk, IfSome, length};
ghost use Rattle.std.specs.Option.{option_copied};
ghost use Rattle.markdown_brackets.specs.Targets.{closed_paren, target_end, after_target, after_inline, inline_len, label_len, full_label_len, shortcut_len, collapsed_len, defined, reference, target_of};

use crate::labels::{Labels, label_index};
use markdown_marks::bytes::{first, tail};
use markdown_marks::definitions::{after_destination, after_label, after_space, title_after};
use std::alloc::{AllocError, Global};

/// What makes a link of brackets.
#[derive(Debug, Clone, Copy)]
pub struct Target {
    /// The definition that it refers to; none if it has a destination of its own.
    pub definition: Option<usize>,
    /// How many bytes of it are after the closing bracket.
    pub len: usize,
}

fn closed_paren(text: &[u8]) -> Option<&[u8]>
    ensures { option_copied result ≡ closed_paren text.entry.now }
{
    match text {
        [b')', rest @ ..] => Some(rest),
        _ => None,
    }
}

// A closing parenthesis, after blanks.
fn target_end(text: &[u8]) -> Option<&[u8]>
    ensures { option_copied result ≡ target_end text.entry.now }
{
    closed_paren(after_space(text))
}

// After a destination: a title behind blanks, or nothing, and then the parenthesis.
fn after_target(text: &[u8]) -> Option<&[u8]>
    ensures { option_copied result ≡ after_target text.entry.now }
{
    let rest = after_space(text);
    match closed_paren(rest) {
        Some(after) => Some(after),
        None => {
            if rest.len() == text.len() {
                return None;
            }
            match title_after(rest) {
                None => None,
                Some(after) => target_end(after),
            }
        }
    }
}

// What follows a destination and a title in parentheses, after the first of them.
fn after_inline(text: &[u8]) -> Option<&[u8]>
    ensures { option_copied result ≡ after_inline text.entry.now }
{
    let rest = after_space(text);
    match closed_paren(rest) {
        Some(after) => Some(after),
        None => match after_destination(rest) {
            None => None,
            Some(after) => after_target(after),
        },
    }
}

// How many bytes a destination in parentheses has.
fn inline_len(rest: &[u8]) -> Option<usize>
    ensures { result ≡ inline_len rest.now }
{
    if first(rest) != b'(' {
        return None;
    }
    match after_inline(tail(rest, 1)) {
        None => None,
        Some(after) => Some(rest.len().saturating_sub(after.len())),
    }
}

// How many bytes a label has, after its opening bracket.
fn label_len(text: &[u8]) -> Option<usize>
    ensures value { result ≡ label_len text.now }
    ensures within { IfSome result (λ len. len ≤ length text.now) }
{
    match after_label(text) {
        None => None,
        Some(after) => Some(text.len().saturating_sub(after.len()).saturating_sub(1)),
    }
}

/// How many bytes a label in brackets of its own has, if one is in front.
pub fn full_label_len(rest: &[u8]) -> Option<usize>
    ensures value { result ≡ full_label_len rest.now }
    ensures within { IfSome result (λ len. len + 1 ≤ length rest.now) }
{
    if first(rest) != b'[' {
        return None;
    }
    label_len(tail(rest, 1))
}

// The same of a label that ends where the rest begins.
fn shortcut_len(inside: &[u8], rest: usize) -> Option<usize>
    requires { rest ≤ length inside.now }
    ensures value { result ≡ shortcut_len inside.now rest }
    ensures within { IfSome result (λ len. len ≤ length inside.now) }
{
    match label_len(inside) {
        None => None,
        Some(len) => {
            if inside.len() - rest == len + 1 {
                Some(len)
            } else {
                None
            }
        }
    }
}

/// How many bytes brackets in front have that hold nothing, 0 without such.
pub fn collapsed_len(rest: &[u8]) -> usize
    ensures { result ≡ collapsed_len rest.now }
{
    match rest {
        [b'[', b']', ..] => 2,
        _ => 0,
    }
}

// What a label refers to.
fn defined(
    alloc: Global,
    labels: &Labels,
    label: &[u8],
    len: usize,
) -> Result<Option<Target>, AllocError>
    ensures { IfOk result (λ target. target ≡ defined labels.now label.now len) }
{
    match label_index(alloc, labels, label)? {
        None => Ok(None),
        Some(index) => Ok(Some(Target {
            definition: Some(index),
            len,
        })),
    }
}

// What brackets refer to, by what they hold and what follows, or by a label that follows.
fn reference(
    alloc: Global,
    labels: &Labels,
    inside: &[u8],
    rest: &[u8],
) -> Result<Option<Target>, AllocError>
    requires { length rest.now ≤ length inside.now }
    ensures { IfOk result (λ target. target ≡ reference labels.now inside.now rest.now) }
{
    if let Some(len) = full_label_len(rest) {
        let target = defined(alloc, labels, &rest[1..1 + len], len + 2)?;
        return Ok(target);
    }
    if let Some(len) = shortcut_len(inside, rest.len()) {
        let target = defined(alloc, labels, &inside[..len], collapsed_len(rest))?;
        return Ok(target);
    }
    Ok(None)
}

/// What makes a link of brackets: `inside` is the text after the opening one, `rest` that after the closing one.
///
/// # Errors
///
/// Out of memory is the only error.
pub fn target_of(
    alloc: Global,
    labels: &Labels,
    inside: &[u8],
    rest: &[u8],
) -> Result<Option<Target>, AllocError>
    requires { length rest.now ≤ length inside.now }
    ensures { IfOk result (λ target. target ≡ target_of labels.now inside.now rest.now) }
{
    if let Some(len) = inline_len(rest) {
        return Ok(Some(Target {
            definition: None,
            len,
        }));
    }
    let target = reference(alloc, labels, inside, rest)?;
    Ok(target)
}
