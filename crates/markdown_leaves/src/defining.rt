//! Lines of a paragraph that are definitions.

ghost use Rattle.std.specs.Prelude.{◌≡◌, ◌≤◌, ◌==◌, [], IfOk, OnOk, map, length, count_by};
ghost use Rattle.markdown_marks.specs.Remaining.{remaining};
ghost use Rattle.markdown_leaves.specs.Defining.{add_line, joined, after_definitions, lines_in, begins_with_bracket, kept_lines, cut_lines};

use markdown_marks::bytes::first;
use markdown_marks::definitions::after_definition;
use markdown_marks::rest::Rest;
use std::alloc::{AllocError, Global};

fn add_line(text: &mut Vec<u8>, line: &[u8]) -> Result<(), AllocError>
    ensures { OnOk result (text.new.items ≡ add_line text.old.items line.now) }
{
    if !text.as_slice().is_empty() {
        text.push(b'\n')?;
    }
    text.extend_from_slice(line)?;
    Ok(())
}

// How many bytes the lines have, each with a newline.
fn bytes_in(lines: &[Rest<'_>]) -> usize {
    let mut count: usize = 0;
    for line in lines {
        count = count.saturating_add(line.bytes.len()).saturating_add(1);
    }
    count
}

/// The lines as one text, with newlines between them.
///
/// # Errors
///
/// Out of memory.
#[tactic(auto, unfolding(crate::specs::Defining::joined))]
pub fn joined(alloc: Global, lines: &[Rest<'_>]) -> Result<Vec<u8>, AllocError>
    ensures { IfOk result (λ text. text.items ≡ joined [] (map remaining lines.now)) }
{
    let mut text = Vec::with_capacity(alloc, bytes_in(lines))?;
    let mut rest = lines;
    while let [line, next @ ..] = rest {
        add_line(&mut text, line.bytes)?;
        rest = next;
    }
    Ok(text)
}

/// What follows the definitions of links that are in front.
#[tactic(auto, unfolding(crate::specs::Defining::after_definitions))]
pub fn after_definitions(text: &[u8]) -> &[u8]
    ensures { result.now ≡ after_definitions (length text.now) text.entry.now }
{
    let mut rest = text;
    let mut count = text.len();
    while count > 0 {
        match after_definition(rest) {
            None => return rest,
            Some(next) => {
                rest = next;
                count -= 1;
            }
        }
    }
    rest
}

// How many newlines are among them.
fn newlines(text: &[u8]) -> usize
    ensures { result ≡ count_by (λ b. b == 10) text.now }
{
    text.iter().filter(|byte| **byte == b'\n').count()
}

// How many lines a text has, of which the last doesn't end.
fn lines_in(text: &[u8], most: usize) -> usize
    ensures value { result ≡ lines_in most text.now }
    ensures few { result ≤ most }
{
    if text.is_empty() || most == 0 {
        return 0;
    }
    newlines(text).min(most - 1) + 1
}

fn begins_with_bracket(lines: &[Rest<'_>]) -> bool
    ensures { result ≡ begins_with_bracket (map remaining lines.now) }
{
    match lines {
        [] => false,
        [line, ..] => first(line.bytes) == b'[',
    }
}

// How many of the last lines are no definitions.
#[tactic(auto, unfolding(crate::specs::Defining::kept_lines))]
fn kept_lines(alloc: Global, lines: &[Rest<'_>]) -> Result<usize, AllocError>
    ensures value { IfOk result (λ kept. kept ≡ kept_lines (map remaining lines.now)) }
    ensures few { IfOk result (λ kept. kept ≤ length lines.now) }
{
    if !begins_with_bracket(lines) {
        return Ok(lines.len());
    }
    let text = joined(alloc, lines)?;
    Ok(lines_in(after_definitions(text.as_slice()), lines.len()))
}

/// How many of a paragraph's first lines are definitions of links.
///
/// # Errors
///
/// Out of memory.
pub fn cut_lines(alloc: Global, lines: &[Rest<'_>]) -> Result<usize, AllocError>
    ensures value { IfOk result (λ cut. cut ≡ cut_lines (map remaining lines.now)) }
    ensures few { IfOk result (λ cut. cut ≤ length lines.now) }
{
    let kept = kept_lines(alloc, lines)?;
    Ok(lines.len() - kept)
}
