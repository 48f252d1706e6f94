//! Runs of backquotes.

ghost use Rattle.std.specs.Prelude.{◌≡◌, ℕ, ◌<◌, ◌≤◌, ◌==◌, if◌then◌else◌, IfOk, IfSome, OnOk, ◌+◌, get_or, length, drop};
ghost use Rattle.markdown_spans.specs.Ticks.{run_at, last_run, AreLasts, IsTickless};

use markdown_marks::bytes::tail;
use memchr::memchr;
use std::alloc::{AllocError, Global};

// What is known of a length, 0 if nothing is.
fn last_of(lasts: &[usize], length: usize) -> usize
    ensures { result ≡ get_or lasts.now length 0 }
{
    if length < lasts.len() {
        lasts[length]
    } else {
        0
    }
}

// Writes down that the last run of a length so far ends a search there.
fn note(lasts: &mut Vec<usize>, length: usize, last: usize) -> Result<(), AllocError>
    ensures { OnOk result ((n : ℕ) → get_or lasts.new.items n 0 ≡ (if length == n then last else get_or lasts.old.items n 0)) }
{
    while lasts.len() <= length {
        lasts.push(0)?;
    }
    lasts[length] = last;
    Ok(())
}

// The same, where there are backquotes.
#[tactic(auto, unfolding(crate::specs::Ticks::last_run))]
fn runs_seen(alloc: Global, text: &[u8]) -> Result<Vec<usize>, AllocError>
    ensures { IfOk result (λ lasts. AreLasts lasts.items text.now) }
{
    let mut lasts = Vec::new(alloc);
    let mut rest = text;
    let mut seen = 0;
    let mut at = 0;
    while let [b, next @ ..] = rest {
        if *b == b'`' {
            seen += 1;
            rest = next;
            continue;
        }
        note(&mut lasts, seen, at + 1)?;
        at += seen + 1;
        seen = 0;
        rest = next;
    }
    note(&mut lasts, seen, at + 1)?;
    Ok(lasts)
}

/// Of each length the place after which no run of so many backquotes begins.
///
/// # Errors
///
/// Out of memory is the only error.
pub fn last_runs(alloc: Global, text: &[u8]) -> Result<Vec<usize>, AllocError>
    ensures { IfOk result (λ lasts. AreLasts lasts.items text.now) }
{
    if memchr(b'`', text).is_some() {
        return runs_seen(alloc, text);
    }
    Ok(Vec::new(alloc))
}

// How many bytes are in front of the first run of so many backquotes.
#[tactic(auto, unfolding(crate::specs::Ticks::run_at))]
fn run_at(marks: usize, text: &[u8]) -> Option<usize>
    ensures value { result ≡ run_at marks 0 0 text.now }
    ensures within { IfSome result (λ at. at + marks ≤ length text.now) }
{
    let mut rest = text;
    let mut seen = 0;
    let mut at = 0;
    while let [b, next @ ..] = rest {
        if *b == b'`' {
            seen += 1;
            rest = next;
            continue;
        }
        if seen == marks {
            return Some(at);
        }
        at += seen + 1;
        seen = 0;
        rest = next;
    }
    if seen == marks { Some(at) } else { None }
}

/// How many bytes are in front of the first run of so many backquotes, from a place on that isn't inside a run.
pub fn first_run(lasts: &[usize], text: &[u8], from: usize, marks: usize) -> Option<usize>
    requires lasts { AreLasts lasts.now text.now }
    requires some { 0 < marks }
    requires within { from ≤ length text.now }
    requires apart { IsTickless (drop from text.now) }
    ensures value { result ≡ run_at marks 0 0 (drop from text.now) }
    ensures within { IfSome result (λ len. from + len + marks ≤ length text.now) }
{
    if last_of(lasts, marks) <= from {
        return None;
    }
    run_at(marks, tail(text, from))
}
