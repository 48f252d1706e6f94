//! Tests of the crates of text, from its lines to the editor: worked rows, and what no contract says.
//!
//! The rows are in the files of `data/`. A call of a row begins with a word that says what answers it:
//!
//! 1. [`reading`]: the lines of a text, drawn by [`pictures`].
//! 2. [`fitting`]: columns, tokens, wrapped lines, the fronts of a text that fit, and the blank columns round a text.
//! 3. [`widths`]: the widths of a table's columns.
//! 4. [`editing`]: an editor after some calls.
//! 5. [`untrusted`]: texts without the characters that a terminal obeys, or whose columns terminals count otherwise; tables made from data.
#![tactic(auto)]

mod editing;
mod fitting;
mod pictures;
mod reading;
mod untrusted;
mod widths;

use std::alloc::{AllocError, Global};
use std::io;
use test_rows::Calls;

struct TextCalls;

impl Calls for TextCalls {
    fn answer(&self, alloc: Global, call: &str, text: &str) -> Result<String, AllocError> {
        let text: String = text.chars().filter_map(meant).collect(alloc)?;
        let mut picture = String::new(alloc);
        match call.strip_prefix("many ") {
            Some(call) => draw_many(&mut picture, call, &text)?,
            None => draw_call(&mut picture, call, &text)?,
        }
        Ok(picture)
    }
}

// The control character that a sign means. A dotted circle only carries a mark that combines.
fn meant(c: char) -> Option<char> {
    match c {
        '␀' => Some('\0'),
        '␈' => Some('\u{8}'),
        '␡' => Some('\u{7f}'),
        '◌' => None,
        _ => Some(c),
    }
}

// A text many times. Where it has several lines, the first is in front, once.
fn repeated(alloc: Global, text: &str, count: usize) -> Result<String, AllocError> {
    let (front, piece) = text.split_once('\n').unwrap_or(("", text));
    let pieces = piece.repeat(alloc, count)?;
    format!(in alloc; "{front}{pieces}")
}

// How many lines a call answers of a text that is repeated.
fn draw_many(picture: &mut String, call: &str, text: &str) -> Result<(), AllocError> {
    let (count, call) = call.split_once(' ').unwrap_or((call, ""));
    let alloc = *picture.allocator();
    let long = repeated(alloc, text, count.parse().unwrap_or(0))?;
    let mut answer = String::new(alloc);
    draw_call(&mut answer, call, &long)?;
    write!(picture, "{} lines", answer.lines().count())
}

fn draw_call(picture: &mut String, call: &str, text: &str) -> Result<(), AllocError> {
    let (call, after) = call.split_once(": ").unwrap_or((call, ""));
    let numbers: Vec<usize> = call
        .split(' ')
        .filter_map(|word| word.parse().ok())
        .collect(*picture.allocator())?;
    draw_answer(picture, call, &numbers, after, text)
}

fn draw_answer(
    picture: &mut String,
    call: &str,
    numbers: &[usize],
    after: &str,
    text: &str,
) -> Result<(), AllocError> {
    match call.split(' ').next().unwrap_or("") {
        "columns" => fitting::draw_columns(picture, text),
        "tokens" => fitting::draw_tokens(picture, numbers, text),
        "wrap" => fitting::draw_wrap(picture, numbers, text),
        "words" => fitting::draw_words(picture, numbers, text),
        "starts" => fitting::draw_check(picture, numbers, text),
        "completions" => fitting::draw_completions(picture, numbers, after),
        "front" => fitting::draw_front(picture, numbers, text),
        "cow" => fitting::draw_cow(picture, numbers, text),
        "string" => fitting::draw_string(picture, numbers, text),
        "fit" => widths::draw_fit(picture, numbers, text),
        "edit" => editing::draw_edit(picture, numbers, after, text),
        "cut" => editing::draw_cut(picture, numbers, text),
        "first" => reading::draw_first(picture, numbers, text),
        "inline" => reading::draw_inline(picture, text),
        "printable" => untrusted::draw_printable(picture, text),
        "steady" => untrusted::draw_steady(picture, text),
        "cells" => untrusted::draw_cells(picture, text),
        "table" => untrusted::draw_table(picture, call, text),
        _ => reading::draw_read(picture, call, text),
    }
}

fn main(rt: HostRuntime) -> io::Result<()> {
    test_rows::run(&rt, &TextCalls)
}
