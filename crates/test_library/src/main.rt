//! Rows of the whole library: texts and lines as they are written, pictures of what a plain terminal shows, and skins as JSON texts.
//!
//! A call is `NAME NUMBERS SKIN`, as `test_skins` says.
//!
//! 1. `skins`: what JSON texts change, and the values of skins.
//! 2. `screens`: pictures of areas and views; `mad_views` and `markdown_views`: Markdown views; `moves`: what views answer to scrolls and keys; `texts` and
//!    `lines`: what is written of texts and of single lines;
//!    `untrusted`: texts that others wrote; `devices`: devices that fail.
#![tactic(auto)]

mod devices;
mod lines;
mod mad_views;
mod markdown_views;
mod moves;
mod screens;
mod skins;
mod texts;
mod untrusted;

use std::alloc::{AllocError, Global};
use std::io;
use termimad::SkinError;
use test_rows::Calls;
use test_skins::{Asked, Refusal, numbers_of};

fn main(rt: HostRuntime) -> io::Result<()> {
    test_rows::run(&rt, &LibraryCalls)
}

struct LibraryCalls;

impl Calls for LibraryCalls {
    fn answer(&self, alloc: Global, call: &str, text: &str) -> Result<String, AllocError> {
        match answer_of(alloc, call, text) {
            Ok(answer) => Ok(answer),
            Err(refusal) => refusal.told(alloc),
        }
    }
}

// `large COUNT CALL` counts what the call answers of the text repeated `COUNT` times, and `refused CALL` says what a call answers that no
// memory has room for.
fn answer_of(alloc: Global, call: &str, text: &str) -> Result<String, Refusal> {
    let (name, words) = call.split_once(' ').unwrap_or((call, ""));
    match name {
        "skin" => skins::changes(alloc, text),
        "deep" => skins::deep_changes(alloc, numbers_of(words).0[0], text),
        "numbered" => skins::numbered(alloc, words.parse().unwrap_or(0)),
        "large" => large_answer(alloc, words, text),
        "refused" => refused_answer(alloc, words, text),
        "words_on_a_screen" => screens::words(alloc),
        "thumb" => moves::thumb(alloc, words),
        "moves" => moves::of_text_view(alloc, words, text),
        "mad_moves" => moves::of_mad_view(alloc, words, text),
        "markdown_moves" => moves::of_markdown_view(alloc, words, text),
        "two_views" => mad_views::two_pictured(alloc, words, text),
        "two_views_written" => mad_views::two_written(alloc, words, text),
        "untrusted" => untrusted::answer(alloc, words, text, false),
        "printable" => untrusted::answer(alloc, words, text, true),
        "devices" => devices::tried(alloc, words, text),
        _ => answer_in_skin(alloc, name, words, text),
    }
}

fn large_answer(alloc: Global, words: &str, text: &str) -> Result<String, Refusal> {
    let (numbers, call) = numbers_of(words);
    let (name, words) = call.split_once(' ').unwrap_or((call, ""));
    let text = text.repeat(alloc, numbers[0])?;
    let answer = answer_in_skin(alloc, name, words, text.as_str())?;
    Ok(texts::counts(alloc, answer.as_str())?)
}

fn refused_answer(alloc: Global, call: &str, text: &str) -> Result<String, Refusal> {
    let (name, words) = call.split_once(' ').unwrap_or((call, ""));
    match answer_in_skin(alloc, name, words, text) {
        Err(Refusal::Memory) => Ok(SkinError::Memory.to_string(alloc)?),
        answer => answer,
    }
}

fn answer_in_skin(alloc: Global, name: &str, words: &str, text: &str) -> Result<String, Refusal> {
    let (numbers, word) = numbers_of(words);
    let skin = test_skins::skin_of(alloc, word)?;
    let asked = Asked {
        alloc,
        skin,
        numbers,
        text,
    };
    answer_asked(name, &asked)
}

fn answer_asked(name: &str, asked: &Asked) -> Result<String, Refusal> {
    match name {
        "area" | "view" | "scrolled" | "marks" | "beside_bar" => screens::pictured(asked, name),
        "mad_view" => mad_views::pictured(asked),
        "mad_view_written" => mad_views::written(asked),
        "markdown_view" => markdown_views::pictured(asked),
        "lines" => lines::displayed(asked),
        "unwrapped" => texts::unwrapped(asked),
        "raw" => texts::raw(asked),
        "lengths" => texts::lengths(asked, asked.numbers[0]),
        "widths" => texts::widths(asked),
        "kept" => texts::kept(asked),
        "value" => skins::value(asked),
        "reads_back" => skins::reads_back(asked),
        _ => texts::written(asked, name),
    }
}
