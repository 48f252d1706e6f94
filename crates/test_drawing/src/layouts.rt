//! What lines are laid out as, where the bounds of wraps start, what becomes of tables, and what is fitted to a width.

use crate::{fits, lines, plain, tables, wraps};
use mad_term::Error;
use std::alloc::{AllocError, Global};

/// The answer of a call of this module.
pub fn answer(alloc: Global, name: &str, words: &str, text: &str) -> Result<String, AllocError> {
    let mut picture = String::new(alloc);
    match push_answer(alloc, &mut picture, name, words, text) {
        Ok(()) => Ok(picture),
        Err(Error::Memory) => Err(AllocError),
        Err(error) => format!(in alloc; "refused: {error}"),
    }
}

fn push_answer(
    alloc: Global,
    picture: &mut String,
    name: &str,
    words: &str,
    text: &str,
) -> Result<(), Error> {
    match name {
        "wrap" => wraps::wrap(alloc, picture, words, text),
        "words" => wraps::words(alloc, picture, words, text),
        "plain" => plain::plain(alloc, picture, words, text),
        "plains" => plain::plains(alloc, picture, words, text),
        "check" => wraps::check(alloc, picture, words, text),
        "margins" => lines::margins(alloc, picture, words, text),
        "blocks" => lines::blocks(alloc, picture, text),
        "long" => lines::long(alloc, picture, words, text),
        "fit" => fits::fit(alloc, picture, words, text),
        "fits" => fits::fits(alloc, picture, words, text),
        "fill" => fits::fill(alloc, picture, words, text),
        "zones" => fits::zones(alloc, picture, words, text),
        "lay" => tables::lay(alloc, picture, words, text),
        "lay_words" => tables::lay_words(alloc, picture, words, text),
        "fix" => tables::fix(alloc, picture, words, text),
        "tables" => tables::tables(alloc, picture, words, text),
        "rules" => tables::rules(alloc, picture, words, text),
        "row" => tables::row(alloc, picture, words, text),
        _ => Ok(picture.push_str("no such call")?),
    }
}
