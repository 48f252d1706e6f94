//! Plain texts at a width.

use crate::words::number;
use mad_format::wrap_text;
use mad_term::Error;
use std::alloc::Global;
use std::fmt::Write;

/// The lines of a plain text at a width, each between bars.
pub fn plain(alloc: Global, picture: &mut String, words: &str, text: &str) -> Result<(), Error> {
    let width = number(&mut words.split_whitespace());
    for line in &wrap_text(alloc, text, width)? {
        write!(picture, "|{line}|\n")?;
    }
    Ok(())
}

/// How many lines a text that is repeated has at a width.
pub fn plains(alloc: Global, picture: &mut String, words: &str, text: &str) -> Result<(), Error> {
    let mut words = words.split_whitespace();
    let count = number(&mut words);
    let width = number(&mut words);
    let long = text.repeat(alloc, count)?;
    let lines = wrap_text(alloc, &long, width)?;
    write!(picture, "{} lines", lines.len())?;
    Ok(())
}
