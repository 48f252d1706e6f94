//! Lists of lines, and long texts.

ghost use Rattle.std.specs.Prelude.{IfOk};
ghost use Rattle.mad_format.specs.WrappedLines.{AllMeasured};

use crate::pictures::push_margins;
use crate::skins::{skin_with, unstyled_skin};
use crate::words::number;
use mad_blocks::{find_blocks, lay_source};
use mad_format::{FmtComposite, FmtLine, LineSkin, hard_wrap_lines, wrap_bound};
use mad_md::{Compound, parse_text};
use mad_style::ListItemsIndentationMode;
use mad_term::Error;
use std::alloc::{AllocError, Global};
use std::fmt::Write;

/// The lines of a text as they were read.
pub fn read_lines<'s, S: LineSkin>(
    alloc: Global,
    source: &'s str,
    skin: &S,
) -> Result<Vec<FmtLine<'s>>, AllocError>
    ensures { IfOk result (λ lines. AllMeasured (S.rules skin.now) lines.items) }
{
    let mut lines = Vec::new(alloc);
    for line in parse_text(alloc, source)?.lines {
        lines.push(FmtLine::from(alloc, line, skin)?)?;
    }
    Ok(lines)
}

/// What lines become at a width in a style with a left and a right margin, each after its own margins.
pub fn margins(alloc: Global, picture: &mut String, words: &str, text: &str) -> Result<(), Error> {
    let mut words = words.split_whitespace();
    let width = number(&mut words);
    let left = number(&mut words);
    let skin = skin_with(left, number(&mut words), ListItemsIndentationMode::Block);
    let lines = read_lines(alloc, text, &skin)?;
    for line in &hard_wrap_lines(alloc, lines, width, &skin)? {
        push_margins(picture, line)?;
    }
    Ok(())
}

/// How many lines a text becomes that is repeated so often, at a width, and how many starts the bound of its one line has.
pub fn long(alloc: Global, picture: &mut String, words: &str, text: &str) -> Result<(), Error> {
    let mut words = words.split_whitespace();
    let text = text.repeat(alloc, number(&mut words))?;
    push_counts(alloc, picture, text.as_str(), number(&mut words))
}

fn push_counts(alloc: Global, picture: &mut String, text: &str, width: usize) -> Result<(), Error> {
    let lines = lay_source(alloc, &unstyled_skin(), text, Some(width))?.len();
    let starts = count_starts(alloc, text, width)?;
    Ok(write!(picture, "{lines} lines, {starts} starts")?)
}

fn count_starts(alloc: Global, text: &str, width: usize) -> Result<usize, Error> {
    let whole = FmtComposite::from_compound(alloc, Compound::raw_str(text))?;
    let bound = wrap_bound(alloc, &whole, width, &unstyled_skin())?;
    Ok(bound.starts.len())
}

/// The blocks of code among the lines of a text.
pub fn blocks(alloc: Global, picture: &mut String, text: &str) -> Result<(), Error> {
    let lines = read_lines(alloc, text, &unstyled_skin())?;
    for block in &find_blocks(alloc, &lines)? {
        write!(picture, "{block:?}\n")?;
    }
    Ok(())
}
