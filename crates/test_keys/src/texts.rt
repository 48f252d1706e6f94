//! Styles that are read from a text, and written as one.

use crate::bytes;
use crate::words::style_of;
use mad_frames::PresentError;
use mad_parse::{
    ParseStyleTokenError, PushStyleTokens, StyleToken, parse_align, parse_attribute, parse_color,
    parse_compound_style, parse_line_style, parse_ordered_item_style, parse_style_token,
    parse_style_tokens, parse_styled_char, style_tokens_to_string,
};
use mad_screen::NotPlain;
use mad_style::CompoundStyle;
use mad_term::Error;
use std::alloc::{AllocError, Global};
use std::fmt::{Debug, Display};

/// The answer of a call of this module, or of one of the next.
pub fn answer(alloc: Global, name: &str, rest: &str, text: &str) -> Result<String, AllocError> {
    match name {
        "tokens" => tokens(alloc, if rest.is_empty() { text } else { rest }),
        "token" => token(alloc, rest),
        "memory_texts" => memory_texts(alloc),
        "tokens_of" => count(alloc, rest, text),
        "color" => shown(alloc, parse_color(rest)),
        "attribute" => shown(alloc, parse_attribute(rest)),
        "align" => shown(alloc, parse_align(rest)),
        "style" => written(alloc, parse_compound_style(alloc, rest)),
        "line" => written(alloc, parse_line_style(alloc, rest)),
        "char" => written(alloc, parse_styled_char(alloc, rest, '*')),
        "item" => written(alloc, parse_ordered_item_style(alloc, rest, '.')),
        "written" => CompoundStyle::from(style_of(rest)).to_style_tokens_string(alloc),
        _ => bytes::answer(alloc, name, rest, text),
    }
}

// The tokens of a text, one a line, and then the text that they are written as.
fn tokens(alloc: Global, text: &str) -> Result<String, AllocError> {
    match parse_style_tokens(alloc, text) {
        Ok(tokens) => listed(alloc, &tokens),
        Err(error) => refused(alloc, error),
    }
}

fn token(alloc: Global, text: &str) -> Result<String, AllocError> {
    match parse_style_token(alloc, text) {
        Ok(token) => format!(in alloc; "{token:?}"),
        Err(error) => refused(alloc, error),
    }
}

// The texts of out of memory, of each kind of error.
fn memory_texts(alloc: Global) -> Result<String, AllocError> {
    let (error, style) = (Error::Memory, ParseStyleTokenError::Memory);
    let (screen, frame) = (NotPlain::Memory, PresentError::Memory);
    format!(in alloc; "{error}\n{style}\n{screen}\n{frame}")
}

fn refused(alloc: Global, error: ParseStyleTokenError) -> Result<String, AllocError> {
    match error {
        ParseStyleTokenError::Memory => Err(AllocError),
        error => error.to_string(alloc),
    }
}

fn listed(alloc: Global, tokens: &[StyleToken]) -> Result<String, AllocError> {
    let mut answer = String::new(alloc);
    for token in tokens {
        write!(answer, "{token:?}\n")?;
    }
    answer.push_str(style_tokens_to_string(alloc, tokens)?.as_str())?;
    Ok(answer)
}

// How many tokens a text has, repeated `count` times.
fn count(alloc: Global, times: &str, text: &str) -> Result<String, AllocError> {
    let text = text.repeat(alloc, times.parse::<usize>().unwrap_or(0))?;
    match parse_style_tokens(alloc, text.as_str()) {
        Ok(tokens) => tokens.len().to_string(alloc),
        Err(error) => refused(alloc, error),
    }
}

fn shown<T: Debug + Drop, E: Display + Drop>(
    alloc: Global,
    read: Result<T, E>,
) -> Result<String, AllocError> {
    match read {
        Ok(value) => format!(in alloc; "{value:?}"),
        Err(error) => error.to_string(alloc),
    }
}

fn written<T: PushStyleTokens + Drop>(
    alloc: Global,
    read: Result<T, ParseStyleTokenError>,
) -> Result<String, AllocError> {
    match read {
        Ok(value) => value.to_style_tokens_string(alloc),
        Err(error) => refused(alloc, error),
    }
}
