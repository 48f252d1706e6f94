//! The indentation mode of list items, as a text.

ghost use Rattle.std.specs.Prelude.{◌≡◌, Ok, IfOk, IfErr};
ghost use Rattle.serde_json.specs.View.{view};
ghost use Rattle.mad_json.specs.Faults.{TellsValue};
ghost use Rattle.mad_json.specs.Modes.{mode_said, mode_named, hanging_mode, called_mode};

use crate::errors::ValueError;
use crate::texts::text_of;
use mad_parse::{ParseStyleTokenError, parse_byte};
use mad_style::ListItemsIndentationMode;
use serde_json::Value;
use std::alloc::Global;

/// The mode that a value says: `first_line_only`, `block`, or `hanging` with a number of up to three digits in
/// brackets, at most 255.
pub fn mode_of(alloc: Global, value: &Value) -> Result<ListItemsIndentationMode, ValueError>
    ensures ok { IfOk result (λ mode. mode_said (view value.now) ≡ Ok mode) }
    ensures err { IfErr result (λ e. TellsValue e (mode_said (view value.now))) }
{
    let text = text_of(value)?;
    match mode_named(text) {
        Some(mode) => Ok(mode),
        None => {
            let text = String::from_str(alloc, text)?;
            Err(ValueError::Style(ParseStyleTokenError::Unrecognized(text)))
        }
    }
}

fn mode_named(text: &str) -> Option<ListItemsIndentationMode>
    ensures { result ≡ mode_named text.now }
{
    if text.eq_ignore_ascii_case("first_line_only") {
        return Some(ListItemsIndentationMode::FirstLineOnly);
    }
    if text.eq_ignore_ascii_case("block") {
        return Some(ListItemsIndentationMode::Block);
    }
    hanging_of(text)
}

fn hanging_of(text: &str) -> Option<ListItemsIndentationMode>
    ensures { result ≡ hanging_mode text.now }
{
    let (name, digits) = text.strip_suffix(')')?.split_once('(')?;
    called_mode(name, digits)
}

// The mode of a word and of what it has in brackets.
fn called_mode(name: &str, digits: &str) -> Option<ListItemsIndentationMode>
    ensures { result ≡ called_mode name.now digits.now }
{
    if name.eq_ignore_ascii_case("hanging") && digits.len() < 4 {
        return parse_byte(digits).map(ListItemsIndentationMode::Hanging);
    }
    None
}
