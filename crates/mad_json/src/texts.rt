//! What a text among the values says.

ghost use Rattle.std.specs.Prelude.{◌≡◌, List, Ok, IfOk, IfErr, Some, None, MatchResult};
ghost use Rattle.mad_parse.specs.Reading.{tokens_of, said, Tells};
ghost use Rattle.mad_parse.specs.TokenStyles.{style_of, line_style_of, styled_char_of, item_style_of};
ghost use Rattle.mad_parse.specs.declared.tokens.StyleToken.{StyleToken};
ghost use Rattle.serde_json.specs.Find.{as_str};
ghost use Rattle.serde_json.specs.View.{view};
ghost use Rattle.mad_json.specs.Faults.{TellsValue};
ghost use Rattle.mad_json.specs.Texts.{value_said};
ghost use Rattle.mad_json.specs.declared.errors.ValueError.TheVariants.{WrongType};

use crate::errors::ValueError;
use mad_parse::{
    ParseStyleTokenError, parse_compound_style, parse_line_style, parse_ordered_item_style,
    parse_styled_char,
};
use mad_style::{CompoundStyle, LineStyle, OrderedItemStyle, StyledChar};
use serde_json::Value;
use std::alloc::Global;

// A drawn character that isn't told.
const DRAWN_CHAR: char = '*';

// The character after an item's number that isn't told.
const SUFFIX: char = '.';

/// A style that the tokens of a text say.
pub trait FromTokens: Copy {
    ghost of_tokens: { List StyleToken → Self };

    /// The style that a text says.
    fn parse(alloc: Global, text: &str) -> Result<Self, ParseStyleTokenError>
        ensures ok { IfOk result (λ style. said of_tokens (tokens_of text.now) ≡ Ok style) }
        ensures err { IfErr result (λ e. Tells e (tokens_of text.now)) };
}

impl FromTokens for CompoundStyle {
    ghost of_tokens = { style_of };

    fn parse(alloc: Global, text: &str) -> Result<Self, ParseStyleTokenError> {
        parse_compound_style(alloc, text)
    }
}

impl FromTokens for LineStyle {
    ghost of_tokens = { line_style_of };

    fn parse(alloc: Global, text: &str) -> Result<Self, ParseStyleTokenError> {
        parse_line_style(alloc, text)
    }
}

impl FromTokens for StyledChar {
    ghost of_tokens = { styled_char_of 42 };

    /// The drawn character that a text says, `*` where it tells none.
    fn parse(alloc: Global, text: &str) -> Result<Self, ParseStyleTokenError> {
        parse_styled_char(alloc, text, DRAWN_CHAR)
    }
}

impl FromTokens for OrderedItemStyle {
    ghost of_tokens = { item_style_of 46 };

    /// The style of an ordered item that a text says, with a dot where it tells no other character.
    fn parse(alloc: Global, text: &str) -> Result<Self, ParseStyleTokenError> {
        parse_ordered_item_style(alloc, text, SUFFIX)
    }
}

/// The style that a value says, which has to be a text.
pub fn read_style<S: FromTokens>(alloc: Global, value: &Value) -> Result<S, ValueError>
    ensures ok { IfOk result (λ style. value_said S.of_tokens (view value.now) ≡ Ok style) }
    ensures err { IfErr result (λ e. TellsValue e (value_said S.of_tokens (view value.now))) }
{
    let text = text_of(value)?;
    Ok(S::parse(alloc, text)?)
}

/// The text that a value is.
pub(crate) fn text_of(value: &Value) -> Result<&str, ValueError>
    ensures { MatchResult result (λ text. as_str (view value.now) ≡ Some text.now)
        (λ e. (e ≡ WrongType) × (as_str (view value.now) ≡ None)) }
{
    value.as_str().ok_or(ValueError::WrongType)
}
