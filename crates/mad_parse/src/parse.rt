//! What a text of style tokens says.

ghost use Rattle.std.specs.Prelude.{◌≡◌, IfOk, IfErr, Ok, codes};
ghost use Rattle.std.specs.Str.{chars};
ghost use Rattle.mad_parse.specs.Names.{is_named};
ghost use Rattle.mad_parse.specs.Numbers.{signed_number_below};
ghost use Rattle.mad_parse.specs.StyleTokens.{token_of, only};
ghost use Rattle.mad_parse.specs.Reading.{tokens_of, said, Tells};
ghost use Rattle.mad_parse.specs.TokenStyles.{style_of, line_style_of, styled_char_of, item_style_of};

use crate::alignments::parse_align;
use crate::attributes::parse_attribute;
use crate::colors::parse_color;
use crate::cuts::cut_token;
use crate::errors::{ParseColorError, ParseStyleTokenError};
use crate::reading::{compound_style_from, item_style_from, line_style_from, styled_char_from};
use crate::tokens::StyleToken;
use mad_style::{CompoundStyle, LineStyle, OrderedItemStyle, StyledChar};
use std::alloc::Global;

/// What a token says: `none`, a number that is a `u16`, a color, an attribute, an alignment or a character,
/// whichever it is first.
///
/// # Errors
///
/// `InvalidColor` for a gray above level 23, else `Unrecognized` with the text; or out of memory.
pub fn parse_style_token(alloc: Global, text: &str) -> Result<StyleToken, ParseStyleTokenError>
    ensures ok { IfOk result (λ t. token_of text.now ≡ Ok t) }
    ensures err { IfErr result (λ e. Tells e (token_of text.now)) }
{
    if is_none(text) {
        return Ok(StyleToken::None);
    }
    if let Some(number) = number_of(text) {
        return Ok(StyleToken::Dimension(number));
    }
    match parse_color(text) {
        Ok(color) => return Ok(StyleToken::Color(color)),
        Err(ParseColorError::Unrecognized) => {}
        Err(error) => return Err(ParseStyleTokenError::InvalidColor(error)),
    }
    if let Ok(attribute) = parse_attribute(text) {
        return Ok(StyleToken::Attribute(attribute));
    }
    if let Ok(align) = parse_align(text) {
        return Ok(StyleToken::Align(align));
    }
    match only_char(text) {
        Some(c) => Ok(StyleToken::Char(c)),
        None => Err(ParseStyleTokenError::Unrecognized(text.to_string(alloc)?)),
    }
}

fn is_none(text: &str) -> bool
    ensures { result ≡ is_named text.now (codes "none") }
{
    text.eq_ignore_ascii_case("none")
}

// The number that a text says, if it is a `u16`.
fn number_of(text: &str) -> Option<u16>
    ensures { result ≡ signed_number_below 65536 text.now }
{
    text.parse::<u16>().ok()
}

// The character that the text is, if it is one.
fn only_char(text: &str) -> Option<char>
    ensures { result ≡ only (chars text.now) }
{
    let mut chars = text.chars();
    let c = chars.next()?;
    if chars.as_str().is_empty() {
        Some(c)
    } else {
        None
    }
}

/// The tokens of a text. Each is a word without whitespace and brackets, with the bracket that comes at once
/// after it, or else one character. The bracket counts if it has ASCII letters, digits, `_`, commas and
/// whitespace alone, at least one.
///
/// # Errors
///
/// That of the first token that is none; or out of memory.
pub fn parse_style_tokens(
    alloc: Global,
    text: &str,
) -> Result<Vec<StyleToken>, ParseStyleTokenError>
    ensures ok { IfOk result (λ tokens. tokens_of text.now ≡ Ok tokens.items) }
    ensures err { IfErr result (λ e. Tells e (tokens_of text.now)) }
{
    let mut tokens = Vec::new(alloc);
    let mut rest = text.trim_start();
    while !rest.is_empty() {
        let (token, after) = cut_token(rest);
        tokens.push(parse_style_token(alloc, token)?)?;
        rest = after.trim_start();
    }
    Ok(tokens)
}

/// The style that a text says: the first color or `none` is the foreground, the last of the later colors the
/// background. Its characters, alignments and numbers are passed over.
///
/// # Errors
///
/// Those of [`parse_style_tokens`].
pub fn parse_compound_style(
    alloc: Global,
    text: &str,
) -> Result<CompoundStyle, ParseStyleTokenError>
    ensures ok { IfOk result (λ style. said style_of (tokens_of text.now) ≡ Ok style) }
    ensures err { IfErr result (λ e. Tells e (tokens_of text.now)) }
{
    let tokens = parse_style_tokens(alloc, text)?;
    Ok(compound_style_from(&tokens))
}

/// The style of a line that a text says: the last alignment, and the margins. The first number is the left
/// margin, the last of the later ones the right. Characters are passed over.
///
/// # Errors
///
/// Those of [`parse_style_tokens`].
pub fn parse_line_style(alloc: Global, text: &str) -> Result<LineStyle, ParseStyleTokenError>
    ensures ok { IfOk result (λ style. said line_style_of (tokens_of text.now) ≡ Ok style) }
    ensures err { IfErr result (λ e. Tells e (tokens_of text.now)) }
{
    let tokens = parse_style_tokens(alloc, text)?;
    Ok(line_style_from(&tokens))
}

/// The character in a style that a text says: its first token that is a character, else `default`.
///
/// # Errors
///
/// Those of [`parse_style_tokens`].
pub fn parse_styled_char(
    alloc: Global,
    text: &str,
    default: char,
) -> Result<StyledChar, ParseStyleTokenError>
    ensures ok { IfOk result (λ c. said (styled_char_of default) (tokens_of text.now) ≡ Ok c) }
    ensures err { IfErr result (λ e. Tells e (tokens_of text.now)) }
{
    let tokens = parse_style_tokens(alloc, text)?;
    Ok(styled_char_from(&tokens, default))
}

/// The style of an ordered item that a text says: what comes before its first character is the number's style.
/// That character and what comes after it are the suffix. Without a character all is the number's style, and
/// the suffix is `default` without style.
///
/// # Errors
///
/// Those of [`parse_style_tokens`].
pub fn parse_ordered_item_style(
    alloc: Global,
    text: &str,
    default: char,
) -> Result<OrderedItemStyle, ParseStyleTokenError>
    ensures ok { IfOk result (λ style. said (item_style_of default) (tokens_of text.now) ≡ Ok style) }
    ensures err { IfErr result (λ e. Tells e (tokens_of text.now)) }
{
    let tokens = parse_style_tokens(alloc, text)?;
    Ok(item_style_from(&tokens, default))
}
