//! The style tokens that styles are written as.

ghost use Rattle.std.specs.Prelude.{◌≡◌, ◌++◌, ℕ, IfOk, OnOk, List, min, string_bytes};
ghost use Rattle.std.specs.Char.{IsScalar};
ghost use Rattle.mad_term.specs.Styles.{IsStyle};
ghost use Rattle.mad_style.specs.StyledChars.{char_alone, char_style};
ghost use Rattle.mad_parse.specs.Written.{style_tokens, line_style_tokens, styled_char_tokens, item_tokens, attribute_tokens, foreground_tokens, background_tokens, align_tokens, margin_tokens, tokens_text};
ghost use Rattle.mad_parse.specs.ReadsBack.{StyleReadsBack, LineReadsBack, CharReadsBack, ItemReadsBack};
ghost use Rattle.mad_parse.specs.declared.tokens.StyleToken.{StyleToken};

use crate::tokens::StyleToken;
use crate::writing::style_tokens_to_string;
use mad_md::Alignment;
use mad_style::{ATTRIBUTES, CompoundStyle, LineStyle, OrderedItemStyle, StyledChar};
use mad_term::{Attributes, Color};
use std::alloc::{AllocError, Global};

/// What is written as style tokens.
pub trait PushStyleTokens {
    ghost tokens_of_value: { Self → List StyleToken };

    // The value is read back from its text, where it is one that reads back.
    ghost reads_back: { Self → List ℕ → Type 0 };

    /// Puts the tokens that say the value after those that are there.
    ///
    /// # Errors
    ///
    /// Out of memory. What the list then ends with is open.
    fn push_style_tokens(&self, tokens: &mut Vec<StyleToken>) -> Result<(), AllocError>
        ensures tokens { OnOk result (tokens.new.items ≡ tokens.old.items ++ tokens_of_value self.now) }

        // So a text of these tokens is read as the value.
        ensures reads_back { reads_back self.now (tokens_text (tokens_of_value self.now)) };

    /// The text that says the value.
    ///
    /// # Errors
    ///
    /// Out of memory.
    fn to_style_tokens_string(&self, alloc: Global) -> Result<String, AllocError>
        ensures text { IfOk result (λ text. string_bytes text ≡ tokens_text (tokens_of_value self.now)) }
        ensures reads_back { IfOk result (λ text. reads_back self.now (string_bytes text)) }
    {
        let mut tokens = Vec::new(alloc);
        self.push_style_tokens(&mut tokens)?;
        style_tokens_to_string(alloc, &tokens)
    }
}

fn push_style(style: CompoundStyle, tokens: &mut Vec<StyleToken>) -> Result<(), AllocError>
    ensures tokens { OnOk result (tokens.new.items ≡ tokens.old.items ++ style_tokens style) }

    // The numbers of its colors are bytes: what reading back needs to know.
    ensures bytes { IsStyle style.object_style }
{
    let style = style.object_style;
    push_foreground(style.foreground_color, style.background_color, tokens)?;
    push_background(style.background_color, tokens)?;
    push_attributes(style.attributes, tokens)
}

fn push_foreground(
    foreground: Option<Color>,
    background: Option<Color>,
    tokens: &mut Vec<StyleToken>,
) -> Result<(), AllocError>
    ensures { OnOk result (tokens.new.items ≡ tokens.old.items ++ foreground_tokens foreground background) }
{
    match foreground {
        Some(color) if color != Color::Reset => tokens.push(StyleToken::Color(color))?,
        // The background must not be read as the foreground.
        _ if background.is_some() => tokens.push(StyleToken::None)?,
        _ => {}
    }
    Ok(())
}

fn push_background(
    background: Option<Color>,
    tokens: &mut Vec<StyleToken>,
) -> Result<(), AllocError>
    ensures { OnOk result (tokens.new.items ≡ tokens.old.items ++ background_tokens background) }
{
    match background {
        Some(color) if color != Color::Reset => tokens.push(StyleToken::Color(color))?,
        _ => {}
    }
    Ok(())
}

fn push_attributes(attributes: Attributes, tokens: &mut Vec<StyleToken>) -> Result<(), AllocError>
    ensures { OnOk result (tokens.new.items ≡ tokens.old.items ++ attribute_tokens attributes) }
{
    for attribute in &ATTRIBUTES {
        if attributes.has(*attribute) {
            tokens.push(StyleToken::Attribute(*attribute))?;
        }
    }
    Ok(())
}

fn push_line_tokens(style: LineStyle, tokens: &mut Vec<StyleToken>) -> Result<(), AllocError>
    ensures tokens { OnOk result (tokens.new.items ≡ tokens.old.items ++ line_style_tokens style) }
    ensures bytes { IsStyle style.compound_style.object_style }
{
    push_style(style.compound_style, tokens)?;
    push_align(style.align, tokens)?;
    push_margins(style.left_margin, style.right_margin, tokens)
}

fn push_align(align: Alignment, tokens: &mut Vec<StyleToken>) -> Result<(), AllocError>
    ensures { OnOk result (tokens.new.items ≡ tokens.old.items ++ align_tokens align) }
{
    if align != Alignment::Unspecified {
        tokens.push(StyleToken::Align(align))?;
    }
    Ok(())
}

fn push_margins(left: usize, right: usize, tokens: &mut Vec<StyleToken>) -> Result<(), AllocError>
    ensures { OnOk result (tokens.new.items ≡ tokens.old.items ++ margin_tokens left right) }
{
    if left > 0 || right > 0 {
        tokens.push(StyleToken::Dimension(written_margin(left)))?;
        tokens.push(StyleToken::Dimension(written_margin(right)))?;
    }
    Ok(())
}

// A margin that is too large for a token is written as the largest.
fn written_margin(margin: usize) -> u16
    ensures { result ≡ min margin 65535 }
{
    margin.min(65535) as u16
}

fn push_styled_char(c: StyledChar, tokens: &mut Vec<StyleToken>) -> Result<(), AllocError>
    ensures tokens { OnOk result (tokens.new.items ≡ tokens.old.items ++ styled_char_tokens c) }
    ensures char { IsScalar (char_alone c) }
    ensures bytes { IsStyle (char_style c).object_style }
{
    tokens.push(StyleToken::Char(c.get_char()))?;
    push_style(*c.compound_style(), tokens)
}

fn push_item(item: OrderedItemStyle, tokens: &mut Vec<StyleToken>) -> Result<(), AllocError>
    ensures tokens { OnOk result (tokens.new.items ≡ tokens.old.items ++ item_tokens item) }
    ensures char { IsScalar (char_alone item.index_suffix) }
    ensures bytes { IsStyle item.index_style.object_style }
    ensures suffix_bytes { IsStyle (char_style item.index_suffix).object_style }
{
    push_style(item.index_style, tokens)?;
    push_styled_char(item.index_suffix, tokens)
}

impl PushStyleTokens for CompoundStyle {
    ghost tokens_of_value = { style_tokens };

    ghost reads_back = { StyleReadsBack };

    fn push_style_tokens(&self, tokens: &mut Vec<StyleToken>) -> Result<(), AllocError> {
        push_style(*self, tokens)
    }
}

impl PushStyleTokens for LineStyle {
    ghost tokens_of_value = { line_style_tokens };

    ghost reads_back = { LineReadsBack };

    fn push_style_tokens(&self, tokens: &mut Vec<StyleToken>) -> Result<(), AllocError> {
        push_line_tokens(*self, tokens)
    }
}

impl PushStyleTokens for StyledChar {
    ghost tokens_of_value = { styled_char_tokens };

    ghost reads_back = { CharReadsBack };

    fn push_style_tokens(&self, tokens: &mut Vec<StyleToken>) -> Result<(), AllocError> {
        push_styled_char(*self, tokens)
    }
}

impl PushStyleTokens for OrderedItemStyle {
    ghost tokens_of_value = { item_tokens };

    ghost reads_back = { ItemReadsBack };

    fn push_style_tokens(&self, tokens: &mut Vec<StyleToken>) -> Result<(), AllocError> {
        push_item(*self, tokens)
    }
}
