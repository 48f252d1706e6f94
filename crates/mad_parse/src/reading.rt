//! The styles that tokens say.

ghost use Rattle.std.specs.Prelude.{◌≡◌, ◌≤◌, length};
ghost use Rattle.mad_parse.specs.TokenStyles.{style_of, line_style_of, styled_char_of, item_style_of, first_or, chars_of, char_index};

use crate::tokens::StyleToken;
use mad_md::Alignment;
use mad_style::{CompoundStyle, LineStyle, OrderedItemStyle, StyledChar};

/// The style of tokens: the first color or `none` is the foreground, the last of the later colors the
/// background; it has all their attributes.
pub fn compound_style_from(tokens: &[StyleToken]) -> CompoundStyle
    ensures { result ≡ style_of tokens.now }
{
    let mut style = CompoundStyle::default();
    let mut settled = false;
    for token in tokens {
        match *token {
            StyleToken::Color(color) if settled => style.set_bg(color),
            StyleToken::Color(color) => {
                style.set_fg(color);
                settled = true;
            }
            StyleToken::None => settled = true,
            StyleToken::Attribute(attribute) => style.add_attr(attribute),
            _ => {}
        }
    }
    style
}

/// The style of a line: that of its text, the last alignment, and the margins. The first number is the left
/// margin, the last of the later ones the right.
pub fn line_style_from(tokens: &[StyleToken]) -> LineStyle
    ensures { result ≡ line_style_of tokens.now }
{
    let mut style = LineStyle::new(compound_style_from(tokens), Alignment::Unspecified);
    let mut second = false;
    for token in tokens {
        match *token {
            StyleToken::Align(align) => style.align = align,
            StyleToken::Dimension(margin) if second => style.right_margin = margin as usize,
            StyleToken::Dimension(margin) => {
                style.left_margin = margin as usize;
                second = true;
            }
            _ => {}
        }
    }
    style
}

/// The first character of the tokens, or else the default one, in the style of all of them.
pub(crate) fn styled_char_from(tokens: &[StyleToken], default: char) -> StyledChar
    ensures { result ≡ styled_char_of default tokens.now }
{
    StyledChar::new(compound_style_from(tokens), first_char(tokens, default))
}

fn first_char(tokens: &[StyleToken], default: char) -> char
    ensures { result ≡ first_or default (chars_of tokens.now) }
{
    for token in tokens {
        if let StyleToken::Char(c) = *token {
            return c;
        }
    }
    default
}

/// The style of a number, by the tokens before the first character, and its suffix, by that character and those after it.
pub(crate) fn item_style_from(tokens: &[StyleToken], default: char) -> OrderedItemStyle
    ensures { result ≡ item_style_of default tokens.now }
{
    let (index, suffix) = tokens.split_at(char_index(tokens));
    OrderedItemStyle {
        index_style: compound_style_from(index),
        index_suffix: styled_char_from(suffix, default),
    }
}

// How many tokens come before the first character.
fn char_index(tokens: &[StyleToken]) -> usize
    ensures value { result ≡ char_index tokens.now }
    ensures within { result ≤ length tokens.now }
{
    let mut index = 0;
    for token in tokens {
        if let StyleToken::Char(_) = *token {
            return index;
        }
        index += 1;
    }
    index
}
