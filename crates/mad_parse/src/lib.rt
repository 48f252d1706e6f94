//! Styles as texts: what a text of style tokens says, and the text that says a style.
//!
//! In the order of the work:
//!
//! 1. [`tokens`]: what a token is, and its text. [`alignments`], [`attributes`], [`colors`]: three of its kinds.
//!    [`names`]: values by their names. [`numbers`]: a byte as a text.
//! 2. [`cuts`]: how a text is cut into tokens. [`parse`]: what they say. [`errors`]: why a text is refused.
//! 3. [`reading`]: the style that tokens say.
//! 4. [`written`]: the tokens that a style is written as. [`writing`]: the text of tokens.
//! 5. [`laws`]: what follows from the definitions alone.
#![tactic(auto)]

mod alignments;
mod attributes;
mod colors;
mod cuts;
mod errors;
pub mod laws;
mod names;
mod numbers;
mod parse;
mod reading;
mod tokens;
mod writing;
mod written;

pub use alignments::{parse_align, write_align};
pub use attributes::{parse_attribute, write_attribute};
pub use colors::{parse_color, write_color};
pub use errors::{ParseAlignError, ParseAttributeError, ParseColorError, ParseStyleTokenError};
pub use numbers::parse_byte;
pub use parse::{
    parse_compound_style, parse_line_style, parse_ordered_item_style, parse_style_token,
    parse_style_tokens, parse_styled_char,
};
pub use reading::{compound_style_from, line_style_from};
pub use tokens::StyleToken;
pub use writing::{style_tokens_to_string, write_style_tokens};
pub use written::PushStyleTokens;
