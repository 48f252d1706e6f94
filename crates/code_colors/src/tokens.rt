//! A text of code as its tokens.

ghost use Rattle.std.specs.Prelude.{◌≡◌, IfOk, OnOk};
ghost use Rattle.code_tables.specs.Rules.{mode_of};
ghost use Rattle.code_tables.specs.Heads.{by_head, heads_in};
ghost use Rattle.code_tables.specs.Tables.{mode_at, rules_at};
ghost use Rattle.code_colors.specs.Tokens.{turned, innermost, tokens_of, plain_tokens, tokens_by};

use crate::bytes::tail;
use crate::places::{nothing_before, token_passed};
use crate::token_at::token_in;
use code_tables::rules::{Class, Language, ModeRow, Turn};
use code_tables::tables::mode_at;
use std::alloc::{AllocError, Global};

/// A token of a byte and so many more.
#[derive(Debug, Clone, Copy)]
pub struct Token {
    pub more: usize,
    pub class: Class,
}

fn innermost(modes: &[usize]) -> usize
    ensures { result ≡ innermost modes.now }
{
    if modes.is_empty() {
        0
    } else {
        modes[modes.len() - 1]
    }
}

// What a token does to the modes that are open.
fn turn(modes: &mut Vec<usize>, turn: Turn) -> Result<(), AllocError>
    ensures { OnOk result (modes.new.items ≡ turned turn modes.old.items) }
{
    match turn {
        Turn::Stays => {}
        Turn::Leaves => {
            if modes.len() > 1 {
                modes.pop();
            }
        }
        Turn::Enters(n) => {
            if modes.len() < 8 {
                modes.push(n)?;
            }
        }
        Turn::Becomes(n) => {
            modes.pop();
            modes.push(n)?;
        }
    }
    Ok(())
}

// The same, and the innermost mode is looked up where they turn.
fn turn_mode(
    language: Language,
    by: Turn,
    modes: &mut Vec<usize>,
    mode: &mut ModeRow,
) -> Result<(), AllocError>
    requires words { mode_of mode.old ≡ mode_at language (innermost modes.old.items) }
    requires rules { heads_in mode.old ≡ by_head (rules_at language (innermost modes.old.items)) }
    ensures modes { OnOk result (modes.new.items ≡ turned by modes.old.items) }
    ensures words { OnOk result (mode_of mode.new ≡ mode_at language (innermost modes.new.items)) }
    ensures rules { OnOk result (heads_in mode.new ≡ by_head (rules_at language (innermost modes.new.items))) }
{
    match by {
        Turn::Stays => Ok(()),
        _ => {
            turn(modes, by)?;
            *mode = mode_at(language, innermost(modes));
            Ok(())
        }
    }
}

/// A text of code as its tokens.
///
/// # Errors
///
/// Out of memory is the only error.
#[tactic(auto, unfolding(crate::specs::Tokens::tokens_from))]
pub fn tokens_of(alloc: Global, language: Language, text: &[u8]) -> Result<Vec<Token>, AllocError>
    ensures { IfOk result (λ tokens. tokens.items ≡ tokens_of language text.now) }
{
    let mut tokens = Vec::new(alloc);
    let mut modes = Vec::new(alloc);
    modes.push(0)?;
    let mut mode = mode_at(language, 0);
    let mut before = nothing_before();
    let mut rest = text;
    while let [b, next @ ..] = rest {
        let taken = token_in(language, innermost(&modes), &mode, before, rest);
        tokens.push(Token {
            more: taken.more,
            class: taken.class,
        })?;
        turn_mode(language, taken.turn, &mut modes, &mut mode)?;
        before = token_passed(*b, next, taken.more, before);
        rest = tail(next, taken.more);
    }
    Ok(tokens)
}

fn plain_tokens(alloc: Global, text: &[u8]) -> Result<Vec<Token>, AllocError>
    ensures { IfOk result (λ tokens. tokens.items ≡ plain_tokens text.now) }
{
    let mut tokens = Vec::new(alloc);
    if text.is_empty() {
        return Ok(tokens);
    }
    tokens.push(Token {
        more: text.len() - 1,
        class: Class::Plain,
    })?;
    Ok(tokens)
}

/// A text as its tokens. Without a language all is plain.
///
/// # Errors
///
/// Out of memory is the only error.
pub fn tokens_by(
    alloc: Global,
    language: Option<Language>,
    text: &[u8],
) -> Result<Vec<Token>, AllocError>
    ensures { IfOk result (λ tokens. tokens.items ≡ tokens_by language text.now) }
{
    match language {
        None => plain_tokens(alloc, text),
        Some(language) => tokens_of(alloc, language, text),
    }
}
