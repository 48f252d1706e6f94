//! A text without its entities and escapes.

ghost use Rattle.std.specs.Prelude.{◌≡◌, ◌++◌, ◌∷◌, [], IfOk, OnOk, drop, encode_utf8};
ghost use Rattle.markdown_spans.specs.Decoded.{second_bytes, entity_part, escape_part, part_of, decoded_from, decoded};

use crate::entities::{Entity, Escape, entity_of, escape_of};
use crate::words::bytes_from;
use std::alloc::{AllocError, Global};

fn push_char(out: &mut Vec<u8>, c: char) -> Result<(), AllocError>
    ensures { OnOk result (out.new.items ≡ out.old.items ++ encode_utf8 c) }
{
    let mut buffer = [0; 4];
    let text = c.encode_utf8(&mut buffer);
    out.extend_from_slice(text.as_bytes())?;
    Ok(())
}

fn push_second(out: &mut Vec<u8>, second: Option<char>) -> Result<(), AllocError>
    ensures { OnOk result (out.new.items ≡ out.old.items ++ second_bytes second) }
{
    match second {
        None => Ok(()),
        Some(c) => {
            push_char(out, c)?;
            Ok(())
        }
    }
}

// Adds what an entity stands for: how many bytes it has after its `&`.
fn push_entity(out: &mut Vec<u8>, b: u8, entity: Option<Entity>) -> Result<usize, AllocError>
    ensures pushed { OnOk result (out.new.items ≡ out.old.items ++ (entity_part b entity).bytes) }
    ensures more { IfOk result (λ more. more ≡ (entity_part b entity).more) }
{
    match entity {
        None => {
            out.push(b)?;
            Ok(0)
        }
        Some(entity) => {
            push_char(out, entity.shown)?;
            push_second(out, entity.second)?;
            Ok(entity.len)
        }
    }
}

fn push_escape(out: &mut Vec<u8>, b: u8, escape: Escape) -> Result<usize, AllocError>
    ensures pushed { OnOk result (out.new.items ≡ out.old.items ++ (escape_part b escape).bytes) }
    ensures more { IfOk result (λ more. more ≡ (escape_part b escape).more) }
{
    match escape {
        Escape::Sign(sign) => {
            out.push(sign)?;
            Ok(1)
        }
        Escape::Break | Escape::Itself => {
            out.push(b)?;
            Ok(0)
        }
    }
}

/// Adds what some bytes stand for, of which these follow the first, and says how many of these belong to it. Escapes count where `escapes` says so.
///
/// # Errors
///
/// Out of memory is the only error.
pub fn push_part(out: &mut Vec<u8>, escapes: bool, b: u8, next: &[u8]) -> Result<usize, AllocError>
    ensures pushed { OnOk result (out.new.items ≡ out.old.items ++ (part_of escapes b next.now).bytes) }
    ensures more { IfOk result (λ more. more ≡ (part_of escapes b next.now).more) }
{
    if b == b'&' {
        return push_entity(out, b, entity_of(next));
    }
    if escapes && b == b'\\' {
        return push_escape(out, b, escape_of(next));
    }
    out.push(b)?;
    Ok(0)
}

/// A text without its entities: the characters that they stand for are in their place. Escapes go too, where `escapes` says so: of a
/// backslash and ASCII punctuation the punctuation is left.
///
/// # Errors
///
/// Out of memory is the only error.
#[tactic(auto, unfolding(crate::specs::Decoded::decoded_from))]
pub fn decoded(alloc: Global, escapes: bool, text: &[u8]) -> Result<Vec<u8>, AllocError>
    ensures { IfOk result (λ out. out.items ≡ decoded escapes text.now) }
{
    let mut out = Vec::new(alloc);
    let mut rest = text;
    while let [b, next @ ..] = rest {
        let more = push_part(&mut out, escapes, *b, next)?;
        rest = bytes_from(next, more);
    }
    Ok(out)
}
