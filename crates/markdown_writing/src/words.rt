//! Words as Markdown that shows them as they are.

ghost use Rattle.std.specs.Prelude.{◌≡◌, ◌++◌, IfOk, OnOk, flat_map};
ghost use Rattle.markdown_writing.specs.Words.{is_mark, escaped_if, escaped_byte, escaped};

use std::alloc::{AllocError, Global};

// Whether the byte may be a mark of Markdown, wherever it stands.
fn is_mark(byte: u8) -> bool
    ensures { result ≡ is_mark byte }
{
    matches!(
        byte,
        b'!' | b'#'
            | b'&'
            | b')'
            | b'*'
            | b'.'
            | b':'
            | b'<'
            | b'@'
            | b'['
            | b'\\'
            | b']'
            | b'_'
            | b'`'
            | b'~'
    )
}

pub(crate) fn push_byte(out: &mut Vec<u8>, mark: bool, byte: u8) -> Result<(), AllocError>
    ensures { OnOk result (out.new.items ≡ out.old.items ++ escaped_if mark byte) }
{
    if mark {
        out.push(b'\\')?;
    }
    out.push(byte)?;
    Ok(())
}

#[tactic(auto, using(crate::proofs::PushLemmas::put_more))]
pub(crate) fn push_rest(out: &mut Vec<u8>, bytes: &[u8]) -> Result<(), AllocError>
    ensures { OnOk result (out.new.items ≡ out.old.items ++ flat_map escaped_byte bytes.now) }
{
    let mut rest = bytes;
    while let [byte, next @ ..] = rest {
        push_byte(out, is_mark(*byte), *byte)?;
        rest = next;
    }
    Ok(())
}

/// Appends words, in which a backslash stands before each sign that could be a mark.
///
/// # Errors
///
/// Out of memory. What the text then ends with is open.
pub fn push_escaped(out: &mut Vec<u8>, words: &[u8]) -> Result<(), AllocError>
    ensures { OnOk result (out.new.items ≡ out.old.items ++ escaped words.now) }
{
    if let [byte, rest @ ..] = words {
        push_byte(out, byte.is_ascii_punctuation(), *byte)?;
        push_rest(out, rest)?;
    }
    Ok(())
}

/// Words as Markdown that shows them as they are: a backslash stands before each sign that could be a mark.
///
/// # Errors
///
/// Out of memory.
pub fn escaped(alloc: Global, words: &str) -> Result<Vec<u8>, AllocError>
    ensures { IfOk result (λ text. text.items ≡ escaped words.now) }
{
    let mut text = Vec::new(alloc);
    push_escaped(&mut text, words.as_bytes())?;
    Ok(text)
}
