//! Texts whose lines have something in front: a quote, and an item of a list.

ghost use Rattle.std.specs.Prelude.{◌≡◌, ◌++◌, OnOk};
ghost use Rattle.markdown_writing.specs.Fronts.{front_before, fronted, itemized, quoted};

use std::alloc::AllocError;

fn push_front(
    out: &mut Vec<u8>,
    empty: &[u8],
    full: &[u8],
    begins: bool,
    byte: u8,
) -> Result<(), AllocError>
    ensures { OnOk result (out.new.items ≡ out.old.items ++ front_before empty.now full.now begins byte) }
{
    if begins {
        let front = if byte == b'\n' { empty } else { full };
        out.extend_from_slice(front)?;
    }
    Ok(())
}

// Appends a text whose lines have something in front: `empty` where a line is empty, else `full`. The first of them begins here, or has begun before.
#[tactic(auto, using(crate::proofs::PushLemmas::put_more))]
fn push_fronted(
    out: &mut Vec<u8>,
    empty: &[u8],
    full: &[u8],
    begins: bool,
    text: &[u8],
) -> Result<(), AllocError>
    ensures { OnOk result (out.new.items ≡ out.old.items ++ fronted empty.now full.now begins text.now) }
{
    let mut at_first = begins;
    let mut rest = text;
    while let [byte, next @ ..] = rest {
        push_front(out, empty, full, at_first, *byte)?;
        out.push(*byte)?;
        at_first = *byte == b'\n';
        rest = next;
    }
    Ok(())
}

/// Appends a text whose lines each have the sign `>` before them.
///
/// # Errors
///
/// Out of memory. What the text then ends with is open.
pub fn push_quoted(out: &mut Vec<u8>, text: &[u8]) -> Result<(), AllocError>
    ensures { OnOk result (out.new.items ≡ out.old.items ++ quoted text.now) }
{
    push_fronted(out, b">", b"> ", true, text)
}

/// Appends a text as an item of a list: behind a hyphen, and its further lines behind two spaces.
///
/// # Errors
///
/// Out of memory. What the text then ends with is open.
pub fn push_item(out: &mut Vec<u8>, text: &[u8]) -> Result<(), AllocError>
    ensures { OnOk result (out.new.items ≡ out.old.items ++ itemized text.now) }
{
    out.extend_from_slice(b"- ")?;
    push_fronted(out, b"", b"  ", false, text)
}
