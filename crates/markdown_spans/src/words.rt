//! A text with its blanks as one space.

ghost use Rattle.std.specs.Prelude.{◌≡◌, ◌++◌, false, IfOk, OnOk, drop, take};
ghost use Rattle.markdown_spans.specs.Words.{words, gap_of};

use markdown_marks::definitions::is_space_byte;
use std::alloc::{AllocError, Global};

/// The bytes from this place on, if there are any.
pub fn bytes_from(text: &[u8], at: usize) -> &[u8]
    ensures { result.now ≡ drop at text.now }
{
    if at < text.len() { &text[at..] } else { &[] }
}

/// So many of the first bytes, if there are as many.
pub fn bytes_up_to(text: &[u8], len: usize) -> &[u8]
    ensures { result.now ≡ take len text.now }
{
    if len < text.len() { &text[..len] } else { text }
}

/// A space where blanks are between two words.
///
/// # Errors
///
/// Out of memory is the only error.
pub fn add_gap(out: &mut Vec<u8>, begun: bool, gap: bool) -> Result<(), AllocError>
    ensures { OnOk result (out.new.items ≡ out.old.items ++ gap_of begun gap) }
{
    if begun && gap {
        out.push(b' ')?;
    }
    Ok(())
}

/// The words of a text, with a space between them: blanks and ends of lines at its ends are gone.
///
/// # Errors
///
/// Out of memory is the only error.
#[tactic(auto, unfolding(crate::specs::Words::words))]
pub fn words(alloc: Global, text: &[u8]) -> Result<Vec<u8>, AllocError>
    ensures { IfOk result (λ out. out.items ≡ words false false text.now) }
{
    let mut out = Vec::new(alloc);
    let mut rest = text;
    let mut begun = false;
    let mut gap = false;
    while let [b, next @ ..] = rest {
        if is_space_byte(*b) {
            gap = true;
            rest = next;
            continue;
        }
        add_gap(&mut out, begun, gap)?;
        out.push(*b)?;
        begun = true;
        gap = false;
        rest = next;
    }
    Ok(out)
}
