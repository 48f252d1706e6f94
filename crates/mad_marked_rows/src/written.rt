//! Characters that are drawn again, each in the link of its mark.

ghost use Rattle.std.specs.Prelude.{◌≡◌, [], ◌∷◌, ◌++◌, IfOk, OnOk, map, string_bytes};
ghost use Rattle.mad_links.specs.LinkRows.{linked_bytes};
ghost use Rattle.mad_marked_rows.specs.Written.{seen_link};
ghost use Rattle.mad_marked_rows.specs.LinkedTexts.{pieces_on};

use crate::links::mark_link;
use crate::seen::SeenChar;
use mad_links::{LinkAddress, push_change, push_end};
use std::alloc::AllocError;

/// Puts characters after the rows that are there, each in its style and in the link of its mark. No link is open at their end.
///
/// # Errors
///
/// Out of memory is the only error. What the rows then end with is open.
pub fn append_seen(
    rows: &mut String,
    seen: &[SeenChar],
    addresses: &[Option<LinkAddress>],
) -> Result<(), AllocError>
    ensures { OnOk result (string_bytes rows.new ≡ string_bytes rows.old ++ linked_bytes addresses.now (map seen_link seen.now)) }
{
    let mut link = None;
    for one in seen {
        link = append_one(rows, *one, addresses, link)?;
    }
    push_end(rows, addresses, link)?;
    Ok(())
}

// One of them, where the link of the number `was` is open; which one is then, is answered.
fn append_one(
    rows: &mut String,
    seen: SeenChar,
    addresses: &[Option<LinkAddress>],
    was: Option<usize>,
) -> Result<Option<usize>, AllocError>
    ensures { IfOk result (λ now. pieces_on addresses.now (string_bytes rows.old, was) (seen_link seen ∷ []) ≡ (string_bytes rows.new, now)) }
{
    let link = mark_link(addresses, seen.value);
    push_change(rows, addresses, was, link)?;
    let char = seen.char;
    write!(rows, "{char}")?;
    Ok(link)
}
