//! The links of marks.

ghost use Rattle.std.specs.Prelude.{◌≡◌};
ghost use Rattle.mad_marked_rows.specs.LinkedTexts.{link_of_mark, mark_link};

use mad_links::{LinkAddress, written_link};

// The link of a mark.
fn link_of_mark(value: usize) -> Option<usize>
    ensures { result ≡ link_of_mark value }
{
    if value <= 8 { None } else { Some(value - 9) }
}

/// The link of a mark that is written: its number, if it has an address.
pub fn mark_link(addresses: &[Option<LinkAddress>], value: usize) -> Option<usize>
    ensures { result ≡ mark_link addresses.now value }
{
    written_link(addresses, link_of_mark(value))
}
