//! The address of a link as it is written.

ghost use Rattle.std.specs.Prelude.{◌≡◌, IfOk};
ghost use Rattle.mad_links.specs.Addresses.{IsWritten, has_link_scheme, is_link_scheme, link_address};

use percent_encoding::{AsciiSet, CONTROLS, percent_encode};
use std::alloc::{AllocError, Global};
use std::marker::Model;

// What is escaped besides all that is outside ASCII.
const ESCAPED: AsciiSet = percent_encoding::ascii_set!(CONTROLS.add(b' '));

// The longest address that is written, in bytes: the shortest that a terminal mangles has 766.
const LONGEST: usize = 700;

/// An address that can be written: one of the schemes `http`, `https`, `mailto` and `file`, no more than 700 bytes, and each of them from 33 to 126.
#[derive(Debug, Drop)]
pub struct LinkAddress {
    text: String,
}

impl Model for LinkAddress {
    ghost use Rattle.std.specs.Prelude.{List, ℕ, string_bytes};
    ghost use Rattle.mad_links.specs.Addresses.{IsWritten};

    ghost Value = { List ℕ };

    ghost view = { λ a. string_bytes a.text };

    ghost invariant = { λ a. IsWritten (string_bytes a.text) };
}

impl LinkAddress {
    /// An address as it is written: bytes from 33 to 126 stay, each other one becomes `%` and two hexadecimal digits. `None` where it has none of the
    /// schemes, or would be longer than 700 bytes. Out of memory is the only error.
    pub fn new(alloc: Global, address: &str) -> Result<Option<Self>, AllocError>
        ensures { IfOk result (λ written. written ≡ link_address address.now) }
    {
        if !has_link_scheme(address) {
            return Ok(None);
        }
        let mut text = String::new(alloc);
        percent_encode(address.as_bytes(), ESCAPED).append_to(&mut text)?;
        if text.len() > LONGEST {
            return Ok(None);
        }
        Ok(Some(LinkAddress { text }))
    }

    /// The address.
    pub fn as_str(&self) -> &str
        ensures text { result.now ≡ self.now }
        ensures written { IsWritten self.now }
    {
        self.text.as_str()
    }
}

// Whether the address has one of the schemes, in capitals or small letters.
fn has_link_scheme(address: &str) -> bool
    ensures { result ≡ has_link_scheme address.now }
{
    match address.split_once(':') {
        None => false,
        Some((scheme, _)) => is_link_scheme(scheme),
    }
}

fn is_link_scheme(scheme: &str) -> bool
    ensures { result ≡ is_link_scheme scheme.now }
{
    scheme.eq_ignore_ascii_case("http")
        || scheme.eq_ignore_ascii_case("https")
        || scheme.eq_ignore_ascii_case("mailto")
        || scheme.eq_ignore_ascii_case("file")
}
