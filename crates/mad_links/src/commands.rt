//! The commands of links (OSC 8).

ghost use Rattle.std.specs.Prelude.{◌≡◌, ◌++◌, Some, OnOk, string_bytes};
ghost use Rattle.mad_links.specs.LinkRows.{open_bytes, close_bytes};

use crate::addresses::LinkAddress;
use std::alloc::AllocError;
use std::fmt;

/// Opens a link: what is written from here on leads to its address. Pieces with the same number are one link, wherever they are.
#[derive(Clone, Copy)]
pub struct OpenLink<'a> {
    /// The number of the link.
    pub number: usize,
    /// Its address.
    pub address: &'a LinkAddress,
}

impl fmt::Display for OpenLink<'_> {
    ghost use Rattle.std.specs.Prelude.{Some};
    ghost use Rattle.mad_links.specs.LinkRows.{open_bytes};

    ghost output = { λ c. Some (open_bytes c.number c.address.now) };

    fn fmt<W: fmt::Write>(&self, f: &mut fmt::Formatter<W>) -> fmt::Result {
        let number = self.number;
        let address = self.address.as_str();
        write!(f, "\x1b]8;id={number};{address}\x1b\\")
    }
}

/// Closes the link that is open.
#[derive(Clone, Copy)]
pub struct CloseLink;

impl fmt::Display for CloseLink {
    ghost use Rattle.std.specs.Prelude.{Some};
    ghost use Rattle.mad_links.specs.LinkRows.{close_bytes};

    ghost output = { λ _. Some close_bytes };

    fn fmt<W: fmt::Write>(&self, f: &mut fmt::Formatter<W>) -> fmt::Result {
        f.write_str(CLOSING)
    }
}

const CLOSING: &str = "\x1b]8;;\x1b\\";

/// Appends the command that opens a link.
///
/// # Errors
///
/// Out of memory. What the row then ends with is open.
pub fn push_open(row: &mut String, number: usize, address: &LinkAddress) -> Result<(), AllocError>
    ensures { OnOk result (string_bytes row.new ≡ string_bytes row.old ++ open_bytes number address.now) }
{
    let command = OpenLink { number, address };
    write!(row, "{command}")
}

/// Appends the command that closes the link that is open.
///
/// # Errors
///
/// Out of memory. What the row then ends with is open.
pub fn push_close(row: &mut String) -> Result<(), AllocError>
    ensures { OnOk result (string_bytes row.new ≡ string_bytes row.old ++ close_bytes) }
{
    row.push_str(CLOSING)
}
