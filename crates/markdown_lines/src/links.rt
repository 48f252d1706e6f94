//! Where the links of leaves lead.

ghost use Rattle.std.specs.Prelude.{◌≡◌, ◌++◌, IfOk, OnOk, map, string_bytes};
ghost use Rattle.markdown_lines.specs.Links.{address_by, address_of, definition_address, links_at};
ghost use Rattle.markdown_lines.specs.LinksOf.{link_of};

use crate::leaf::shown_text;
use markdown_brackets::labels::Labels;
use markdown_destinations::destinations::link_leads;
use markdown_inlines::inlines::LinkTarget;
use markdown_link_parts::parts::defined_destination;
use markdown_link_parts::texts::text_of;
use std::alloc::{AllocError, Global};

/// The definitions of a text.
#[derive(Drop)]
pub struct Definitions {
    /// Their labels, as they are compared.
    pub labels: Labels,
    /// Where each of these leads.
    pub addresses: Vec<String>,
}

/// A link of a text.
#[derive(Debug, Drop)]
pub struct Link {
    /// The index of the line in which its paragraph or heading begins, or of its row of a table.
    pub line: usize,
    /// Where it leads, as it is shown: without escapes and entities, and without a character that a terminal obeys.
    pub address: String,
}

/// Where the definition leads with which a text begins.
///
/// # Errors
///
/// Out of memory is the only error.
pub fn definition_address(alloc: Global, definition: &[u8]) -> Result<String, AllocError>
    ensures { IfOk result (λ address. string_bytes address ≡ definition_address definition.now) }
{
    let text = text_of(alloc, defined_destination(definition))?;
    shown_text(alloc, text.as_str())
}

// Where a link leads that a definition makes.
fn address_by(alloc: Global, addresses: &[String], link: LinkTarget) -> Result<String, AllocError>
    ensures { IfOk result (λ address. string_bytes address ≡ address_by (map string_bytes addresses.now) link) }
{
    match link {
        LinkTarget::Definition(index) if index < addresses.len() => {
            String::from_str(alloc, addresses[index].as_str())
        }
        _ => Ok(String::new(alloc)),
    }
}

// Where a link of a leaf with this text leads.
fn address_of(
    alloc: Global,
    addresses: &[String],
    text: &str,
    link: LinkTarget,
) -> Result<String, AllocError>
    ensures { IfOk result (λ address. string_bytes address ≡ address_of (map string_bytes addresses.now) text.now link) }
{
    match link_leads(alloc, text, link)? {
        Some(leads) => shown_text(alloc, leads.destination.as_str()),
        None => address_by(alloc, addresses, link),
    }
}

/// Adds where links of a leaf with this text lead.
///
/// # Errors
///
/// Out of memory is the only error.
pub fn push_addresses(
    alloc: Global,
    addresses: &mut Vec<String>,
    defined: &[String],
    text: &str,
    links: &[LinkTarget],
) -> Result<(), AllocError>
    ensures { OnOk result (map string_bytes addresses.new.items ≡ map string_bytes addresses.old.items ++ map (address_of (map string_bytes defined.now) text.now) links.now) }
{
    for link in links {
        let address = address_of(alloc, defined, text, *link)?;
        addresses.push(address)?;
    }
    Ok(())
}

/// Adds links of one line.
///
/// # Errors
///
/// Out of memory is the only error.
pub fn push_links(
    links: &mut Vec<Link>,
    line: usize,
    addresses: Vec<String>,
) -> Result<(), AllocError>
    ensures { OnOk result (map link_of links.new.items ≡ map link_of links.old.items ++ links_at line (map string_bytes addresses.items)) }
{
    for address in addresses {
        links.push(Link { line, address })?;
    }
    Ok(())
}
