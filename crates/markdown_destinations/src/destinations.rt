//! The texts of destinations and titles.

ghost use Rattle.std.specs.Prelude.{◌≡◌, IfOk, option_map, string_bytes};
ghost use Rattle.markdown_inlines.specs.Parts.{part};
ghost use Rattle.markdown_destinations.specs.Destinations.{scheme_text, inline_leads, defined_leads, address_leads, attribute_leads, link_leads};
ghost use Rattle.markdown_destinations.specs.LeadsOf.{leads_of};

use markdown_addresses::addresses::Scheme;
use markdown_inlines::inlines::LinkTarget;
use markdown_link_parts::parts::{
    defined_destination, defined_title, inline_destination, inline_title,
};
use markdown_link_parts::texts::text_of;
use markdown_spans::attributes::{Value, value_text};
use markdown_spans::words::{bytes_from, bytes_up_to};
use std::alloc::{AllocError, Global};

/// What a link leads to.
#[derive(Debug, Drop)]
pub struct Destination {
    /// An address, as a browser takes it, but for characters that it would encode.
    pub destination: String,
    /// Empty without one.
    pub title: String,
}

// What stands in parentheses behind a link, with them.
fn inline_leads(alloc: Global, link: &[u8]) -> Result<Destination, AllocError>
    ensures { IfOk result (λ found. leads_of found ≡ inline_leads link.now) }
{
    let destination = text_of(alloc, inline_destination(link))?;
    let title = text_of(alloc, inline_title(link))?;
    Ok(Destination { destination, title })
}

/// What the definition leads to that a text begins with.
///
/// # Errors
///
/// Out of memory is the only error.
pub fn defined_leads(alloc: Global, definition: &[u8]) -> Result<Destination, AllocError>
    ensures { IfOk result (λ found. leads_of found ≡ defined_leads definition.now) }
{
    let destination = text_of(alloc, defined_destination(definition))?;
    let title = text_of(alloc, defined_title(definition))?;
    Ok(Destination { destination, title })
}

fn scheme_text(scheme: Scheme) -> &'static str
    ensures { result.now ≡ scheme_text scheme }
{
    match scheme {
        Scheme::Itself => "",
        Scheme::Mail => "mailto:",
        Scheme::Web => "http://",
    }
}

fn address_leads(alloc: Global, scheme: Scheme, address: &[u8]) -> Result<Destination, AllocError>
    ensures { IfOk result (λ found. leads_of found ≡ address_leads scheme address.now) }
{
    let mut destination = String::new(alloc);
    destination.push_str(scheme_text(scheme))?;
    let address = String::from_utf8_lossy(alloc, address)?;
    destination.push_str(address.as_str())?;
    Ok(Destination {
        destination,
        title: String::new(alloc),
    })
}

// Where a tag leads, by the value of its attribute.
fn attribute_leads(alloc: Global, tag: &[u8], value: Value) -> Result<Destination, AllocError>
    ensures { IfOk result (λ found. leads_of found ≡ attribute_leads tag.now value) }
{
    let text = value_text(alloc, tag, value)?;
    let destination = String::from_utf8_lossy(alloc, &text)?;
    Ok(Destination {
        destination,
        title: String::new(alloc),
    })
}

fn part(text: &[u8], at: usize, len: usize) -> &[u8]
    ensures { result.now ≡ part text.now at len }
{
    bytes_up_to(bytes_from(text, at), len)
}

/// What a link of a leaf with this text leads to. Nothing is said of a link that a definition makes: see [`defined_leads`].
///
/// # Errors
///
/// Out of memory is the only error.
pub fn link_leads(
    alloc: Global,
    text: &str,
    link: LinkTarget,
) -> Result<Option<Destination>, AllocError>
    ensures { IfOk result (λ found. option_map leads_of found ≡ link_leads text.now link) }
{
    match link {
        LinkTarget::Definition(_) => Ok(None),
        LinkTarget::Inline(at, len) => {
            let found = inline_leads(alloc, part(text.as_bytes(), at, len))?;
            Ok(Some(found))
        }
        LinkTarget::Address(scheme, at, len) => {
            let found = address_leads(alloc, scheme, part(text.as_bytes(), at, len))?;
            Ok(Some(found))
        }
        LinkTarget::Attribute(at, value) => {
            let found = attribute_leads(alloc, bytes_from(text.as_bytes(), at), value)?;
            Ok(Some(found))
        }
    }
}
