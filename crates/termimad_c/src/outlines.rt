//! What a text of Markdown has of links and headings, as lines, and where a link goes within it.

ghost use Rattle.std.specs.Prelude.{◌≡◌, ◌++◌, IfOk, MatchResult, [], map, string_bytes};
ghost use Rattle.markdown_headings.specs.HeadingsSaid.{heading_said};
ghost use Rattle.markdown_reader.specs.MarkdownSays.{link_said};
ghost use Rattle.termimad_c.specs.Inputs.{RefusesCall, RefusesName};
ghost use Rattle.termimad_c.specs.Outlines.{AreHeadingsOf, AreLinksOf, IsSectionNamed, heading_lines, link_lines};

use crate::answer::Refusal;
use crate::inputs::text_of;
use markdown_headings::{Heading, find_section, headings};
use markdown_reader::read_anchors;
use std::alloc::{AllocError, Global};
use termimad::{Link, Markdown};

/// The links of a text, each as a line.
pub fn links_bytes(alloc: Global, text: &[u8]) -> Result<Vec<u8>, Refusal>
    ensures { MatchResult result (λ whole. AreLinksOf text.now whole.items) (RefusesCall ⊥ text.now []) }
{
    let text = text_of(text)?;
    let read = Markdown::read_printable(alloc, text)?;
    let lines = lines_of_links(alloc, read.links())?;
    Ok(lines.into_bytes())
}

/// The headings of a text, each as a line.
pub fn headings_bytes(alloc: Global, text: &[u8]) -> Result<Vec<u8>, Refusal>
    ensures { MatchResult result (λ whole. AreHeadingsOf text.now whole.items) (RefusesCall ⊥ text.now []) }
{
    let text = text_of(text)?;
    let read = Markdown::read_printable(alloc, text)?;
    let found = headings(alloc, &read)?;
    let lines = lines_of_headings(alloc, found.as_slice())?;
    Ok(lines.into_bytes())
}

/// The number of the section of a text to which `#name` goes, if it goes to one.
pub fn section_named(alloc: Global, text: &[u8], name: &[u8]) -> Result<Option<usize>, Refusal>
    ensures { MatchResult result (IsSectionNamed text.now name.now) (RefusesName text.now name.now) }
{
    let text = text_of(text)?;
    let name = text_of(name)?;
    let read = Markdown::read_printable(alloc, text)?;
    let found = headings(alloc, &read)?;
    let anchors = read_anchors(alloc, text)?;
    let section = find_section(alloc, anchors.as_slice(), found.as_slice(), name)?;
    Ok(section)
}

// Links, each as a line: the number of its section, a tab, and its address.
fn lines_of_links(alloc: Global, links: &[Link]) -> Result<String, AllocError>
    ensures { IfOk result (λ lines. string_bytes lines ≡ link_lines (map link_said links.now)) }
{
    let mut lines = String::new(alloc);
    for link in links {
        write!(lines, "{}\t{}\n", link.section, link.address)?;
    }
    Ok(lines)
}

// Headings, each as a line: its level, the number of its section, its name and its text, with tabs between.
fn lines_of_headings(alloc: Global, headings: &[Heading]) -> Result<String, AllocError>
    ensures { IfOk result (λ lines. string_bytes lines ≡ heading_lines (map heading_said headings.now)) }
{
    let mut lines = String::new(alloc);
    for heading in headings {
        write!(
            lines,
            "{}\t{}\t{}\t{}\n",
            heading.level, heading.section, heading.name, heading.text
        )?;
    }
    Ok(lines)
}
