//! The headings, links and images of Markdown from standard input, a row for each: the line and the byte at which it begins, both counted from 1, what it is, and
//! the words of a heading or where a link leads. Bytes are those behind what belongs to quotes and items.
#![tactic(auto)]

use markdown_definitions::definitions::definitions_of;
use markdown_destinations::destinations::link_leads;
use markdown_events::read_placed;
use markdown_inline_events::{
    Inline, InlineEvent, InlineTag, leaf_source, line_places, read_inlines,
};
use markdown_inlines::inlines::LinkTarget;
use markdown_inlines::printable::shown_char;
use markdown_leaves::{Block, Kind, Part};
use markdown_lines::links::Definitions;
use std::alloc::{AllocError, Global};
use std::fmt::Write as _;
use std::io::{self, Write};

fn main(rt: HostRuntime) -> Result<(), anyhow::Error> {
    let text = io::read_to_string(rt.alloc(), rt.reader())?;
    let rows = rows_of(rt.alloc(), text.as_str())?;
    io::writer(&rt).write_all(rows.as_str().as_bytes())?;
    Ok(())
}

// The rows of a text.
fn rows_of(alloc: Global, text: &str) -> Result<String, AllocError> {
    let (parts, lines) = read_placed(alloc, text.as_bytes())?;
    let definitions = definitions_of(alloc, &parts)?;
    let mut rows = String::new(alloc);
    for (part, line) in parts.iter().zip(lines.iter()) {
        if let Part::Block(block) = part {
            push_leaf(alloc, &mut rows, &definitions, block, *line)?;
        }
    }
    Ok(rows)
}

// Adds the rows of a leaf that begins in this line.
fn push_leaf(
    alloc: Global,
    rows: &mut String,
    definitions: &Definitions,
    block: &Block<'_>,
    line: usize,
) -> Result<(), AllocError> {
    let is_heading = matches!(block.kind, Kind::Heading(_));
    if !is_heading && block.kind != Kind::Paragraph {
        return Ok(());
    }
    let source = leaf_source(alloc, &block.lines)?;
    let events = read_inlines(alloc, &definitions.labels, source.as_str())?;
    let places = line_places(alloc, &block.lines, &events)?;
    let first = line.saturating_add(1);
    if let Kind::Heading(level) = block.kind {
        write!(rows, "{first}: heading {level}: ")?;
        push_words(rows, &events)?;
    }
    for (event, place) in events.iter().zip(places.iter()) {
        if let Some((word, target)) = link_in(event) {
            let address = address_of(alloc, definitions, source.as_str(), target)?;
            let line = first.saturating_add(place.line);
            write!(rows, "{line}.{}: {word}: ", place.byte.saturating_add(1))?;
            push_shown(rows, address.as_str())?;
            rows.push('\n')?;
        }
    }
    Ok(())
}

// What begins with an event, if it is a link or an image, and where it leads.
fn link_in(event: &InlineEvent<'_>) -> Option<(&'static str, LinkTarget)> {
    match event.inline {
        Inline::Start(InlineTag::Link(target)) => Some(("link", target)),
        Inline::Start(InlineTag::Image(target)) => Some(("image", target)),
        _ => None,
    }
}

// Where a link of a leaf with this source leads.
fn address_of(
    alloc: Global,
    definitions: &Definitions,
    source: &str,
    target: LinkTarget,
) -> Result<String, AllocError> {
    if let LinkTarget::Definition(index) = target {
        return match definitions.addresses.get(index) {
            Some(address) => String::from_str(alloc, address.as_str()),
            None => Ok(String::new(alloc)),
        };
    }
    match link_leads(alloc, source, target)? {
        Some(found) => Ok(found.destination),
        None => Ok(String::new(alloc)),
    }
}

// Adds the words of events as a line.
fn push_words(rows: &mut String, events: &[InlineEvent<'_>]) -> Result<(), AllocError> {
    for event in events {
        match event.inline {
            Inline::Text(words) | Inline::Code(words) => push_shown(rows, words)?,
            Inline::Character(c, second) => {
                rows.push(shown_char(c))?;
                if let Some(d) = second {
                    rows.push(shown_char(d))?;
                }
            }
            Inline::Marks(c, count) => {
                for _ in 0..count {
                    rows.push(c)?;
                }
            }
            Inline::SoftBreak | Inline::HardBreak => rows.push(' ')?,
            Inline::Start(_) | Inline::End(_) | Inline::Html(_, _) => {}
        }
    }
    rows.push('\n')
}

// Adds a text, each character as a terminal may be shown it.
fn push_shown(rows: &mut String, text: &str) -> Result<(), AllocError> {
    for c in text.chars() {
        rows.push(shown_char(c))?;
    }
    Ok(())
}
