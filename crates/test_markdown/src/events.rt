//! Texts as events.
//!
//! `events`: what begins and ends of a text's blocks, and the lines of leaves behind a bar. `apart` says that blank lines are before it.
//!
//! `walk`: of each paragraph and heading the events of its inlines. In front are the line of the source, from 0, and the byte of what the line has behind its
//! containers; then how many bytes say the event.

use markdown_addresses::addresses::Scheme;
use markdown_brackets::labels::Labels;
use markdown_definitions::definitions::definitions_of;
use markdown_events::{Event, Tag, read_events, read_placed};
use markdown_inline_events::{Inline, InlineTag, leaf_source, line_places, read_inlines};
use markdown_inlines::inlines::LinkTarget;
use markdown_leaves::{Block, Kind, Part};
use std::alloc::{AllocError, Global};
use std::fmt::Write;

fn draw_kind(picture: &mut String, kind: Kind) -> Result<(), AllocError> {
    match kind {
        Kind::Nothing => picture.push_str("nothing"),
        Kind::Paragraph => picture.push_str("paragraph"),
        Kind::Heading(level) => write!(picture, "heading {level}"),
        Kind::Indented => picture.push_str("indented code"),
        Kind::Fenced => picture.push_str("fenced code"),
        Kind::Html => picture.push_str("html"),
        Kind::Table(columns) => write!(picture, "table {columns}"),
        Kind::Rule => picture.push_str("rule"),
        Kind::Definitions => picture.push_str("definitions"),
    }
}

fn draw_tag(picture: &mut String, tag: Tag) -> Result<(), AllocError> {
    match tag {
        Tag::Quote => picture.push_str("quote"),
        Tag::List { sign, number } => write!(picture, "list {} {number}", char::from(sign)),
        Tag::Item => picture.push_str("item"),
        Tag::Leaf(kind) => draw_kind(picture, kind),
    }
}

fn draw_event(picture: &mut String, event: &Event<'_>) -> Result<(), AllocError> {
    match event {
        Event::Start(tag, apart) => {
            picture.push_str("begins ")?;
            draw_tag(picture, *tag)?;
            if *apart {
                picture.push_str(", apart")?;
            }
        }
        Event::End(tag) => {
            picture.push_str("ends ")?;
            draw_tag(picture, *tag)?;
        }
        Event::Line(rest) => {
            let text = String::from_utf8_lossy(*picture.allocator(), rest.bytes)?;
            write!(picture, "|{text}")?;
        }
    }
    picture.push('\n')
}

/// What begins and ends of a text's blocks.
pub fn draw_events(alloc: Global, text: &str) -> Result<String, AllocError> {
    let events = read_events(alloc, text.as_bytes())?;
    let mut picture = String::new(alloc);
    for event in &events {
        draw_event(&mut picture, event)?;
    }
    Ok(picture)
}

fn scheme_word(scheme: Scheme) -> &'static str {
    match scheme {
        Scheme::Itself => "",
        Scheme::Mail => "mailto:",
        Scheme::Web => "http://",
    }
}

// So many bytes of a text, from a place on.
fn part(text: &str, at: usize, len: usize) -> &str {
    text.get(at..at.saturating_add(len)).unwrap_or("?")
}

fn draw_target(picture: &mut String, source: &str, target: LinkTarget) -> Result<(), AllocError> {
    match target {
        LinkTarget::Definition(index) => write!(picture, " to definition {index}"),
        LinkTarget::Inline(at, len) => write!(picture, " to {}", part(source, at, len)),
        LinkTarget::Address(scheme, at, len) => write!(
            picture,
            " to {}{}",
            scheme_word(scheme),
            part(source, at, len)
        ),
        LinkTarget::Attribute(at, value) => {
            let begin = at.saturating_add(value.start);
            write!(picture, " to {}", part(source, begin, value.len))
        }
    }
}

fn draw_inline_tag(picture: &mut String, source: &str, tag: InlineTag) -> Result<(), AllocError> {
    match tag {
        InlineTag::Emphasis => picture.push_str("emphasis"),
        InlineTag::Strong => picture.push_str("strong"),
        InlineTag::Strikeout => picture.push_str("strikeout"),
        InlineTag::Link(target) => {
            picture.push_str("link")?;
            draw_target(picture, source, target)
        }
        InlineTag::Image(target) => {
            picture.push_str("image")?;
            draw_target(picture, source, target)
        }
    }
}

fn draw_inline(picture: &mut String, source: &str, inline: Inline<'_>) -> Result<(), AllocError> {
    match inline {
        Inline::Start(tag) => {
            picture.push_str("begins ")?;
            draw_inline_tag(picture, source, tag)
        }
        Inline::End(tag) => {
            picture.push_str("ends ")?;
            draw_inline_tag(picture, source, tag)
        }
        Inline::Text(text) => write!(picture, "text |{text}|"),
        Inline::Character(c, None) => write!(picture, "character |{c}|"),
        Inline::Character(c, Some(d)) => write!(picture, "character |{c}{d}|"),
        Inline::Marks(c, count) => write!(picture, "marks |{c}| {count}"),
        Inline::Code(text) => write!(picture, "code |{text}|"),
        Inline::Html(_, text) => write!(picture, "html |{text}|"),
        Inline::SoftBreak => picture.push_str("soft break"),
        Inline::HardBreak => picture.push_str("hard break"),
    }
}

fn draw_leaf(
    picture: &mut String,
    labels: &Labels,
    block: &Block<'_>,
    line: usize,
) -> Result<(), AllocError> {
    let alloc = *picture.allocator();
    draw_kind(picture, block.kind)?;
    picture.push('\n')?;
    let source = leaf_source(alloc, &block.lines)?;
    let events = read_inlines(alloc, labels, source.as_str())?;
    let places = line_places(alloc, &block.lines, &events)?;
    for (event, place) in events.iter().zip(places.iter()) {
        write!(
            picture,
            "{}.{}+{} ",
            line.saturating_add(place.line),
            place.byte,
            event.len
        )?;
        draw_inline(picture, source.as_str(), event.inline)?;
        picture.push('\n')?;
    }
    Ok(())
}

/// The events of the inlines of a text's paragraphs and headings.
pub fn draw_walk(alloc: Global, text: &str) -> Result<String, AllocError> {
    let (parts, lines) = read_placed(alloc, text.as_bytes())?;
    let labels = definitions_of(alloc, &parts)?.labels;
    let mut picture = String::new(alloc);
    for (part, line) in parts.iter().zip(lines.iter()) {
        if let Part::Block(block) = part {
            if matches!(block.kind, Kind::Paragraph | Kind::Heading(_)) {
                draw_leaf(&mut picture, &labels, block, *line)?;
            }
        }
    }
    Ok(picture)
}
