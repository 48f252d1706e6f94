//! The inlines of a text's leaves. Of each leaf there is a line with its text, a line for each piece, and one for each pair of runs: the indices of the two
//! pieces, and how many marks the pair takes.

use markdown_addresses::addresses::Scheme;
use markdown_brackets::brackets::Link;
use markdown_brackets::labels::{Labels, normal};
use markdown_cells::cells::{after_cell, cell_of, cell_text, row_of, without_first};
use markdown_definitions::definitions;
use markdown_destinations::destinations::{Destination, defined_leads, link_leads};
use markdown_emphasis::Pair;
use markdown_inlines::inlines::LinkTarget;
use markdown_leaves::defining::joined;
use markdown_leaves::{Block, Kind as LeafKind, Part, read_parts};
use markdown_marks::definitions::{after_definition, after_label};
use markdown_marks::headings::without_end;
use markdown_pieces::cut::cut_text;
use markdown_pieces::pieces::{Kind, Piece};
use markdown_spans::code::is_padded;
use markdown_spans::words::bytes_up_to;
use std::alloc::{AllocError, Global};
use std::fmt::Write;

/// What the definitions of a text lead to, by the numbers of their labels.
#[derive(Drop)]
struct Definitions {
    labels: Labels,
    leads: Vec<Destination>,
}

// The label in front of a definition.
fn label_of(definition: &[u8]) -> &[u8] {
    let inside = without_first(definition);
    match after_label(inside) {
        None => inside,
        Some(rest) => bytes_up_to(
            inside,
            inside.len().saturating_sub(rest.len()).saturating_sub(1),
        ),
    }
}

// The first definition of each label counts.
fn add_definitions(
    alloc: Global,
    seen: &mut Labels,
    leads: &mut Vec<Destination>,
    text: &[u8],
) -> Result<(), AllocError> {
    let mut rest = text;
    for _ in 0..text.len() {
        let Some(next) = after_definition(rest) else {
            return Ok(());
        };
        if let Some(label) = normal(alloc, label_of(rest))? {
            if seen.insert(label)? {
                leads.push(defined_leads(alloc, rest)?)?;
            }
        }
        rest = next;
    }
    Ok(())
}

fn definitions_of(alloc: Global, parts: &[Part<'_>]) -> Result<Definitions, AllocError> {
    let mut seen = Labels::new(alloc);
    let mut leads = Vec::new(alloc);
    for part in parts {
        if let Part::Block(block) = part {
            if block.kind == LeafKind::Definitions {
                let text = joined(alloc, &block.lines)?;
                add_definitions(alloc, &mut seen, &mut leads, &text)?;
            }
        }
    }
    Ok(Definitions {
        labels: definitions::definitions_of(alloc, parts)?.labels,
        leads,
    })
}

// So many bytes of a text, from a place on.
fn part(text: &str, at: usize, len: usize) -> &str {
    text.get(at..at.saturating_add(len)).unwrap_or("?")
}

// Behind a bar, with signs for newlines.
fn draw_text(picture: &mut String, text: &str) -> Result<(), AllocError> {
    picture.push_str(" |")?;
    for c in text.chars() {
        match c {
            '\n' => picture.push_str("\\n")?,
            '\\' => picture.push_str("\\\\")?,
            _ => picture.push(c)?,
        }
    }
    picture.push('\n')
}

fn draw_part(picture: &mut String, word: &str, text: &str) -> Result<(), AllocError> {
    picture.push_str(word)?;
    draw_text(picture, text)
}

fn draw_code(picture: &mut String, inside: &str) -> Result<(), AllocError> {
    let shown = if is_padded(inside.as_bytes()) {
        part(inside, 1, inside.len().saturating_sub(2))
    } else {
        inside
    };
    picture.push_str("code |")?;
    for c in shown.chars() {
        match c {
            '\n' => picture.push(' ')?,
            '\\' => picture.push_str("\\\\")?,
            _ => picture.push(c)?,
        }
    }
    picture.push('\n')
}

fn draw_characters(picture: &mut String, c: char, second: Option<char>) -> Result<(), AllocError> {
    let mut text = String::new(*picture.allocator());
    text.push(c)?;
    if let Some(d) = second {
        text.push(d)?;
    }
    draw_part(picture, "text", &text)
}

fn draw_leads(picture: &mut String, leads: &Destination) -> Result<(), AllocError> {
    draw_text(picture, &leads.destination)?;
    draw_part(picture, "title", &leads.title)
}

fn draw_link(
    picture: &mut String,
    definitions: &Definitions,
    text: &str,
    after: usize,
    link: &Link,
) -> Result<(), AllocError> {
    let alloc = *picture.allocator();
    picture.push_str(if link.image { "image" } else { "link" })?;
    write!(picture, " {}", link.opener)?;
    match link.target.definition {
        Some(index) => match definitions.leads.get(index) {
            Some(leads) => draw_leads(picture, leads),
            None => draw_text(picture, "?"),
        },
        None => match link_leads(alloc, text, LinkTarget::Inline(after, link.target.len))? {
            Some(leads) => draw_leads(picture, &leads),
            None => draw_text(picture, "?"),
        },
    }
}

fn address_word(scheme: Scheme) -> &'static str {
    match scheme {
        Scheme::Itself | Scheme::Web => "uri",
        Scheme::Mail => "email",
    }
}

fn bare_word(scheme: Scheme) -> &'static str {
    match scheme {
        Scheme::Itself | Scheme::Web => "bare",
        Scheme::Mail => "mail",
    }
}

fn draw_piece(
    picture: &mut String,
    definitions: &Definitions,
    text: &str,
    at: usize,
    piece: &Piece,
) -> Result<(), AllocError> {
    let whole = part(text, at, piece.more.saturating_add(1));
    match piece.kind {
        Kind::Plain => draw_part(picture, "text", whole),
        Kind::Shown(c, second) => draw_characters(picture, c, second),
        Kind::Code(code) => {
            let inside = part(text, at.saturating_add(code.marks), code.len);
            draw_code(picture, inside)
        }
        Kind::Address(len, scheme) => {
            let address = part(text, at.saturating_add(1), len);
            draw_part(picture, address_word(scheme), address)
        }
        Kind::Bare(scheme) => draw_part(picture, bare_word(scheme), whole),
        Kind::Html(_) => draw_part(picture, "html", whole),
        Kind::Soft => picture.push_str("soft\n"),
        Kind::Hard => picture.push_str("break\n"),
        Kind::Run(_) => draw_part(picture, "run", whole),
        Kind::Opening(_) => draw_part(picture, "open", whole),
        Kind::Closing(None) => draw_part(picture, "close", whole),
        Kind::Closing(Some(link)) => {
            draw_link(picture, definitions, text, at.saturating_add(1), &link)
        }
    }
}

fn draw_pair(picture: &mut String, pair: &Pair) -> Result<(), AllocError> {
    write!(
        picture,
        "pair {} {} {}\n",
        pair.opener, pair.closer, pair.count
    )
}

// A leaf with this text.
fn draw_leaf(
    picture: &mut String,
    definitions: &Definitions,
    bytes: &[u8],
) -> Result<(), AllocError> {
    let alloc = *picture.allocator();
    let text = String::from_utf8_lossy(alloc, bytes)?;
    let cut = cut_text(alloc, &definitions.labels, &text)?;
    draw_part(picture, "leaf", &text)?;
    let mut at: usize = 0;
    for piece in &cut.pieces {
        draw_piece(picture, definitions, &text, at, piece)?;
        at = at.saturating_add(piece.more).saturating_add(1);
    }
    for pair in &cut.pairs {
        draw_pair(picture, pair)?;
    }
    Ok(())
}

fn draw_cells(
    picture: &mut String,
    definitions: &Definitions,
    columns: usize,
    row: &[u8],
) -> Result<(), AllocError> {
    let mut rest = row_of(row);
    for _ in 0..columns {
        let text = cell_text(*picture.allocator(), cell_of(rest))?;
        draw_leaf(picture, definitions, &text)?;
        rest = after_cell(rest);
    }
    Ok(())
}

fn draw_block(
    picture: &mut String,
    definitions: &Definitions,
    block: &Block<'_>,
) -> Result<(), AllocError> {
    match block.kind {
        LeafKind::Paragraph | LeafKind::Heading(_) => {
            let text = joined(*picture.allocator(), &block.lines)?;
            draw_leaf(picture, definitions, without_end(b' ', b'\t', &text))
        }
        LeafKind::Table(columns) => {
            for line in &block.lines {
                draw_cells(picture, definitions, columns, line.bytes)?;
            }
            Ok(())
        }
        _ => Ok(()),
    }
}

/// The inlines of a text's leaves.
pub(crate) fn draw_leaves(alloc: Global, text: &str) -> Result<String, AllocError> {
    let parts = read_parts(alloc, text.as_bytes())?;
    let definitions = definitions_of(alloc, &parts)?;
    let mut picture = String::new(alloc);
    for part in &parts {
        if let Part::Block(block) = part {
            draw_block(&mut picture, &definitions, block)?;
        }
    }
    Ok(picture)
}
