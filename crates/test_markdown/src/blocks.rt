//! Pictures of blocks: what each is, behind two spaces for each container that it is in, and its lines behind a bar.

use markdown_blocks::Container;
use markdown_leaves::{Block, Kind, Part, read_parts};
use markdown_marks::rest::Rest;
use std::alloc::{AllocError, Global};
use std::fmt::Write;

/// Appends a text with blanks in place of a tab that was taken in part.
pub(crate) fn draw_text(picture: &mut String, text: Rest<'_>) -> Result<(), AllocError> {
    for _ in 0..text.pending {
        picture.push(' ')?;
    }
    let shown = String::from_utf8_lossy(*picture.allocator(), text.bytes)?;
    picture.push_str(&shown)
}

fn draw_indent(picture: &mut String, depth: usize) -> Result<(), AllocError> {
    for _ in 0..depth {
        picture.push_str("  ")?;
    }
    Ok(())
}

/// Appends an item's marker: its bullet, or its number and the sign after it.
pub(crate) fn draw_marker(picture: &mut String, sign: u8, number: u32) -> Result<(), AllocError> {
    if sign == b'.' || sign == b')' {
        write!(picture, "{number}")?;
    }
    picture.push(char::from(sign))
}

fn draw_container(picture: &mut String, container: Container) -> Result<(), AllocError> {
    match container {
        Container::Quote => picture.push_str("quote\n"),
        Container::Item {
            sign,
            number,
            content,
        } => {
            picture.push_str("item ")?;
            draw_marker(picture, sign, number)?;
            write!(picture, " {content}\n")
        }
    }
}

fn draw_kind(picture: &mut String, kind: Kind) -> Result<(), AllocError> {
    match kind {
        Kind::Nothing => picture.push_str("nothing"),
        Kind::Paragraph => picture.push_str("paragraph"),
        Kind::Heading(level) => write!(picture, "heading {level}"),
        Kind::Indented => picture.push_str("indented"),
        Kind::Fenced => picture.push_str("fenced"),
        Kind::Html => picture.push_str("html"),
        Kind::Table(columns) => write!(picture, "table {columns}"),
        Kind::Rule => picture.push_str("rule"),
        Kind::Definitions => picture.push_str("definitions"),
    }
}

fn draw_block(picture: &mut String, depth: usize, block: &Block<'_>) -> Result<(), AllocError> {
    draw_indent(picture, depth)?;
    draw_kind(picture, block.kind)?;
    picture.push('\n')?;
    for line in &block.lines {
        draw_indent(picture, depth)?;
        picture.push_str("  |")?;
        draw_text(picture, *line)?;
        picture.push('\n')?;
    }
    Ok(())
}

/// The containers and leaves of a text.
pub(crate) fn draw_blocks(picture: &mut String, text: &str) -> Result<(), AllocError> {
    let parts = read_parts(*picture.allocator(), text.as_bytes())?;
    let mut depth: usize = 0;
    for part in &parts {
        match part {
            Part::Begins(container, _) => {
                draw_indent(picture, depth)?;
                draw_container(picture, *container)?;
                depth = depth.saturating_add(1);
            }
            Part::Ends => depth = depth.saturating_sub(1),
            Part::Block(block) => draw_block(picture, depth, block)?,
        }
    }
    Ok(())
}

/// What answers a row of that call.
pub fn picture_of(alloc: Global, text: &str) -> Result<String, AllocError> {
    let mut picture = String::new(alloc);
    draw_blocks(&mut picture, text)?;
    Ok(picture)
}
