//! Pictures of lines: how many containers stay open, those that begin, what the line does to the leaves, and its text behind a bar.

use crate::blocks::{draw_marker, draw_text};
use markdown_blocks::{BlockCursor, Container, Deed, Leaf, LineRead};
use markdown_marks::headings::heading_text;
use markdown_marks::rest::Rest;
use std::alloc::{AllocError, Global};
use std::fmt::Write;

fn draw_container(picture: &mut String, container: Container) -> Result<(), AllocError> {
    match container {
        Container::Quote => picture.push_str(" quote"),
        Container::Item {
            sign,
            number,
            content,
        } => {
            picture.push_str(" item,")?;
            draw_marker(picture, sign, number)?;
            write!(picture, ",{content}")
        }
    }
}

fn draw_leaf(picture: &mut String, leaf: Leaf) -> Result<(), AllocError> {
    match leaf {
        Leaf::Nothing | Leaf::Bare => picture.push_str("nothing"),
        Leaf::Paragraph => picture.push_str("paragraph"),
        Leaf::Indented => picture.push_str("indented"),
        Leaf::Fenced {
            sign,
            length,
            indent,
        } => write!(picture, "fenced,{},{length},{indent}", char::from(sign)),
        Leaf::Html(ending) => write!(picture, "html,{ending:?}"),
        Leaf::Table => picture.push_str("table"),
    }
}

fn draw_deed(picture: &mut String, deed: Deed) -> Result<(), AllocError> {
    match deed {
        Deed::Blank => picture.push_str("blank"),
        Deed::Begins(leaf) => {
            picture.push_str("begins ")?;
            draw_leaf(picture, leaf)
        }
        Deed::Html => picture.push_str("html"),
        Deed::GoesOn => picture.push_str("goes-on"),
        Deed::Closes => picture.push_str("closes"),
        Deed::Underlines(level) => write!(picture, "underlines {level}"),
        Deed::Tabulates(columns) => write!(picture, "tabulates {columns}"),
        Deed::Heading(level) => write!(picture, "heading {level}"),
        Deed::Rule => picture.push_str("rule"),
    }
}

// The text of a heading is without the signs that close it.
fn text_of<'s>(deed: Deed, text: Rest<'s>) -> Rest<'s> {
    match deed {
        Deed::Heading(_) => Rest::whole(heading_text(text.bytes)),
        Deed::Blank
        | Deed::Begins(_)
        | Deed::Html
        | Deed::GoesOn
        | Deed::Closes
        | Deed::Underlines(_)
        | Deed::Tabulates(_)
        | Deed::Rule => text,
    }
}

fn draw_line(
    picture: &mut String,
    read: LineRead<'_>,
    containers: &[Container],
) -> Result<(), AllocError> {
    write!(picture, "{}", read.kept)?;
    for container in containers.iter().skip(read.kept) {
        draw_container(picture, *container)?;
    }
    picture.push_str(" : ")?;
    draw_deed(picture, read.deed)?;
    picture.push_str(" |")?;
    draw_text(picture, text_of(read.deed, read.text))?;
    picture.push('\n')
}

/// What each line of a text does.
pub(crate) fn draw_lines(picture: &mut String, text: &str) -> Result<(), AllocError> {
    let mut cursor = BlockCursor::new(*picture.allocator(), text.as_bytes());
    for _ in 0..=text.len() {
        let Some(read) = cursor.next_line()? else {
            break;
        };
        draw_line(picture, read, cursor.containers())?;
    }
    Ok(())
}

/// What answers a row of that call.
pub fn picture_of(alloc: Global, text: &str) -> Result<String, AllocError> {
    let mut picture = String::new(alloc);
    draw_lines(&mut picture, text)?;
    Ok(picture)
}
