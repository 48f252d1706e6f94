//! The inlines of a text: worked rows, and what no contract says.
//!
//! A call is `inlines`, or `inlines: ` and the labels of definitions with `; ` between them. Its answer
//! has a line for each run of what is shown: how it looks, and its text after a bar. Then comes a line for each link, with what it leads to.
//! A break of a line is `⏎`, and the picture of a control character is its number. In a text `□` is U+0085 and `←` U+202E.

use markdown_addresses::addresses::Scheme;
use markdown_brackets::labels::{Labels, normal};
use markdown_inlines::inlines::{LinkTarget, leaf_text};
use markdown_inlines::looks::Look;
use markdown_inlines::styled::Styled;
use std::alloc::{AllocError, Global};
use std::fmt::Write;

/// The inlines of a text, in the labels that its call names.
pub fn draw_inlines(alloc: Global, call: &str, text: &str) -> Result<String, AllocError> {
    let text: String = text.chars().map(meant).collect(alloc)?;
    let labels = labels_of(alloc, call)?;
    let leaf = leaf_text(alloc, &labels, text.as_str())?;
    let mut picture = String::new(alloc);
    draw_runs(&mut picture, &leaf.styled)?;
    for (number, link) in leaf.links.iter().enumerate() {
        draw_link(&mut picture, text.as_str(), number, link)?;
    }
    Ok(picture)
}

// The character that a sign means.
fn meant(sign: char) -> char {
    match sign {
        '□' => '\u{85}',
        '←' => '\u{202e}',
        _ => sign,
    }
}

// A break as a sign, and the picture of a control character by its number.
fn draw_char(picture: &mut String, c: char) -> Result<(), AllocError> {
    match c {
        '\n' => picture.push('⏎'),
        '\u{2400}'..='\u{2426}' => write!(picture, "({:X})", c as u32),
        _ => picture.push(c),
    }
}

// The labels that a call names, as they are compared.
fn labels_of(alloc: Global, call: &str) -> Result<Labels, AllocError> {
    let mut labels = Labels::new(alloc);
    let names = call.split_once(": ").unwrap_or(("", "")).1;
    for name in names.split("; ") {
        if let Some(label) = normal(alloc, name.as_bytes())? {
            labels.insert(label)?;
        }
    }
    Ok(labels)
}

fn draw_word(picture: &mut String, holds: bool, word: &str) -> Result<(), AllocError> {
    if holds {
        picture.push_str(word)?;
        picture.push(' ')?;
    }
    Ok(())
}

fn draw_look(picture: &mut String, look: &Look) -> Result<(), AllocError> {
    draw_word(picture, look.bold, "bold")?;
    draw_word(picture, look.italic, "italic")?;
    draw_word(picture, look.strikeout, "strikeout")?;
    draw_word(picture, look.code, "code")?;
    if let Some(number) = look.link {
        write!(picture, "link {number} ")?;
    }
    Ok(())
}

// Each run in a line of its own.
fn draw_runs(picture: &mut String, styled: &Styled) -> Result<(), AllocError> {
    let text = styled.text.as_str();
    for (index, run) in styled.runs.iter().enumerate() {
        let end = match styled.runs.get(index.saturating_add(1)) {
            Some(next) => next.start,
            None => text.len(),
        };
        draw_look(picture, &run.look)?;
        picture.push('|')?;
        for c in text.get(run.start..end).unwrap_or("?").chars() {
            draw_char(picture, c)?;
        }
        picture.push('\n')?;
    }
    Ok(())
}

fn scheme_word(scheme: Scheme) -> &'static str {
    match scheme {
        Scheme::Itself => "",
        Scheme::Mail => "mailto:",
        Scheme::Web => "http://",
    }
}

// So many bytes of a text, from a place on.
fn part(text: &str, at: usize, len: usize) -> &str {
    text.get(at..at.saturating_add(len)).unwrap_or("?")
}

fn draw_link(
    picture: &mut String,
    text: &str,
    number: usize,
    link: &LinkTarget,
) -> Result<(), AllocError> {
    match link {
        LinkTarget::Definition(index) => write!(picture, "{number} to definition {index}\n"),
        LinkTarget::Inline(at, len) => write!(picture, "{number} to {}\n", part(text, *at, *len)),
        LinkTarget::Address(scheme, at, len) => write!(
            picture,
            "{number} to {}{}\n",
            scheme_word(*scheme),
            part(text, *at, *len)
        ),
        LinkTarget::Attribute(at, value) => {
            let begin = at.saturating_add(value.start);
            write!(picture, "{number} to {}\n", part(text, begin, value.len))
        }
    }
}
