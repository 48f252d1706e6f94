//! The rows of a text's page.

use mad_frames::Gathered;
use mad_layout::MadSkin;
use mad_page_skin::PageSkin;
use mad_term::Color;
use markdown_layout::write_markdown_on;
use markdown_linked_pages::write_markdown_with_links_on;
use std::alloc::{AllocError, Global};

// The rows of a text in a skin of the smaller grammar.
fn rows_in(alloc: Global, skin: &MadSkin, width: &str, text: &str) -> Result<String, AllocError> {
    rows_of_page(alloc, &PageSkin::of(skin), width, text)
}

// The rows of a text in a skin, at a width, or without one where it is no number.
fn rows_of_page(
    alloc: Global,
    skin: &PageSkin,
    width: &str,
    text: &str,
) -> Result<String, AllocError> {
    let width = width.parse::<usize>().ok();
    let mut out = Gathered::new(alloc);
    if write_markdown_on(alloc, &mut out, skin, text, width).is_err() {
        return Err(AllocError);
    }
    let rows = str::from_utf8(&out.bytes).unwrap_or("no text");
    String::from_str(alloc, rows)
}

/// The rows of a text where the bullet is ASCII, and so are the boxes of tasks.
pub(crate) fn draw_ascii(alloc: Global, width: &str, text: &str) -> Result<String, AllocError> {
    let mut skin = MadSkin::no_style();
    skin.bullet.set_char('*');
    rows_in(alloc, &skin, width, text)
}

/// The rows of a text in the skin of a page without styles.
pub(crate) fn draw_plain(alloc: Global, width: &str, text: &str) -> Result<String, AllocError> {
    rows_of_page(alloc, &PageSkin::plain(), width, text)
}

/// The rows of a text in a skin without styles.
pub(crate) fn draw_page(alloc: Global, width: &str, text: &str) -> Result<String, AllocError> {
    rows_in(alloc, &MadSkin::no_style(), width, text)
}

/// The same in a skin whose code has a background, without the commands that set it.
pub(crate) fn draw_boxes(alloc: Global, width: &str, text: &str) -> Result<String, AllocError> {
    let mut skin = MadSkin::no_style();
    skin.code_block.set_bg(Color::AnsiValue(235));
    let rows = rows_in(alloc, &skin, width, text)?;
    let mut shown = String::new(alloc);
    let mut in_command = false;
    for c in rows.as_str().chars() {
        if c == '\u{1b}' {
            in_command = true;
        } else if in_command {
            in_command = c != 'm';
        } else {
            shown.push(c)?;
        }
    }
    Ok(shown)
}

/// The rows of a text with its links, in the skin of a page without styles.
pub(crate) fn draw_linked(alloc: Global, width: &str, text: &str) -> Result<String, AllocError> {
    let width = width.parse::<usize>().ok();
    let mut out = Gathered::new(alloc);
    if write_markdown_with_links_on(alloc, &mut out, &PageSkin::plain(), text, width).is_err() {
        return Err(AllocError);
    }
    let rows = str::from_utf8(&out.bytes).unwrap_or("no text");
    String::from_str(alloc, rows)
}
