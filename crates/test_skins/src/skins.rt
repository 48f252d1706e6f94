//! Skins as words.

use crate::refusal::Refusal;
use serde_json::Value;
use std::alloc::Global;
use termimad::{MadSkin, TableBorderChars, skin_from_value};

/// The skin of a word: the name of a made one, or JSON text that changes the default one. Without a word it has no style.
///
/// # Errors
///
/// The text is no JSON or no skin; out of memory.
pub fn skin_of(alloc: Global, word: &str) -> Result<MadSkin, Refusal> {
    match word {
        "" => Ok(MadSkin::no_style()),
        "default" => Ok(MadSkin::default()),
        "dark" => Ok(MadSkin::default_dark()),
        "light" => Ok(MadSkin::default_light()),
        "ascii" => Ok(ascii()),
        "returns" => Ok(returns()),
        _ => skin_said(alloc, word),
    }
}

// The skin without style, all of whose characters are ASCII.
fn ascii() -> MadSkin {
    let mut skin = MadSkin::no_style();
    skin.limit_to_ascii();
    skin
}

// Borders that are control characters.
const RETURNS: TableBorderChars = TableBorderChars {
    horizontal: '\r',
    vertical: '\r',
    top_left_corner: '\r',
    top_right_corner: '\r',
    bottom_right_corner: '\r',
    bottom_left_corner: '\r',
    top_junction: '\r',
    right_junction: '\r',
    bottom_junction: '\r',
    left_junction: '\r',
    cross: '\r',
};

fn returns() -> MadSkin {
    let mut skin = MadSkin::no_style();
    skin.table_border_chars = RETURNS;
    skin
}

// The skin that a JSON text says. After `endless` its paragraphs have margins without end.
fn skin_said(alloc: Global, word: &str) -> Result<MadSkin, Refusal> {
    let Some(text) = word.strip_prefix("endless ") else {
        return Ok(read(alloc, word)?.0);
    };
    let mut skin = read(alloc, text)?.0;
    skin.paragraph.left_margin = usize::MAX;
    skin.paragraph.right_margin = usize::MAX;
    Ok(skin)
}

/// The skin that a JSON text says, and its unknown keys.
///
/// # Errors
///
/// The text is no JSON or no skin; out of memory.
pub fn read(alloc: Global, text: &str) -> Result<(MadSkin, Vec<String>), Refusal> {
    let value = Value::from_str(alloc, text)?;
    Ok(skin_from_value(alloc, &value)?)
}
