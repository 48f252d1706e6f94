//! What JSON texts change, and the values of skins.

use serde_json::Value;
use std::alloc::{AllocError, Global};
use termimad::{Color, MadSkin, skin_from_value, skin_to_value};
use test_skins::{Asked, Refusal, read};

/// What a JSON text changes: the parts whose values aren't those of the default skin, and the unknown keys.
pub fn changes(alloc: Global, text: &str) -> Result<String, Refusal> {
    let (skin, unknown) = read(alloc, text)?;
    let mut told = String::new(alloc);
    push_changed_parts(alloc, &skin, &mut told)?;
    for key in &unknown {
        write!(told, "unknown: {key}\n")?;
    }
    Ok(told)
}

fn push_changed_parts(alloc: Global, skin: &MadSkin, told: &mut String) -> Result<(), AllocError> {
    let old = skin_to_value(alloc, &MadSkin::default())?;
    let new = skin_to_value(alloc, skin)?;
    push_changed_members(&old, &new, told)
}

fn push_changed_members(old: &Value, new: &Value, told: &mut String) -> Result<(), AllocError> {
    let Some(parts) = new.as_object() else {
        return Ok(());
    };
    for (key, part) in parts.iter() {
        if old.get(key.as_str()) != Some(part) {
            write!(told, "{key}: {part}\n")?;
        }
    }
    Ok(())
}

/// What it changes of the default skin where the numbers of a level's items are red, and whether a style that is lent changes the same.
pub fn numbered(alloc: Global, level: u8) -> Result<String, Refusal> {
    let mut skin = MadSkin::default();
    let mut item = *skin.ordered_item_style(level);
    item.index_style.set_fg(Color::Red);
    let is_level = skin.set_ordered_item_style(level, item);
    let mut lent = MadSkin::default();
    let Some(style) = lent.ordered_item_style_mut(level) else {
        let told = if is_level {
            "otherwise"
        } else {
            "no such level"
        };
        return Ok(String::from_str(alloc, told)?);
    };
    style.index_style.set_fg(Color::Red);
    if !is_level || lent != skin {
        return Ok(String::from_str(alloc, "otherwise")?);
    }
    let mut told = String::new(alloc);
    push_changed_parts(alloc, &skin, &mut told)?;
    Ok(told)
}

/// The same of a text in which an unknown key has a value of many characters: `count` times what is before a point, and what is after it.
pub fn deep_changes(alloc: Global, count: usize, text: &str) -> Result<String, Refusal> {
    let (front, back) = text.split_once('.').unwrap_or((text, ""));
    let front = front.repeat(alloc, count)?;
    let back = back.repeat(alloc, count)?;
    let text = format!(in alloc; "{{\"colour\":{front}{back}}}")?;
    changes(alloc, text.as_str())
}

/// The value of the skin, as JSON.
pub fn value(asked: &Asked) -> Result<String, Refusal> {
    let value = skin_to_value(asked.alloc, &asked.skin)?;
    Ok(value.to_string(asked.alloc)?)
}

/// Whether the skin is read back from its value.
pub fn reads_back(asked: &Asked) -> Result<String, Refusal> {
    let value = skin_to_value(asked.alloc, &asked.skin)?;
    let (read, unknown) = skin_from_value(asked.alloc, &value)?;
    let is_same = read == asked.skin && unknown.is_empty();
    Ok(String::from_str(asked.alloc, if is_same { "well" } else { "otherwise" })?)
}
