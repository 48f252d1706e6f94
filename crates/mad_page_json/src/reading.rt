//! The skin that an object says.

ghost use Rattle.std.specs.Prelude.{◌≡◌, ◌++◌, Ok, IfOk, IfErr, OnOk, map, string_bytes};
ghost use Rattle.serde_json.specs.View.{members_view, view};
ghost use Rattle.mad_json.specs.Faults.{TellsSkin};
ghost use Rattle.mad_page_json.specs.PageReading.{is_first_key, is_page_key, others, page_of, page_skin_read, page_under, unknown_in};

use crate::lookups::{read_choice, read_headings, read_parts, read_room, wrong_type};
use crate::named::has_key;
use crate::parts::{char_parts, style_parts, with_chars, with_styles};
use mad_dressing::HeadingMarks;
use mad_json::{SkinError, skin_from_value};
use mad_page_skin::{PageSkin, TextRoom};
use mad_style::{CompoundStyle, StyledChar};
use serde_json::{Map, Value};
use std::alloc::{AllocError, Global};

/// The skin that a value says: the keys of the smaller grammar's skin, and an object `page` beside them. The keys that name no part of it come with
/// it, those of the page last.
///
/// What no key names looks as in the skin of the smaller grammar.
///
/// # Errors
///
/// The first fault, or out of memory, which may come before any.
pub fn page_skin_from_value(
    alloc: Global,
    value: &Value,
) -> Result<(PageSkin, Vec<String>), SkinError>
    ensures ok { IfOk result (λ read. page_skin_read (view value.now) ≡ Ok (read.0, map string_bytes read.1.items)) }
    ensures err { IfErr result (λ e. TellsSkin e (page_skin_read (view value.now))) }
{
    let (text, unknown) = skin_from_value(alloc, value)?;
    let skin = PageSkin::of(&text);
    let Some(page) = value.get("page") else {
        return Ok((skin, unknown));
    };
    let Some(members) = page.as_object() else {
        return Err(wrong_type(alloc, "page"));
    };
    let read = page_from_value(alloc, &skin, page)?;
    let mut unknown = without_page(alloc, unknown)?;
    push_unknown(&mut unknown, &read, members)?;
    Ok((read, unknown))
}

/// A skin with the parts that an object says, each under its key.
///
/// # Errors
///
/// The first fault, or out of memory, which may come before any.
pub fn page_from_value(alloc: Global, skin: &PageSkin, value: &Value) -> Result<PageSkin, SkinError>
    ensures ok { IfOk result (λ read. page_under skin.now (view value.now) ≡ Ok read) }
    ensures err { IfErr result (λ e. TellsSkin e (page_under skin.now (view value.now))) }
{
    let headings = read_headings(alloc, value, skin.headings)?;
    let room = read_room(alloc, value, skin.room)?;
    let cell_blanks = read_choice(alloc, value, "cell_blanks", skin.cell_blanks)?;
    let chars = read_parts(alloc, value, &char_parts(skin))?;
    let styles = read_parts(alloc, value, &style_parts(skin))?;
    Ok(page_of(*skin, headings, room, cell_blanks, &chars, &styles))
}

// A skin with these parts.
fn page_of(
    skin: PageSkin,
    headings: HeadingMarks,
    room: TextRoom,
    cell_blanks: bool,
    chars: &[StyledChar],
    styles: &[CompoundStyle],
) -> PageSkin
    ensures { result ≡ page_of skin headings room cell_blanks chars.now styles.now }
{
    let skin = PageSkin {
        headings,
        room,
        cell_blanks,
        ..skin
    };
    with_styles(with_chars(skin, chars), styles)
}

// Keys but that of the page.
fn without_page(alloc: Global, keys: Vec<String>) -> Result<Vec<String>, AllocError>
    ensures { IfOk result (λ left. map string_bytes left.items ≡ others (map string_bytes keys.items)) }
{
    let mut left = Vec::new(alloc);
    for key in keys {
        if key.as_str() != "page" {
            left.push(key)?;
        }
    }
    Ok(left)
}

// Puts the keys that name no part of a page after those that are there.
fn push_unknown(
    unknown: &mut Vec<String>,
    skin: &PageSkin,
    members: &Map<String, Value>,
) -> Result<(), AllocError>
    ensures { OnOk result (map string_bytes unknown.new.items ≡ map string_bytes unknown.old.items ++ unknown_in skin.now (members_view members.now.entries)) }
{
    for (key, _member) in members.iter() {
        if !is_page_key(skin, key.as_str()) {
            unknown.push(key.clone()?)?;
        }
    }
    Ok(())
}

// Whether a key names a part of a page.
fn is_page_key(skin: &PageSkin, key: &str) -> bool
    ensures { result ≡ is_page_key skin.now key.now }
{
    has_key(&style_parts(skin), key) || has_key(&char_parts(skin), key) || is_first_key(key)
}

// Whether it names one of the members before the parts.
fn is_first_key(key: &str) -> bool
    ensures { result ≡ is_first_key key.now }
{
    key == "cell_blanks"
        || key == "columns"
        || key == "margin"
        || key == "marks"
        || key == "rules"
        || key == "signs"
}
