//! The skin that a word of the command line is: of a text, or of a page.

ghost use Rattle.std.specs.Prelude.{◌≡◌, Some, MatchResult, map, option_map, string_bytes};
ghost use Rattle.termimad_words.specs.GivenSkins.{skin_named, json_page_skin, json_skin, page_skin_given, page_skin_named, skin_given, RefusesPageSkin, RefusesPageText, RefusesSkin, RefusesText};

use crate::failure::Failure;
use mad_json::skin_from_value;
use mad_layout::MadSkin;
use mad_page_json::page_skin_from_value;
use mad_page_skin::PageSkin;
use serde_json::Value;
use std::alloc::Global;

/// The skin of a word, and those of its keys that name no part of a skin, in byte order.
///
/// Without a word it has no style; `default`, `dark` and `light` are the made skins; any other word is JSON text.
///
/// # Errors
///
/// `Skin`, where that text is no JSON or no skin; or out of memory for what it says.
pub fn skin_of(alloc: Global, word: Option<&str>) -> Result<(MadSkin, Vec<String>), Failure>
    ensures { MatchResult result
        (λ read. skin_given (option_map (λ word. word.now) word.entry) ≡ Some (read.0, map string_bytes read.1.items))
        (λ failure. RefusesSkin (option_map (λ word. word.now) word.entry) failure) }
{
    let Some(word) = word else {
        return Ok((MadSkin::no_style(), Vec::new(alloc)));
    };
    if let Some(skin) = made_skin(word) {
        return Ok((skin, Vec::new(alloc)));
    }
    parse_skin(alloc, word)
}

// The made skin of that name.
#[tactic(auto, unfolding(crate::specs::GivenSkins::skin_named))]
fn made_skin(name: &str) -> Option<MadSkin>
    ensures { result ≡ skin_named name.now }
{
    match name {
        "default" => Some(MadSkin::default()),
        "dark" => Some(MadSkin::default_dark()),
        "light" => Some(MadSkin::default_light()),
        _ => None,
    }
}

// The skin that JSON text says.
fn parse_skin(alloc: Global, text: &str) -> Result<(MadSkin, Vec<String>), Failure>
    ensures { MatchResult result (λ read. json_skin text.now ≡ Some (read.0, map string_bytes read.1.items)) (RefusesText text.now) }
{
    let value = Value::from_str(alloc, text)?;
    Ok(skin_from_value(alloc, &value)?)
}

/// The skin of a page for a word, and those of its keys that name no part of a skin.
///
/// Without a word it has no style; `dark`, `light` and `sixteen` are the made skins, `none` is the one without styles, and `default` is `dark`; any other
/// word is JSON text.
///
/// # Errors
///
/// `Skin`, where that text is no JSON or no skin; or out of memory for what it says.
pub fn page_skin_of_word(
    alloc: Global,
    word: Option<&str>,
) -> Result<(PageSkin, Vec<String>), Failure>
    ensures { MatchResult result
        (λ read. page_skin_given (option_map (λ word. word.now) word.entry) ≡ Some (read.0, map string_bytes read.1.items))
        (λ failure. RefusesPageSkin (option_map (λ word. word.now) word.entry) failure) }
{
    let Some(word) = word else {
        return Ok((PageSkin::plain(), Vec::new(alloc)));
    };
    if let Some(skin) = made_page_skin(word) {
        return Ok((skin, Vec::new(alloc)));
    }
    parse_page_skin(alloc, word)
}

// The made skin of a page of that name.
#[tactic(auto, unfolding(crate::specs::GivenSkins::page_skin_named))]
fn made_page_skin(name: &str) -> Option<PageSkin>
    ensures { result ≡ page_skin_named name.now }
{
    match name {
        "default" | "dark" => Some(PageSkin::dark()),
        "light" => Some(PageSkin::light()),
        "sixteen" => Some(PageSkin::sixteen()),
        "none" => Some(PageSkin::plain()),
        _ => None,
    }
}

// The skin of a page that JSON text says.
fn parse_page_skin(alloc: Global, text: &str) -> Result<(PageSkin, Vec<String>), Failure>
    ensures { MatchResult result (λ read. json_page_skin text.now ≡ Some (read.0, map string_bytes read.1.items)) (RefusesPageText text.now) }
{
    let value = Value::from_str(alloc, text)?;
    Ok(page_skin_from_value(alloc, &value)?)
}
