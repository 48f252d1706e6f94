//! The value that a skin is written as.

ghost use Rattle.std.specs.Prelude.{◌≡◌, ℕ, List, Option, Ok, IfOk, OnOk, map, string_bytes};
ghost use Rattle.std.specs.List.{All};
ghost use Rattle.serde_json.specs.Data.{put, string, array, object};
ghost use Rattle.serde_json.specs.View.{view, items_of, members_view};
ghost use Rattle.mad_parse.specs.Written.{tokens_text};
ghost use Rattle.mad_json.specs.Modes.{mode_said};
ghost use Rattle.mad_json.specs.ReadsBack.{ReadsBackBar, ReadBackAdditions, ReadBackChars, ReadBackLines, ReadBackItems, SkinReadsBack};
ghost use Rattle.mad_json.specs.ScrollBars.{def_of};
ghost use Rattle.mad_json.specs.Written.{text_data, bar_data, mode_text, IsNameOf, with_additions, with_chars, with_lines, with_items, with_borders, IsDataOf};

use crate::scroll_bars::ScrollBarStyleDef;
use mad_layout::MadSkin;
use mad_parse::PushStyleTokens;
use mad_style::{ListItemsIndentationMode, ScrollBarStyle, TableBorderChars};
use serde_json::{Map, Value, put};
use std::alloc::{AllocError, Global};

/// The object that says a skin, each part under its first name. Borders that have no name are left out.
///
/// A skin of parts that read back, with borders that have a name, reads back equal.
///
/// # Errors
///
/// Out of memory.
pub fn skin_to_value(alloc: Global, skin: &MadSkin) -> Result<Value, AllocError>
    ensures value { IfOk result (λ value. IsDataOf skin.now (view value)) }
    ensures reads_back { IfOk result (λ value. SkinReadsBack skin.now (view value)) }
{
    let mut members = Map::new(alloc);
    put_additions(alloc, &mut members, skin)?;
    put_chars(alloc, &mut members, skin)?;
    put_lines(alloc, &mut members, skin)?;
    put_items(alloc, &mut members, skin)?;
    put_borders(alloc, &mut members, &skin.table_border_chars)?;
    Ok(object_of(members))
}

// What text adds to its line.
fn put_additions(
    alloc: Global,
    members: &mut Map<String, Value>,
    skin: &MadSkin,
) -> Result<(), AllocError>
    ensures value { OnOk result (members_view members.new.entries ≡ with_additions skin.now (members_view members.old.entries)) }
    ensures reads_back { OnOk result (ReadBackAdditions skin.now) }
{
    put_part(alloc, members, "bold", &skin.bold)?;
    put_part(alloc, members, "italic", &skin.italic)?;
    put_part(alloc, members, "strikeout", &skin.strikeout)?;
    put_part(alloc, members, "inline_code", &skin.inline_code)?;
    put_part(alloc, members, "ellipsis", &skin.ellipsis)?;
    Ok(())
}

fn put_chars(
    alloc: Global,
    members: &mut Map<String, Value>,
    skin: &MadSkin,
) -> Result<(), AllocError>
    ensures value { OnOk result (members_view members.new.entries ≡ with_chars skin.now (members_view members.old.entries)) }
    ensures reads_back { OnOk result (ReadBackChars skin.now) }
{
    put_part(alloc, members, "bullet", &skin.bullet)?;
    put_part(alloc, members, "quote", &skin.quote_mark)?;
    put_part(alloc, members, "horizontal_rule", &skin.horizontal_rule)?;
    put(
        members,
        alloc,
        "scrollbar",
        bar_value(alloc, &skin.scrollbar)?,
    )?;
    Ok(())
}

fn put_lines(
    alloc: Global,
    members: &mut Map<String, Value>,
    skin: &MadSkin,
) -> Result<(), AllocError>
    ensures value { OnOk result (members_view members.new.entries ≡ with_lines skin.now (members_view members.old.entries)) }
    ensures reads_back { OnOk result (ReadBackLines skin.now) }
{
    put_part(alloc, members, "paragraph", &skin.paragraph)?;
    put_part(alloc, members, "code_block", &skin.code_block)?;
    put_part(alloc, members, "table", &skin.table)?;
    put(members, alloc, "headers", values_of(alloc, &skin.headers)?)?;
    Ok(())
}

fn put_items(
    alloc: Global,
    members: &mut Map<String, Value>,
    skin: &MadSkin,
) -> Result<(), AllocError>
    ensures value { OnOk result (members_view members.new.entries ≡ with_items skin.now (members_view members.old.entries)) }
    ensures reads_back { OnOk result (ReadBackItems skin.now) }
{
    put(
        members,
        alloc,
        "ordered_items",
        values_of(alloc, &skin.ordered_item_styles)?,
    )?;
    let mode = mode_to_string(alloc, skin.list_items_indentation_mode)?;
    put_text(alloc, members, "list_items_indentation_mode", mode)?;
    Ok(())
}

fn put_borders(
    alloc: Global,
    members: &mut Map<String, Value>,
    borders: &TableBorderChars,
) -> Result<(), AllocError>
    ensures { OnOk result ((name : Option (List ℕ)) × IsNameOf borders.now name × (members_view members.new.entries ≡ with_borders name (members_view members.old.entries))) }
{
    if let Some(name) = borders.key() {
        let name = String::from_str(alloc, name)?;
        put_text(alloc, members, "table_border_chars", name)?;
    }
    Ok(())
}

// The text that a part of a skin is written as.
fn value_of<P: PushStyleTokens>(alloc: Global, part: &P) -> Result<Value, AllocError>
    ensures value { IfOk result (λ value. view value ≡ text_data (P.tokens_of_value part.now)) }
    ensures reads_back { IfOk result (λ _. P.reads_back part.now (tokens_text (P.tokens_of_value part.now))) }
{
    Ok(Value::String(part.to_style_tokens_string(alloc)?))
}

fn put_part<P: PushStyleTokens>(
    alloc: Global,
    members: &mut Map<String, Value>,
    key: &str,
    part: &P,
) -> Result<(), AllocError>
    ensures value { OnOk result (members_view members.new.entries ≡ put key.now (text_data (P.tokens_of_value part.now)) (members_view members.old.entries)) }
    ensures reads_back { OnOk result (P.reads_back part.now (tokens_text (P.tokens_of_value part.now))) }
{
    put(members, alloc, key, value_of(alloc, part)?)
}

fn put_text(
    alloc: Global,
    members: &mut Map<String, Value>,
    key: &str,
    text: String,
) -> Result<(), AllocError>
    ensures { OnOk result (members_view members.new.entries ≡ put key.now (string (string_bytes text)) (members_view members.old.entries)) }
{
    put(members, alloc, key, Value::String(text))
}

fn object_of(members: Map<String, Value>) -> Value
    ensures { view result ≡ object (members_view members.entries) }
{
    Value::Object(members)
}

fn array_of(values: Vec<Value>) -> Value
    ensures { view result ≡ array (items_of (map view values.items)) }
{
    Value::Array(values)
}

// The list of what parts are written as.
fn values_of<P: PushStyleTokens>(alloc: Global, parts: &[P]) -> Result<Value, AllocError>
    ensures value { IfOk result (λ value. view value ≡ array (items_of (map (λ part. text_data (P.tokens_of_value part)) parts.now))) }
    ensures reads_back { IfOk result (λ _. All (λ part. P.reads_back part (tokens_text (P.tokens_of_value part))) parts.now) }
{
    let mut values = Vec::new(alloc);
    for part in parts {
        let value = value_of(alloc, part)?;
        values.push(value)?;
    }
    Ok(array_of(values))
}

fn bar_value(alloc: Global, bar: &ScrollBarStyle) -> Result<Value, AllocError>
    ensures value { IfOk result (λ value. view value ≡ bar_data (def_of bar.now)) }
    ensures reads_back { IfOk result (λ _. ReadsBackBar bar.now) }
{
    match ScrollBarStyleDef::from(bar) {
        ScrollBarStyleDef::Simple(styled_char) => value_of(alloc, &styled_char),
        ScrollBarStyleDef::Rich { track, thumb } => {
            let mut members = Map::new(alloc);
            put_part(alloc, &mut members, "thumb", &thumb)?;
            put_part(alloc, &mut members, "track", &track)?;
            Ok(object_of(members))
        }
    }
}

fn mode_to_string(alloc: Global, mode: ListItemsIndentationMode) -> Result<String, AllocError>
    ensures value { IfOk result (λ text. string_bytes text ≡ mode_text mode) }
    ensures reads_back { mode_said (string (mode_text mode)) ≡ Ok mode }
{
    match mode {
        ListItemsIndentationMode::FirstLineOnly => String::from_str(alloc, "first_line_only"),
        ListItemsIndentationMode::Block => String::from_str(alloc, "block"),
        ListItemsIndentationMode::Hanging(extra) => format!(in alloc; "hanging({extra})"),
    }
}
