//! The object that says the parts of a page's skin.

ghost use Rattle.std.specs.Prelude.{◌≡◌, IfOk, OnOk, map};
ghost use Rattle.std.specs.List.{All};
ghost use Rattle.serde_json.specs.Data.{object};
ghost use Rattle.serde_json.specs.View.{members_view, view};
ghost use Rattle.mad_json.specs.Written.{text_data};
ghost use Rattle.mad_parse.specs.Written.{tokens_text};
ghost use Rattle.mad_page_json.specs.Named.{named_said};
ghost use Rattle.mad_page_json.specs.PageReadsBack.{PageReadsBack, PageSkinReadsBack};
ghost use Rattle.mad_page_json.specs.PageWriting.{first_members, IsPageDataOf, page_data, with_cells, with_headings, with_page, with_parts, with_room};

use crate::named::Named;
use crate::parts::{char_parts, style_parts};
use mad_dressing::HeadingMarks;
use mad_json::skin_to_value;
use mad_page_skin::{PageSkin, TextRoom};
use mad_parse::PushStyleTokens;
use serde_json::{Map, Value, put};
use std::alloc::{AllocError, Global};

/// The object that says a skin: the keys of the smaller grammar's skin, and under `page` the object of the page's parts.
///
/// # Errors
///
/// Out of memory.
pub fn page_skin_to_value(alloc: Global, skin: &PageSkin) -> Result<Value, AllocError>
    ensures value { IfOk result (λ value. IsPageDataOf skin.now (view value)) }
    ensures reads_back { IfOk result (λ value. PageSkinReadsBack skin.now (view value)) }
{
    let text = skin_to_value(alloc, &skin.text)?;
    let page = page_to_value(alloc, skin)?;
    let value = with_page(alloc, text, page)?;
    Ok(value)
}

// An object with that of a page beside its other members.
fn with_page(alloc: Global, text: Value, page: Value) -> Result<Value, AllocError>
    ensures { IfOk result (λ value. view value ≡ with_page (view text) (view page)) }
{
    match text {
        Value::Object(members) => {
            let mut members = members;
            put(&mut members, alloc, "page", page)?;
            Ok(object_of(members))
        }
        other => Ok(other),
    }
}

/// The object that says the parts of a page's skin, each under its key. The skin of its text has an object of its own.
///
/// # Errors
///
/// Out of memory.
pub fn page_to_value(alloc: Global, skin: &PageSkin) -> Result<Value, AllocError>
    ensures value { IfOk result (λ value. view value ≡ page_data skin.now) }
    ensures reads_back { IfOk result (λ value. PageReadsBack skin.now (view value)) }
{
    let mut members = first_members(alloc, skin)?;
    put_parts(alloc, &mut members, &char_parts(skin))?;
    put_parts(alloc, &mut members, &style_parts(skin))?;
    Ok(object_of(members))
}

// The members that are neither styles nor signs.
fn first_members(alloc: Global, skin: &PageSkin) -> Result<Map<String, Value>, AllocError>
    ensures { IfOk result (λ members. members_view members.entries ≡ first_members skin.now) }
{
    let mut members = Map::new(alloc);
    put_headings(alloc, &mut members, skin.headings)?;
    put_room(alloc, &mut members, skin.room)?;
    put_cells(alloc, &mut members, skin.cell_blanks)?;
    Ok(members)
}

fn object_of(members: Map<String, Value>) -> Value
    ensures { view result ≡ object (members_view members.entries) }
{
    Value::Object(members)
}

// Which headings have rules and signs, and whether marks stand at words.
fn put_headings(
    alloc: Global,
    members: &mut Map<String, Value>,
    headings: HeadingMarks,
) -> Result<(), AllocError>
    ensures { OnOk result (members_view members.new.entries ≡ with_headings headings (members_view members.old.entries)) }
{
    put(members, alloc, "rules", Value::from(headings.rules))?;
    put(members, alloc, "signs", Value::from(headings.signs))?;
    put(members, alloc, "marks", Value::from(headings.words))
}

// The columns that a pager gives the text.
fn put_room(
    alloc: Global,
    members: &mut Map<String, Value>,
    room: TextRoom,
) -> Result<(), AllocError>
    ensures { OnOk result (members_view members.new.entries ≡ with_room room (members_view members.old.entries)) }
{
    put(members, alloc, "columns", Value::from(room.columns))?;
    put(members, alloc, "margin", Value::from(room.margin))
}

// Whether a blank is at both sides of each cell.
fn put_cells(
    alloc: Global,
    members: &mut Map<String, Value>,
    cell_blanks: bool,
) -> Result<(), AllocError>
    ensures { OnOk result (members_view members.new.entries ≡ with_cells cell_blanks (members_view members.old.entries)) }
{
    put(members, alloc, "cell_blanks", Value::from(cell_blanks))
}

// Parts under their keys.
fn put_parts<P: PushStyleTokens>(
    alloc: Global,
    members: &mut Map<String, Value>,
    parts: &[Named<P>],
) -> Result<(), AllocError>
    ensures value { OnOk result (members_view members.new.entries ≡ with_parts (λ part. text_data (P.tokens_of_value part)) (map named_said parts.now) (members_view members.old.entries)) }
    ensures reads_back { OnOk result (All (λ named. P.reads_back named.part (tokens_text (P.tokens_of_value named.part))) parts.now) }
{
    for named in parts {
        let value = value_of(alloc, &named.part)?;
        put(members, alloc, named.key, value)?;
    }
    Ok(())
}

// The text that a part is written as.
fn value_of<P: PushStyleTokens>(alloc: Global, part: &P) -> Result<Value, AllocError>
    ensures value { IfOk result (λ value. view value ≡ text_data (P.tokens_of_value part.now)) }
    ensures reads_back { IfOk result (λ _. P.reads_back part.now (tokens_text (P.tokens_of_value part.now))) }
{
    Ok(Value::String(part.to_style_tokens_string(alloc)?))
}
