//! The skin that an object says.

ghost use Rattle.std.specs.Prelude.{◌≡◌, ◌++◌, ◌∷◌, [], Ok, IfOk, IfErr, OnOk, map, string_bytes};
ghost use Rattle.serde_json.specs.View.{view};
ghost use Rattle.mad_json.specs.Faults.{TellsValue, TellsSkin};
ghost use Rattle.mad_json.specs.Reading.{nothing_found, part_said, member_read, names_again, borders_said, skin_read};
ghost use Rattle.serde_json.specs.Find.{as_str};

use crate::errors::{SkinError, ValueError, at_key};
use crate::fields::{FIELD_COUNT, Field, field_of};
use crate::floats::holds_float;
use crate::lists::{set_headers, set_ordered_items};
use crate::modes::mode_of;
use crate::scroll_bars::scrollbar_of;
use crate::texts::{read_style, text_of};
use mad_layout::MadSkin;
use mad_style::TableBorderChars;
use serde_json::Value;
use std::alloc::{AllocError, Global};

// What was read so far: the skin, which of its parts a key named, and the keys that name none.
#[derive(Drop)]
struct Reader {
    skin: MadSkin,
    seen: [bool; FIELD_COUNT],
    unknown: Vec<String>,
}

/// The skin that a value says, with the keys that name no part of a skin, in byte order.
///
/// Reading begins with the default skin, and takes the keys of the object in byte order. A border set whose name is
/// not known leaves the borders as they are.
///
/// # Errors
///
/// The first fault, which is one of these:
///
/// - the value is no object;
/// - a key is a second name of one part, which is refused before its value is read;
/// - a value holds a float at any depth, or is of another kind than its part;
/// - a text has a word that is no style token, or says no indentation mode.
///
/// Or out of memory, which may come before any of these.
pub fn skin_from_value(alloc: Global, value: &Value) -> Result<(MadSkin, Vec<String>), SkinError>
    ensures ok { IfOk result (λ read. skin_read (view value.now) ≡ Ok (read.0, map string_bytes read.1.items)) }
    ensures err { IfErr result (λ e. TellsSkin e (skin_read (view value.now))) }
{
    let members = value.as_object().ok_or(SkinError::NotObject)?;
    let mut reader = Reader::new(alloc);
    for (key, member) in members.iter() {
        reader.take_member(alloc, key, member)?;
    }
    Ok((reader.skin, reader.unknown))
}

impl Reader {
    ghost use Rattle.mad_json.specs.Readers.{found_of};

    fn new(alloc: Global) -> Self
        ensures { found_of result ≡ nothing_found }
    {
        Self {
            skin: MadSkin::default(),
            seen: [false; FIELD_COUNT],
            unknown: Vec::new(alloc),
        }
    }

    // Reads one member.
    fn take_member(&mut self, alloc: Global, key: &String, value: &Value) -> Result<(), SkinError>
        ensures ok { OnOk result (member_read (string_bytes key.now) (view value.now) (found_of self.old) ≡ Ok (found_of self.new)) }
        ensures err { IfErr result (λ e. TellsSkin e (member_read (string_bytes key.now) (view value.now) (found_of self.old))) }
    {
        let field = field_of(key.as_str());
        if self.has_seen(field) {
            return Err(SkinError::TwoNames { key: key.clone()? });
        }
        if holds_float(value) {
            return Err(SkinError::WrongType { key: key.clone()? });
        }
        let Some(field) = field else {
            self.keep_unknown(key)?;
            return Ok(());
        };
        self.seen[field.index()] = true;
        if let Err(error) = set_part(alloc, &mut self.skin, field, value) {
            return Err(at_key(key, error));
        }
        Ok(())
    }

    // Keeps a key that names no part.
    fn keep_unknown(&mut self, key: &String) -> Result<(), AllocError>
        ensures { OnOk result (found_of self.new ≡ record (found_of self.old) { unknown = (found_of self.old).unknown ++ string_bytes key.now ∷ [] }) }
    {
        self.unknown.push(key.clone()?)?;
        Ok(())
    }

    fn has_seen(&self, field: Option<Field>) -> bool
        ensures { result ≡ names_again field self.now.seen }
    {
        match field {
            Some(field) => self.seen[field.index()],
            None => false,
        }
    }
}

// Sets one part of a skin as a value says.
fn set_part(
    alloc: Global,
    skin: &mut MadSkin,
    field: Field,
    value: &Value,
) -> Result<(), ValueError>
    ensures ok { OnOk result (part_said field (view value.now) skin.old ≡ Ok skin.new) }
    ensures err { IfErr result (λ e. TellsValue e (part_said field (view value.now) skin.old)) }
{
    match field {
        Field::Bold => skin.bold = read_style(alloc, value)?,
        Field::Italic => skin.italic = read_style(alloc, value)?,
        Field::Strikeout => skin.strikeout = read_style(alloc, value)?,
        Field::InlineCode => skin.inline_code = read_style(alloc, value)?,
        Field::Ellipsis => skin.ellipsis = read_style(alloc, value)?,
        Field::Bullet => skin.bullet = read_style(alloc, value)?,
        Field::QuoteMark => skin.quote_mark = read_style(alloc, value)?,
        Field::HorizontalRule => skin.horizontal_rule = read_style(alloc, value)?,
        Field::ScrollBar => skin.scrollbar = scrollbar_of(alloc, value)?,
        Field::Paragraph => skin.paragraph = read_style(alloc, value)?,
        Field::CodeBlock => skin.code_block = read_style(alloc, value)?,
        Field::Table => skin.table = read_style(alloc, value)?,
        Field::Headers => set_headers(alloc, &mut skin.headers, value)?,
        Field::OrderedItems => set_ordered_items(alloc, &mut skin.ordered_item_styles, value)?,
        Field::TableBorders => skin.table_border_chars = borders_of(
            skin.table_border_chars,
            value,
        )?,
        Field::IndentationMode => skin.list_items_indentation_mode = mode_of(alloc, value)?,
    }
    Ok(())
}

// The borders that a value names; those of no known name are the old ones.
fn borders_of(old: TableBorderChars, value: &Value) -> Result<TableBorderChars, ValueError>
    ensures ok { IfOk result (λ borders. borders_said old (as_str (view value.now)) ≡ Ok borders) }
    ensures err { IfErr result (λ e. TellsValue e (borders_said old (as_str (view value.now)))) }
{
    Ok(TableBorderChars::by_key(text_of(value)?).unwrap_or(old))
}
