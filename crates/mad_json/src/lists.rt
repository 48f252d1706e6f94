//! Headers and the items of lists, which have a style for each level.

ghost use Rattle.std.specs.Prelude.{◌≡◌, Ok, IfOk, IfErr, OnOk, [], map};
ghost use Rattle.serde_json.specs.Find.{as_array};
ghost use Rattle.serde_json.specs.View.{view, items_view};
ghost use Rattle.mad_json.specs.Faults.{TellsValue};
ghost use Rattle.mad_json.specs.Lists.{items_said, levels_said, replaced, compound_with, header_with, headers_said, ordered_items_said};

use crate::errors::ValueError;
use crate::texts::{FromTokens, read_style};
use mad_md::Alignment;
use mad_style::{ATTRIBUTES, CompoundStyle, LineStyle, OrderedItemStyle};
use serde_json::Value;
use std::alloc::Global;

/// Sets the headers as a value says. A text sets in each the colors, the attributes that are written (not slow-blink and
/// rapid-blink) and the align that it has. A list replaces them by level. After a refusal they are as they were.
pub fn set_headers(
    alloc: Global,
    headers: &mut [LineStyle],
    value: &Value,
) -> Result<(), ValueError>
    ensures ok { OnOk result (headers_said (view value.now) headers.old ≡ Ok headers.new) }
    ensures err { IfErr result (λ e. TellsValue e (headers_said (view value.now) headers.old)) }
{
    if let Some(text) = value.as_str() {
        let line = LineStyle::parse(alloc, text)?;
        set_each(headers, &line);
        return Ok(());
    }
    set_levels(alloc, headers, value)
}

/// Replaces the styles of the items of lists, by level. After a refusal they are as they were.
pub fn set_ordered_items(
    alloc: Global,
    item_styles: &mut [OrderedItemStyle],
    value: &Value,
) -> Result<(), ValueError>
    ensures ok { OnOk result (ordered_items_said (view value.now) item_styles.old ≡ Ok item_styles.new) }
    ensures err { IfErr result (λ e. TellsValue e (ordered_items_said (view value.now) item_styles.old)) }
{
    set_levels(alloc, item_styles, value)
}

// Replaces styles by level, as the values of a list say.
fn set_levels<S: FromTokens>(
    alloc: Global,
    styles: &mut [S],
    value: &Value,
) -> Result<(), ValueError>
    ensures ok { OnOk result (levels_said S.of_tokens (as_array (view value.now)) styles.old ≡ Ok styles.new) }
    ensures err { IfErr result (λ e. TellsValue e (levels_said S.of_tokens (as_array (view value.now)) styles.old)) }
{
    let items = value.as_array().ok_or(ValueError::WrongType)?;
    let read = read_styles(alloc, items)?;
    replace_front(styles, read.as_slice());
    Ok(())
}

// The styles that the values of a list say.
fn read_styles<S: FromTokens>(alloc: Global, items: &Vec<Value>) -> Result<Vec<S>, ValueError>
    ensures ok { IfOk result (λ styles. items_said S.of_tokens (items_view items.now.items) [] ≡ Ok styles.items) }
    ensures err { IfErr result (λ e. TellsValue e (items_said S.of_tokens (items_view items.now.items) [])) }
{
    let mut styles = Vec::new(alloc);
    for item in items {
        let style: S = read_style(alloc, item)?;
        styles.push(style)?;
    }
    Ok(styles)
}

// Replaces the front of a list; what doesn't fit is left out.
fn replace_front<T: Copy>(old: &mut [T], new: &[T])
    ensures { old.new ≡ replaced old.old new.now }
{
    let count = old.len().min(new.len());
    old[..count].copy_from_slice(&new[..count]);
}

fn set_each(headers: &mut [LineStyle], line: &LineStyle)
    ensures { headers.new ≡ map (header_with line.now) headers.old }
{
    for header in headers.iter_mut() {
        *header = header_with(line, *header);
    }
}

// A header with the colors, the attributes that are written (not slow-blink and rapid-blink) and the align that a line has;
// its margins stay.
fn header_with(line: &LineStyle, header: LineStyle) -> LineStyle
    ensures { result ≡ header_with line.now header }
{
    let align = match line.align {
        Alignment::Unspecified => header.align,
        align => align,
    };
    LineStyle {
        compound_style: compound_with(&line.compound_style, header.compound_style),
        align,
        ..header
    }
}

fn compound_with(line: &CompoundStyle, style: CompoundStyle) -> CompoundStyle
    ensures { result ≡ compound_with line.now style }
{
    let mut style = style;
    if let Some(color) = line.get_fg() {
        style.set_fg(color);
    }
    if let Some(color) = line.get_bg() {
        style.set_bg(color);
    }
    for attribute in &ATTRIBUTES {
        if line.has_attr(*attribute) {
            style.add_attr(*attribute);
        }
    }
    style
}
