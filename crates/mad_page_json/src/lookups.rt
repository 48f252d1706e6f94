//! What members of an object say.

ghost use Rattle.std.specs.Prelude.{◌≡◌, ◌++◌, ◌∷◌, OnOk, [], Result, Ok, IfOk, IfErr, map, option_map};
ghost use Rattle.serde_json.specs.View.{view};
ghost use Rattle.mad_json.specs.Faults.{TellsSkin, TellsValue, ValueFault};
ghost use Rattle.mad_page_json.specs.Lookups.{IsWrongType, at_fault, choice, choice_found, choice_under, column_count, columns_found, headings_under, part_under, parts_under, room_under, rule_count, rules_found};
ghost use Rattle.mad_page_json.specs.Named.{named_said};

use crate::named::Named;
use mad_dressing::HeadingMarks;
use mad_json::SkinError;
use mad_json::errors::ValueError;
use mad_json::texts::{FromTokens, read_style};
use mad_page_skin::TextRoom;
use serde_json::Value;
use std::alloc::{AllocError, Global};

/// The parts that an object says, in order: each as the member of its key says it, or as it was where there is none.
///
/// # Errors
///
/// The first fault, or out of memory.
pub fn read_parts<S: FromTokens>(
    alloc: Global,
    value: &Value,
    parts: &[Named<S>],
) -> Result<Vec<S>, SkinError>
    ensures ok { IfOk result (λ read. parts_under S.of_tokens (view value.now) (map named_said parts.now) [] ≡ Ok read.items) }
    ensures err { IfErr result (λ e. TellsSkin e (parts_under S.of_tokens (view value.now) (map named_said parts.now) [])) }
{
    let mut read = Vec::new(alloc);
    for named in parts {
        let part = read_part(alloc, value, named)?;
        push_part(&mut read, part)?;
    }
    Ok(read)
}

// Puts a part after those that are there.
fn push_part<S: Copy>(read: &mut Vec<S>, part: S) -> Result<(), AllocError>
    ensures { OnOk result (read.new.items ≡ read.old.items ++ part ∷ []) }
{
    read.push(part)?;
    Ok(())
}

// A part as the member of its key says it, or as it was.
fn read_part<S: FromTokens>(alloc: Global, value: &Value, named: &Named<S>) -> Result<S, SkinError>
    ensures ok { IfOk result (λ part. part_under S.of_tokens (view value.now) (named_said named.now) ≡ Ok part) }
    ensures err { IfErr result (λ e. TellsSkin e (part_under S.of_tokens (view value.now) (named_said named.now))) }
{
    let Some(found) = value.get(named.key) else {
        return Ok(named.part);
    };
    match read_style(alloc, found) {
        Ok(part) => Ok(part),
        Err(error) => Err(error_at::<S>(alloc, named.key, error)),
    }
}

// The error of a member whose value is refused so.
fn error_at<S>(alloc: Global, key: &str, error: ValueError) -> SkinError
    ensures { (read : Result S ValueFault) → TellsValue error read → TellsSkin result (at_fault key.now read) }
{
    let Ok(key) = String::from_str(alloc, key) else {
        return SkinError::Memory;
    };
    match error {
        ValueError::WrongType => SkinError::WrongType { key },
        ValueError::Style(error) => SkinError::Style { key, error },
        ValueError::Memory => SkinError::Memory,
    }
}

/// Which headings have rules and signs, and whether marks stand at words, as an object says it: `rules` is a number below 256, `signs` and `marks`
/// are true or false.
///
/// # Errors
///
/// The first fault, or out of memory.
pub fn read_headings(
    alloc: Global,
    value: &Value,
    old: HeadingMarks,
) -> Result<HeadingMarks, SkinError>
    ensures ok { IfOk result (λ read. headings_under (view value.now) old ≡ Ok read) }
    ensures err { IfErr result (λ e. TellsSkin e (headings_under (view value.now) old)) }
{
    let rules = rules_of(alloc, value.get("rules"), old.rules)?;
    let signs = choice_of(alloc, "signs", value.get("signs"), old.signs)?;
    let words = choice_of(alloc, "marks", value.get("marks"), old.words)?;
    Ok(HeadingMarks {
        rules,
        signs,
        words,
    })
}

// How many levels of headings have rules.
fn rules_of(alloc: Global, found: Option<&Value>, old: u8) -> Result<u8, SkinError>
    ensures ok { IfOk result (λ rules. rules_found (option_map (λ value. view value.now) found.entry) old ≡ Ok rules) }
    ensures err { IfErr result (λ e. TellsSkin e (rules_found (option_map (λ value. view value.now) found.entry) old)) }
{
    match found {
        Some(value) => rule_count(alloc, value.as_u64()),
        None => Ok(old),
    }
}

// A count of levels that a number says.
fn rule_count(alloc: Global, count: Option<u64>) -> Result<u8, SkinError>
    ensures ok { IfOk result (λ rules. rule_count count ≡ Ok rules) }
    ensures err { IfErr result (λ e. TellsSkin e (rule_count count)) }
{
    let Some(count) = count else {
        return Err(wrong_type(alloc, "rules"));
    };
    if count < 256 {
        Ok(count as u8)
    } else {
        Err(wrong_type(alloc, "rules"))
    }
}

// True or false, as the member of this key says it, or as it was.
fn choice_of(alloc: Global, key: &str, found: Option<&Value>, old: bool) -> Result<bool, SkinError>
    ensures ok { IfOk result (λ chosen. choice_found key.now (option_map (λ value. view value.now) found.entry) old ≡ Ok chosen) }
    ensures err { IfErr result (λ e. TellsSkin e (choice_found key.now (option_map (λ value. view value.now) found.entry) old)) }
{
    match found {
        Some(value) => choice(alloc, key, value.as_bool()),
        None => Ok(old),
    }
}

// True or false, if the value of this key says it.
fn choice(alloc: Global, key: &str, said: Option<bool>) -> Result<bool, SkinError>
    ensures ok { IfOk result (λ chosen. choice key.now said ≡ Ok chosen) }
    ensures err { IfErr result (λ e. TellsSkin e (choice key.now said)) }
{
    let Some(chosen) = said else {
        return Err(wrong_type(alloc, key));
    };
    Ok(chosen)
}

/// True or false, as the member of this key says it, or as it was.
///
/// # Errors
///
/// The first fault, or out of memory.
pub fn read_choice(alloc: Global, value: &Value, key: &str, old: bool) -> Result<bool, SkinError>
    ensures ok { IfOk result (λ chosen. choice_under key.now (view value.now) old ≡ Ok chosen) }
    ensures err { IfErr result (λ e. TellsSkin e (choice_under key.now (view value.now) old)) }
{
    let chosen = choice_of(alloc, key, value.get(key), old)?;
    Ok(chosen)
}

/// The columns that a pager gives the text, as an object says it: `margin` and `columns` are numbers below 65,536.
///
/// # Errors
///
/// The first fault, or out of memory.
pub fn read_room(alloc: Global, value: &Value, old: TextRoom) -> Result<TextRoom, SkinError>
    ensures ok { IfOk result (λ read. room_under (view value.now) old ≡ Ok read) }
    ensures err { IfErr result (λ e. TellsSkin e (room_under (view value.now) old)) }
{
    let columns = columns_of(alloc, value.get("columns"), "columns", old.columns)?;
    let margin = columns_of(alloc, value.get("margin"), "margin", old.margin)?;
    Ok(TextRoom { margin, columns })
}

// The columns under a key.
fn columns_of(alloc: Global, found: Option<&Value>, key: &str, old: u16) -> Result<u16, SkinError>
    ensures ok { IfOk result (λ columns. columns_found key.now (option_map (λ value. view value.now) found.entry) old ≡ Ok columns) }
    ensures err { IfErr result (λ e. TellsSkin e (columns_found key.now (option_map (λ value. view value.now) found.entry) old)) }
{
    match found {
        Some(value) => column_count(alloc, value.as_u64(), key),
        None => Ok(old),
    }
}

// A count of columns that a number says.
fn column_count(alloc: Global, count: Option<u64>, key: &str) -> Result<u16, SkinError>
    ensures ok { IfOk result (λ columns. column_count key.now count ≡ Ok columns) }
    ensures err { IfErr result (λ e. TellsSkin e (column_count key.now count)) }
{
    let Some(count) = count else {
        return Err(wrong_type(alloc, key));
    };
    if count < 65536 {
        Ok(count as u16)
    } else {
        Err(wrong_type(alloc, key))
    }
}

/// The error of a member of another kind than its part.
pub(crate) fn wrong_type(alloc: Global, key: &str) -> SkinError
    ensures { IsWrongType key.now result }
{
    match String::from_str(alloc, key) {
        Ok(key) => SkinError::WrongType { key },
        Err(_) => SkinError::Memory,
    }
}
