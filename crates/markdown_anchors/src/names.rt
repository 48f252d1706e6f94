//! Names of headings.

ghost use Rattle.std.specs.Prelude.{◌≡◌, ◌++◌, Some, None, IfOk, OnOk, count_by, map, position, string_bytes};
ghost use Rattle.std.specs.List.{flat_map};
ghost use Rattle.std.specs.Option.{option_to_list};
ghost use Rattle.std.specs.Str.{bytes_eq, encode_utf8_all};
ghost use Rattle.std.specs.Char.Unicode.ToLowercase.{to_lowercase};
ghost use Rattle.markdown_anchors.specs.Anchors.{heading_names, name_bytes, name_char, numbered};

use std::alloc::{AllocError, Global};
use ucd_perl::is_word_character;

// What is left of a character of a name.
fn name_char(c: char) -> Option<char>
    ensures { option_to_list result ≡ name_char c }
{
    if c == ' ' {
        return Some('-');
    }
    if c == '-' {
        return Some(c);
    }
    if c == '\u{200c}' || c == '\u{200d}' {
        return None;
    }
    if is_word_character(c) { Some(c) } else { None }
}

// Appends what is left of a character, if there is one.
fn push_left(name: &mut String, c: Option<char>) -> Result<(), AllocError>
    ensures { OnOk result (string_bytes name.new ≡ string_bytes name.old ++ encode_utf8_all (flat_map name_char (option_to_list c))) }
{
    let Some(c) = c else {
        return Ok(());
    };
    let Some(left) = name_char(c) else {
        return Ok(());
    };
    name.push(left)?;
    Ok(())
}

// Appends what is left of a character in small letters, which may be several.
fn push_char(name: &mut String, c: char) -> Result<(), AllocError>
    ensures { OnOk result (string_bytes name.new ≡ string_bytes name.old ++ encode_utf8_all (flat_map name_char (to_lowercase c))) }
{
    let mut small = c.to_lowercase();
    let first = small.next();
    let second = small.next();
    let third = small.next();
    push_left(name, first)?;
    push_left(name, second)?;
    push_left(name, third)?;
    Ok(())
}

/// Appends the name of a heading that shows this text.
///
/// # Errors
///
/// Out of memory. What the name then ends with is open.
pub fn push_heading_name(name: &mut String, text: &str) -> Result<(), AllocError>
    ensures { OnOk result (string_bytes name.new ≡ string_bytes name.old ++ name_bytes text.now) }
{
    for c in text.chars() {
        push_char(name, c)?;
    }
    Ok(())
}

// How many of these names are that one.
fn times(name: &str, names: &[String]) -> usize
    ensures { result ≡ count_by (λ other. bytes_eq (string_bytes other) name.now) names.now }
{
    names.iter().filter(|other| other.as_str() == name).count()
}

// A name where so many headings before have it.
fn numbered(alloc: Global, name: &str, count: usize) -> Result<String, AllocError>
    ensures { IfOk result (λ text. string_bytes text ≡ numbered name.now count) }
{
    let mut text = String::new(alloc);
    text.push_str(name)?;
    if count == 0 {
        return Ok(text);
    }
    write!(text, "-{count}")?;
    Ok(text)
}

/// The names of the headings that show these texts, in order. The time grows with the square of their number.
///
/// # Errors
///
/// Out of memory.
pub fn heading_names(alloc: Global, texts: &[&str]) -> Result<Vec<String>, AllocError>
    ensures { IfOk result (λ names. map string_bytes names.items ≡ heading_names (map (λ text. text.now) texts.now)) }
{
    let mut before = Vec::new(alloc);
    let mut names = Vec::new(alloc);
    for text in texts {
        let mut name = String::new(alloc);
        push_heading_name(&mut name, text)?;
        let count = times(&name, &before);
        names.push(numbered(alloc, &name, count)?)?;
        before.push(name)?;
    }
    Ok(names)
}

/// The number of the heading to which `#target` goes: the first of this name, counted from 0.
pub fn find_heading(names: &[String], target: &str) -> Option<usize>
    ensures { result ≡ position (λ name. bytes_eq (string_bytes name) target.now) names.now }
{
    names.iter().position(|name| name.as_str() == target)
}
