//! The names of titles. How many before have the same one is kept in a map, so that the time grows little faster than the text.

ghost use Rattle.std.specs.Prelude.{◌≡◌, ◌∷◌, ◌++◌, [], IfOk, OnOk, map, string_bytes};
ghost use Rattle.markdown_anchors.specs.Anchors.{name_bytes, numbered};
ghost use Rattle.markdown_headings.specs.Counts.{IsCountedOnce, counted};
ghost use Rattle.markdown_headings.specs.HeadingsSaid.{title_said};
ghost use Rattle.markdown_headings.specs.Named.{names_of};

use crate::titles::Title;
use markdown_anchors::push_heading_name;
use std::alloc::{AllocError, Global};
use std::collections::BTreeMap;

/// The names of titles, in order.
///
/// # Errors
///
/// Out of memory is the only error.
pub fn names_of(alloc: Global, titles: &[Title]) -> Result<Vec<String>, AllocError>
    ensures { IfOk result (λ names. map string_bytes names.items ≡ names_of (map title_said titles.now)) }
{
    let mut counts = BTreeMap::new(alloc);
    let mut names = Vec::new(alloc);
    for title in titles {
        push_name(alloc, &mut names, &mut counts, title.words.as_str())?;
    }
    Ok(names)
}

// Appends the name of a heading that shows this text, where so many before have each name, and counts it too.
fn push_name(
    alloc: Global,
    names: &mut Vec<String>,
    counts: &mut BTreeMap<String, usize>,
    text: &str,
) -> Result<(), AllocError>
    ensures names { OnOk result (map string_bytes names.new.items ≡ map string_bytes names.old.items ++ numbered (name_bytes text.now) (counted counts.old (name_bytes text.now)) ∷ []) }
    ensures counts { OnOk result (IsCountedOnce counts.old counts.new (name_bytes text.now)) }
{
    let mut name = String::new(alloc);
    push_heading_name(&mut name, text)?;
    let count = count_of(counts, name.as_str());
    names.push(numbered(alloc, name.as_str(), count)?)?;
    counts.insert(name, count.saturating_add(1))?;
    Ok(())
}

// How many before have this name.
fn count_of(counts: &BTreeMap<String, usize>, name: &str) -> usize
    ensures { result ≡ counted counts.now name.now }
{
    counts.get(name).copied().unwrap_or(0)
}

// A name where so many headings before have it.
fn numbered(alloc: Global, name: &str, count: usize) -> Result<String, AllocError>
    ensures { IfOk result (λ text. string_bytes text ≡ numbered name.now count) }
{
    let mut text = String::new(alloc);
    text.push_str(name)?;
    if count == 0 {
        return Ok(text);
    }
    write!(text, "-{count}")?;
    Ok(text)
}
