//! Where a link goes that begins with `#`.

ghost use Rattle.std.specs.Prelude.{◌≡◌, IfOk, map, position, string_bytes};
ghost use Rattle.std.specs.Str.{bytes_eq};
ghost use Rattle.std.specs.StrCase.Lower.{str_to_lowercase};
ghost use Rattle.markdown_headings.specs.HeadingsSaid.{name_said, section_of};
ghost use Rattle.markdown_reader.specs.Anchors.{anchor_said};
ghost use Rattle.markdown_headings.specs.Targets.{anchor_among, first_named, section_among, section_at, target_among};

use crate::naming::Heading;
use markdown_reader::Anchor;
use std::alloc::{AllocError, Global};

/// The index of the heading to which `#target` goes: the first that has this name, else the first that has it in small letters.
///
/// # Errors
///
/// Out of memory is the only error.
pub fn find_target(
    alloc: Global,
    headings: &[Heading],
    target: &str,
) -> Result<Option<usize>, AllocError>
    ensures { IfOk result (λ found. found ≡ target_among (map name_said headings.now) target.now) }
{
    match find_name(headings, target) {
        Some(found) => Ok(Some(found)),
        None => find_small(alloc, headings, target),
    }
}

// The index of the first heading that has this name in small letters.
fn find_small(
    alloc: Global,
    headings: &[Heading],
    target: &str,
) -> Result<Option<usize>, AllocError>
    ensures { IfOk result (λ found. found ≡ first_named (map name_said headings.now) (str_to_lowercase target.now)) }
{
    let small = target.to_lowercase(alloc)?;
    Ok(find_name(headings, small.as_str()))
}

// The index of the first heading of this name.
fn find_name(headings: &[Heading], name: &str) -> Option<usize>
    ensures { result ≡ first_named (map name_said headings.now) name.now }
{
    find_heading(headings, name)
}

// The same, by the headings themselves.
fn find_heading(headings: &[Heading], name: &str) -> Option<usize>
    ensures { result ≡ position (λ heading. bytes_eq (string_bytes heading.name) name.now) headings.now }
{
    headings
        .iter()
        .position(|heading| heading.name.as_str() == name)
}

/// The index of the section to which `#target` goes: that of the first name of a tag that is this one, or else of the heading that [`find_target`] finds.
///
/// # Errors
///
/// Out of memory is the only error.
pub fn find_section(
    alloc: Global,
    anchors: &[Anchor],
    headings: &[Heading],
    target: &str,
) -> Result<Option<usize>, AllocError>
    ensures { IfOk result (λ found. found ≡ section_among (map anchor_said anchors.now) (map name_said headings.now) (map section_of headings.now) target.now) }
{
    match find_anchor(anchors, target) {
        Some(section) => Ok(Some(section)),
        None => find_heading_section(alloc, headings, target),
    }
}

// The section of the first name of a tag that is this one.
#[tactic(auto, unfolding(crate::specs::Targets::anchor_among))]
fn find_anchor(anchors: &[Anchor], target: &str) -> Option<usize>
    ensures { result ≡ anchor_among (map anchor_said anchors.now) target.now }
{
    let mut rest = anchors;
    while let [anchor, next @ ..] = rest {
        if anchor.name.as_str() == target {
            return Some(anchor.section);
        }
        rest = next;
    }
    None
}

// The section of the heading to which `#target` goes.
fn find_heading_section(
    alloc: Global,
    headings: &[Heading],
    target: &str,
) -> Result<Option<usize>, AllocError>
    ensures { IfOk result (λ found. found ≡ section_at (map section_of headings.now) (target_among (map name_said headings.now) target.now)) }
{
    match find_target(alloc, headings, target)? {
        Some(index) if index < headings.len() => Ok(Some(headings[index].section)),
        _ => Ok(None),
    }
}
