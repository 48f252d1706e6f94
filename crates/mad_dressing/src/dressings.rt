//! What is put into a page with a section.

ghost use Rattle.std.specs.Prelude.{◌≡◌, ◌++◌, ◌∷◌, [], map, IfOk};
ghost use Rattle.mad_md.specs.Lines.{content_of};
ghost use Rattle.mad_sections.specs.Sections.{section_content};
ghost use Rattle.mad_dressing.specs.Dressed.{beside_at, beside_of, header_level, heading_level, line_level, put_of, put_with};

use crate::heading_marks::HeadingMarks;
use crate::page_marks::PageMarks;
use crate::picture_signs::sign_for;
use mad_md::{CompositeStyle, Line};
use mad_sections::{Gutter, Section};
use std::alloc::{AllocError, Global};

/// What is put into a page with a section. It has the gutters of what is put there, and the sign of
/// pictures, so it has to last as long as they are drawn.
#[derive(Debug, Drop)]
pub struct Dressing {
    /// What stands beside it, if it is a heading.
    pub beside: HeadingDressing,
    /// Whether marks stand at its words.
    pub words: bool,
    /// The sign in front of what is said of each of its pictures, with a space behind it, if it has any.
    pub sign: Option<String>,
}

/// What stands beside a heading.
#[derive(Debug, Drop)]
pub enum HeadingDressing {
    /// Nothing.
    Nothing,
    /// A rule below it, behind these gutters.
    Rule(Vec<Gutter>),
    /// The signs in front of it: the last of these gutters.
    Signs(Vec<Gutter>),
}

/// What is put into a page with a section.
///
/// # Errors
///
/// Out of memory is the only error.
pub fn dressing_of(
    alloc: Global,
    section: &Section,
    marks: PageMarks,
) -> Result<Dressing, AllocError>
    ensures { IfOk result (λ dressing. put_of dressing ≡ put_with marks (section_content section.now)) }
{
    let beside = beside_of(alloc, section, marks.headings)?;
    let sign = sign_for(alloc, &section.text.lines, marks.sign)?;
    Ok(Dressing {
        beside,
        words: marks.headings.words,
        sign,
    })
}

// What stands beside a section, if it is a heading.
fn beside_of(
    alloc: Global,
    section: &Section,
    marks: HeadingMarks,
) -> Result<HeadingDressing, AllocError>
    ensures { IfOk result (λ dressing. beside_of dressing ≡ beside_at marks section.now.gutters.now (heading_level (map content_of section.now.text.lines.items))) }
{
    let Some(level) = heading_level(&section.text.lines) else {
        return Ok(HeadingDressing::Nothing);
    };
    if level < marks.rules {
        let gutters = with_gutter(alloc, section.gutters, Gutter::Below(level))?;
        Ok(HeadingDressing::Rule(gutters))
    } else if marks.signs {
        let gutters = with_gutter(alloc, section.gutters, Gutter::Signs(level))?;
        Ok(HeadingDressing::Signs(gutters))
    } else {
        Ok(HeadingDressing::Nothing)
    }
}

// The level of a heading, counted from 0, if lines begin with one.
fn heading_level(lines: &[Line]) -> Option<u8>
    ensures { result ≡ heading_level (map content_of lines.now) }
{
    match lines {
        [first, ..] => line_level(first),
        [] => None,
    }
}

// The level of a heading's line.
fn line_level(line: &Line) -> Option<u8>
    ensures { result ≡ line_level (content_of line.now) }
{
    match line {
        Line::Normal(composite) => header_level(composite.style),
        _ => None,
    }
}

// The level of a line of this style, if it is a heading.
fn header_level(style: CompositeStyle) -> Option<u8>
    ensures { result ≡ header_level style }
{
    match style {
        CompositeStyle::Header(level) => level.checked_sub(1),
        _ => None,
    }
}

// Gutters and one more. Only out of memory is an error.
fn with_gutter(alloc: Global, gutters: &[Gutter], last: Gutter) -> Result<Vec<Gutter>, AllocError>
    ensures { IfOk result (λ more. more.items ≡ gutters.now ++ last ∷ []) }
{
    let mut more = Vec::from_slice(alloc, gutters)?;
    more.push(last)?;
    Ok(more)
}
