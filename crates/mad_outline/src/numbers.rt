//! The numbers of the sections that are headers.

ghost use Rattle.std.specs.Prelude.{◌≡◌, ◌++◌, ◌+◌, ◌∷◌, [], if◌then◌else◌, IfOk, OnOk, map};
ghost use Rattle.mad_md.specs.Lines.{content_of, contents};
ghost use Rattle.mad_outline.specs.Sources.{count_below, header_numbers, header_of, is_headed, section_header};
ghost use Rattle.mad_search.specs.PagedTexts.{paged_sections};
ghost use Rattle.mad_sections.specs.Sections.{section_content};

use mad_md::{CompositeStyle, Line};
use mad_search::PagedText;
use mad_sections::Section;
use std::alloc::{AllocError, Global};

/// The numbers of the sections of a text that are headers.
///
/// # Errors
///
/// Out of memory is the only error.
pub fn header_numbers(alloc: Global, text: PagedText) -> Result<Vec<usize>, AllocError>
    ensures { IfOk result (λ numbers. numbers.items ≡ header_numbers 0 (paged_sections text.entry)) }
{
    let page = text.page(alloc)?;
    let numbers = numbers_of(alloc, page.sections.as_slice())?;
    Ok(numbers)
}

// Those of these sections.
fn numbers_of(alloc: Global, sections: &[Section]) -> Result<Vec<usize>, AllocError>
    ensures { IfOk result (λ numbers. numbers.items ≡ header_numbers 0 (map section_content sections.now)) }
{
    let mut numbers = Vec::new(alloc);
    for number in 0..sections.len() {
        push_number(&mut numbers, number, is_header(&sections[number]))?;
    }
    Ok(numbers)
}

// Puts a number after others, or not.
fn push_number(numbers: &mut Vec<usize>, number: usize, is_counted: bool) -> Result<(), AllocError>
    ensures { OnOk result (numbers.new.items ≡ numbers.old.items ++ (if is_counted then number ∷ [] else [])) }
{
    if is_counted {
        numbers.push(number)?;
        return Ok(());
    }
    Ok(())
}

// Whether the first line of a section is a header.
fn is_header(section: &Section) -> bool
    ensures { result ≡ is_headed (section_header (section_content section.now)) }
{
    match section.text.lines.as_slice() {
        [first, ..] => is_header_line(first),
        [] => false,
    }
}

fn is_header_line(line: &Line) -> bool
    ensures { result ≡ is_headed (header_of (content_of line.now)) }
{
    match line {
        Line::Normal(composite) => matches!(composite.style, CompositeStyle::Header(_)),
        _ => false,
    }
}

/// How many of these numbers are less than one: of the numbers of headers, how many headers come before a section.
pub fn count_below(numbers: &[usize], number: usize) -> usize
    ensures { result ≡ count_below numbers.now number }
{
    numbers.iter().filter(|n| **n < number).count()
}
