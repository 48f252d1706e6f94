//! The marks of a text's links, numbered through the text, and their addresses.

ghost use Rattle.std.specs.Prelude.{◌≡◌, ◌+◌, drop, IfOk, map};
ghost use Rattle.mad_sections.specs.Sections.{section_content};
ghost use Rattle.markdown_reader.specs.SectionsSaid.{link_said};
ghost use Rattle.markdown_linked_pages.specs.LinkedPages.{addresses_of, links_before, numbered, numbered_value, with_link_marks};

use mad_links::LinkAddress;
use mad_mark_runs::MarkRun;
use mad_sections::Section;
use markdown_reader::Link;
use std::alloc::{AllocError, Global};

/// The addresses of links, as they are written; none where it is refused.
///
/// # Errors
///
/// Out of memory is the only error.
pub(crate) fn addresses_of(
    alloc: Global,
    links: &[Link],
) -> Result<Vec<Option<LinkAddress>>, AllocError>
    ensures { IfOk result (λ made. made.items ≡ addresses_of (map link_said links.now)) }
{
    let mut made = Vec::with_capacity(alloc, links.len())?;
    for link in links {
        made.push(LinkAddress::new(alloc, link.address.as_str())?)?;
    }
    Ok(made)
}

/// Of links, so many of which are passed, the number of those before the ones of a section.
pub(crate) fn links_before(links: &[Link], passed: usize, section: usize) -> usize
    ensures { result ≡ passed + links_before section (map link_said (drop passed links.now)) }
{
    let mut count = passed;
    while count < links.len() && links[count].section < section {
        count += 1;
    }
    count
}

/// The marks of a section's links, where so many links stand before them.
///
/// # Errors
///
/// Out of memory, which a mark past `usize::MAX` is too.
pub(crate) fn numbered(
    alloc: Global,
    runs: &[MarkRun],
    first: usize,
) -> Result<Vec<MarkRun>, AllocError>
    ensures { IfOk result (λ made. made.items ≡ numbered first runs.now) }
{
    let mut made = Vec::with_capacity(alloc, runs.len())?;
    for run in runs {
        let value = numbered_value(run.value, first)?;
        made.push(MarkRun {
            value,
            end: run.end,
        })?;
    }
    Ok(made)
}

// A mark, where so many links stand before those of its section. A tone stays.
fn numbered_value(value: usize, first: usize) -> Result<usize, AllocError>
    ensures { IfOk result (λ made. made ≡ numbered_value first value) }
{
    if value <= 8 {
        return Ok(value);
    }
    match value.checked_add(first) {
        Some(made) => Ok(made),
        None => Err(AllocError),
    }
}

/// A section with the marks of its links, if it has any.
pub(crate) fn with_link_marks<'s>(section: Section<'s>, marks: &'s [MarkRun]) -> Section<'s>
    ensures { section_content result ≡ with_link_marks marks.entry.now (section_content section.entry) }
{
    if marks.is_empty() {
        return section;
    }
    Section {
        gutters: section.gutters,
        fresh: section.fresh,
        list: section.list,
        marks,
        text: section.text,
    }
}
