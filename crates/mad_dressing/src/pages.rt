//! Whole pages, with what is put into them.

ghost use Rattle.std.specs.Prelude.{◌≡◌, ◌++◌, IfOk, OnOk, map};
ghost use Rattle.mad_sections.specs.Sections.{page_content, section_content};
ghost use Rattle.mad_dressing.specs.Dressed.{dressed_by, dressed_by_each, put_of, put_with};

use crate::dressed_sections::dress;
use crate::dressings::{Dressing, dressing_of};
use crate::page_marks::PageMarks;
use mad_sections::{Page, Section};
use std::alloc::{AllocError, Global};

/// What is put into a page with each of its sections, in order.
///
/// # Errors
///
/// Out of memory is the only error.
pub fn dressings_of(
    alloc: Global,
    page: &Page<'_>,
    marks: PageMarks,
) -> Result<Vec<Dressing>, AllocError>
    ensures { IfOk result (λ dressings. map put_of dressings.items ≡ map (put_with marks) (page_content page.now)) }
{
    dressings_of_sections(alloc, &page.sections, marks)
}

fn dressings_of_sections(
    alloc: Global,
    sections: &[Section<'_>],
    marks: PageMarks,
) -> Result<Vec<Dressing>, AllocError>
    ensures { IfOk result (λ dressings. map put_of dressings.items ≡ map (put_with marks) (map section_content sections.now)) }
{
    let mut dressings = Vec::new(alloc);
    let mut rest = sections;
    while let [section, next @ ..] = rest {
        let dressing = dressing_of(alloc, section, marks)?;
        dressings.push(dressing)?;
        rest = next;
    }
    Ok(dressings)
}

/// A page with what is put into it with each of its sections. Those past the last one stay.
///
/// # Errors
///
/// Out of memory is the only error.
pub fn dress_page<'s>(
    alloc: Global,
    page: Page<'s>,
    dressings: &'s [Dressing],
) -> Result<Page<'s>, AllocError>
    ensures { IfOk result (λ dressed. page_content dressed ≡ dressed_by_each (map put_of dressings.entry.now) (page_content page.entry)) }
{
    let mut sections = Vec::new(alloc);
    let mut rest = dressings;
    for section in page.sections {
        match rest {
            [dressing, next @ ..] => {
                push_dressed(alloc, &mut sections, section, dressing)?;
                rest = next;
            }
            [] => sections.push(section)?,
        }
    }
    Ok(Page { sections })
}

// Puts a section, with what is put into the page with it, after the sections that are there.
fn push_dressed<'s>(
    alloc: Global,
    sections: &mut Vec<Section<'s>>,
    section: Section<'s>,
    dressing: &'s Dressing,
) -> Result<(), AllocError>
    ensures { OnOk result (map section_content sections.new.items ≡ map section_content sections.old.items ++ dressed_by (put_of dressing.entry.now) (section_content section.entry)) }
{
    let dressed = dress(alloc, section, dressing)?;
    sections.push(dressed.section)?;
    if let Some(rule) = dressed.rule {
        sections.push(rule)?;
    }
    Ok(())
}
