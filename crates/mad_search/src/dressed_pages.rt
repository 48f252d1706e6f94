//! The sections of a page, each with what is put into the page with it.

ghost use Rattle.std.specs.Prelude.{◌≡◌, ◌∷◌, [], IfOk, map};
ghost use Rattle.mad_dressing.specs.Dressed.{put_of, sections_dressed};
ghost use Rattle.mad_sections.specs.Sections.{page_content, section_content};
ghost use Rattle.mad_search.specs.PagedTexts.{grouped};

use mad_dressing::{Dressed, Dressing, dress};
use mad_sections::{Page, Section};
use std::alloc::{AllocError, Global};

/// The sections of a page, each with what is put into the page with it. Those past the last of that stay as they are.
///
/// # Errors
///
/// Out of memory is the only error.
pub fn dress_each<'s>(
    alloc: Global,
    page: Page<'s>,
    dressings: &'s [Dressing],
) -> Result<Vec<Dressed<'s>>, AllocError>
    ensures { IfOk result (λ dressed. map sections_dressed dressed.items ≡ grouped (map put_of dressings.entry.now) (page_content page.entry)) }
{
    let mut dressed = Vec::new(alloc);
    let mut rest = dressings;
    for section in page.sections {
        match rest {
            [dressing, next @ ..] => {
                dressed.push(dress(alloc, section, dressing)?)?;
                rest = next;
            }
            [] => dressed.push(alone(section))?,
        }
    }
    Ok(dressed)
}

// A section that stays as it is.
fn alone<'s>(section: Section<'s>) -> Dressed<'s>
    ensures { sections_dressed result ≡ section_content section.entry ∷ [] }
{
    Dressed {
        section,
        rule: None,
    }
}
