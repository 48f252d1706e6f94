//! The rows of text that isn't Markdown as a page.

ghost use Rattle.std.specs.Prelude.{◌≡◌, IfOk, map};
ghost use Rattle.mad_plain.specs.Shown.{shown_of};
ghost use Rattle.mad_plain_page.specs.PlainTexts.{lines_kept};
ghost use Rattle.mad_sections.specs.Sections.{page_content, section_content};
ghost use Rattle.mad_search.specs.PagedTexts.{row_sections};

use mad_md::Text;
use mad_plain::PlainLine;
use mad_plain_page::{PlainText, line_rows};
use mad_sections::{Page, Section};
use std::alloc::{AllocError, Global};

/// The lines of a text as a page without gutters: each is a section, which has its rows at a width.
///
/// # Errors
///
/// Out of memory is the only error.
pub(crate) fn rows_page<'s>(
    alloc: Global,
    text: &'s PlainText<'s>,
    width: usize,
) -> Result<Page<'s>, AllocError>
    ensures { IfOk result (λ page. page_content page ≡ row_sections width (lines_kept text.now)) }
{
    let sections = row_sections(alloc, text.lines.as_slice(), width)?;
    Ok(Page { sections })
}

// Each of these lines as a section.
fn row_sections<'s>(
    alloc: Global,
    lines: &'s [PlainLine<'s>],
    width: usize,
) -> Result<Vec<Section<'s>>, AllocError>
    ensures { IfOk result (λ sections. map section_content sections.items ≡ row_sections width (map shown_of lines.now)) }
{
    let mut sections = Vec::new(alloc);
    for line in lines {
        let rows = line_rows(alloc, line, width)?;
        sections.push(Section {
            gutters: &[],
            fresh: 0,
            list: None,
            marks: &[],
            text: Text { lines: rows },
        })?;
    }
    Ok(sections)
}
