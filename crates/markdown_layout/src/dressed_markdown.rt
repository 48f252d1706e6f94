//! A text that was read, with what stands in its page and isn't its own.

ghost use Rattle.std.specs.Prelude.{◌≡◌, IfOk, map};
ghost use Rattle.mad_sections.specs.Sections.{page_content};
ghost use Rattle.mad_dressing.specs.Dressed.{dressed_page, put_of, put_with};
ghost use Rattle.markdown_reader.specs.MarkdownSays.{markdown_says};
ghost use Rattle.markdown_layout.specs.DressedTexts.{dressed_says};

use mad_dressing::{Dressing, PageMarks, dress_page, dressings_of};
use mad_sections::Page;
use markdown_reader::Markdown;
use std::alloc::{AllocError, Global};

/// A text that was read, with the rules below its headings, the signs in front of them and of its pictures, and marks at its words. Rows of it may be kept as long as it lasts.
#[derive(Debug, Drop)]
pub struct DressedMarkdown {
    markdown: Markdown,
    // What is put into its page with each of its sections.
    dressings: Vec<Dressing>,
}

impl DressedMarkdown {
    /// A text that was read, where these stand in its page: those of the skin that it is to be shown in, `PageSkin::marks`.
    ///
    /// # Errors
    ///
    /// Out of memory is the only error.
    pub fn new(alloc: Global, markdown: Markdown, marks: PageMarks) -> Result<Self, AllocError>
        ensures { IfOk result (λ dressed. dressed_says dressed ≡ dressed_page marks (markdown_says markdown)) }
    {
        let dressings = dressings_for(alloc, &markdown, marks)?;
        Ok(DressedMarkdown {
            markdown,
            dressings,
        })
    }

    /// Its sections, as a page.
    ///
    /// # Errors
    ///
    /// Out of memory is the only error.
    pub fn page(&self, alloc: Global) -> Result<Page<'_>, AllocError>
        ensures { IfOk result (λ page. page_content page ≡ dressed_says self.entry.now) }
    {
        let page = self.markdown.page(alloc)?;
        dress_page(alloc, page, &self.dressings)
    }

    /// The text, as it was read.
    pub fn markdown(&self) -> &Markdown
        ensures { result.now ≡ self.entry.now.markdown }
    {
        &self.markdown
    }
}

// What is put into the page of a text with each of its sections.
fn dressings_for(
    alloc: Global,
    markdown: &Markdown,
    marks: PageMarks,
) -> Result<Vec<Dressing>, AllocError>
    ensures { IfOk result (λ dressings. map put_of dressings.items ≡ map (put_with marks) (markdown_says markdown.now)) }
{
    let page = markdown.page(alloc)?;
    dressings_of(alloc, &page, marks)
}
