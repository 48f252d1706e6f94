//! The headings of a text, each with its name.

ghost use Rattle.std.specs.Prelude.{◌≡◌, IfOk, map, string_bytes};
ghost use Rattle.markdown_headings.specs.HeadingsSaid.{heading_said, title_said};
ghost use Rattle.markdown_headings.specs.Named.{headings_of, named_by};
ghost use Rattle.markdown_headings.specs.Printed.{ArePrintedHeadings};
ghost use Rattle.markdown_reader.specs.MarkdownSays.{markdown_says};
ghost use Rattle.markdown_reader.specs.Printed.{ArePrintedSections};

use crate::names::names_of;
use crate::titles::{Title, read_titles};
use markdown_reader::Markdown;
use std::alloc::{AllocError, Global};

/// A heading of a text.
#[derive(Debug, Drop)]
pub struct Heading {
    /// Its level, 1 to 6.
    pub level: u8,
    /// The index of its section, as a link has that of its own.
    pub section: usize,
    /// What it shows: the texts of its rows, with a space between two. An image shows its alternative text, or the name of its file.
    pub text: String,
    /// The name that GitHub gives it, to which `#name` goes. It has nothing of an image.
    pub name: String,
}

/// The headings of a text, in order.
///
/// # Errors
///
/// Out of memory is the only error.
pub fn headings(alloc: Global, markdown: &Markdown) -> Result<Vec<Heading>, AllocError>
    ensures headings { IfOk result (λ headings. map heading_said headings.items ≡ headings_of (markdown_says markdown.now)) }
    ensures printed { IfOk result (λ headings. ArePrintedSections (markdown_says markdown.now) → ArePrintedHeadings (map heading_said headings.items)) }
{
    let found = read_headings(alloc, markdown)?;
    Ok(found)
}

// The headings of a text: its titles, and the names of these.
fn read_headings(alloc: Global, markdown: &Markdown) -> Result<Vec<Heading>, AllocError>
    ensures { IfOk result (λ headings. map heading_said headings.items ≡ headings_of (markdown_says markdown.now)) }
{
    let titles = read_titles(alloc, markdown)?;
    let names = names_of(alloc, titles.as_slice())?;
    with_names(alloc, titles, names)
}

// Titles with names, one after the other.
fn with_names(
    alloc: Global,
    titles: Vec<Title>,
    names: Vec<String>,
) -> Result<Vec<Heading>, AllocError>
    ensures { IfOk result (λ headings. map heading_said headings.items ≡ named_by (map title_said titles.items) (map string_bytes names.items)) }
{
    let mut headings = Vec::with_capacity(alloc, titles.as_slice().len())?;
    let mut left = names.into_iter();
    for title in titles {
        let Some(name) = left.next() else {
            return Ok(headings);
        };
        headings.push(Heading {
            level: title.level,
            section: title.section,
            text: title.text,
            name,
        })?;
    }
    Ok(headings)
}
