//! Writing texts with links.

ghost use Rattle.std.specs.Prelude.{◌≡◌, ◌+◌, ◌++◌, List, IfOk, IsErrOf, OnOk, string_bytes};
ghost use Rattle.mad_pages.specs.PageRows.{RowContent};
ghost use Rattle.mad_page_skin.specs.PageSkins.{page_row_skin};
ghost use Rattle.mad_term.specs.declared.errors.Error.TheVariants.{Memory};
ghost use Rattle.markdown_reader.specs.LinkMarks.{markdown_link_marks};
ghost use Rattle.markdown_reader.specs.Markdown.{markdown_links, markdown_sections};
ghost use Rattle.markdown_reader.specs.NumbersIn.{link_marks_said};
ghost use Rattle.markdown_reader.specs.MarkdownSays.{links_said, markdown_says};
ghost use Rattle.markdown_linked_pages.specs.LinkedPages.{linked_page, linked_rows_bytes, linked_text_bytes, IsLinkedTextAt, WritesLinked};

use crate::link_marks::{addresses_of, links_before, numbered};
use crate::linked_page_writing::{LinkedText, append_marked_section};
use crate::linked_rows::LinkedSkin;
use mad_links::LinkAddress;
use mad_page_skin::PageSkin;
use mad_rows::StyleCommands;
use mad_term::{Error, Out, put_text};
use markdown_reader::Markdown;
use std::alloc::{AllocError, Global};

/// Writes a text of Markdown as [`write_markdown_on`] does, with its links as commands that terminals can follow (OSC 8). Nothing is flushed.
///
/// A link is written where its address begins with `http:`, `https:`, `mailto:` or `file:`, and takes no more than 700 bytes. All of its parts have the
/// number of the link in the text as their `id`, also over several rows. Links in tables that are shown as lists are written as their text alone.
///
/// [`write_markdown_on`]: markdown_layout::write_markdown_on
///
/// # Errors
///
/// A fault of the device; what went out by then is a beginning of the whole. Or out of memory, before the first byte.
pub fn write_markdown_with_links_on<O: Out>(
    alloc: Global,
    out: &mut O,
    skin: &PageSkin,
    markdown: &str,
    width: Option<usize>,
) -> Result<(), Error>
    ensures writes { WritesLinked skin.now width (markdown_sections markdown.now) (markdown_links markdown.now) (markdown_link_marks markdown.now) (O.seen out.old) result (O.seen out.new) }
    ensures early { IsErrOf result Memory → O.seen out.new ≡ O.seen out.old }
{
    let rows = linked_markdown_rows(alloc, skin, markdown, width)?;
    put_text(out, &rows)
}

// The rows of a text with its links: those of its page, each with a newline.
fn linked_markdown_rows(
    alloc: Global,
    skin: &PageSkin,
    markdown: &str,
    width: Option<usize>,
) -> Result<String, AllocError>
    ensures { IfOk result (λ rows. (own : List RowContent) × IsLinkedTextAt skin.now width (linked_page (markdown_links markdown.now) (markdown_link_marks markdown.now) (markdown_sections markdown.now)) own × (string_bytes rows ≡ linked_text_bytes (markdown_links markdown.now) skin.now width own)) }
{
    let read = Markdown::read(alloc, markdown)?;
    let addresses = addresses_of(alloc, read.links())?;
    let mut rows = String::with_capacity(alloc, markdown.len())?;
    append_linked_text(alloc, &mut rows, &read, addresses.as_slice(), width, skin)?;
    Ok(rows)
}

// Puts the rows of a text that was read, with its links and the rules and signs of headings, each with a newline, after the rows that are there.
fn append_linked_text(
    alloc: Global,
    rows: &mut String,
    read: &Markdown,
    addresses: &[Option<LinkAddress>],
    width: Option<usize>,
    skin: &PageSkin,
) -> Result<(), AllocError>
    ensures { OnOk result ((own : List RowContent) × IsLinkedTextAt skin.now width (linked_page (links_said read.now) (link_marks_said read.now) (markdown_says read.now)) own × (string_bytes rows.new ≡ string_bytes rows.old ++ linked_rows_bytes addresses.now (page_row_skin skin.now) width own)) }
{
    let row_skin = skin.row_skin();
    let text = LinkedText {
        skin: LinkedSkin {
            skin: &row_skin,
            addresses,
        },
        marks: skin.marks(),
        width,
    };
    let links = read.links();
    let mut commands = StyleCommands::new(alloc);
    let mut rest = read.sections();
    let mut number: usize = 0;
    let mut passed: usize = 0;
    'sections: while let Some(section) = rest.next(alloc)? {
        passed = links_before(links, passed, number);
        let found = read.link_marks(alloc, number)?;
        let marks = numbered(alloc, found.as_slice(), passed)?;
        append_marked_section(alloc, rows, section, marks.as_slice(), text, &mut commands)?;
        number = next(number)?;
    }
    Ok(())
}

// The number of the next section.
fn next(number: usize) -> Result<usize, AllocError>
    ensures { IfOk result (λ next. next ≡ number + 1) }
{
    match number.checked_add(1) {
        Some(next) => Ok(next),
        None => Err(AllocError),
    }
}
