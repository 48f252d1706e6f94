//! Writing pages.

ghost use Rattle.std.specs.Prelude.{◌≡◌, ◌++◌, List, IfOk, IsErrOf, OnOk, string_bytes};
ghost use Rattle.mad_rows.specs.RowStyles.{line_rules};
ghost use Rattle.mad_sections.specs.Sections.{page_content, section_content};
ghost use Rattle.mad_pages.specs.PageLayouts.{IsPageAt};
ghost use Rattle.mad_pages.specs.PageRows.{RowContent};
ghost use Rattle.mad_page_rows.specs.Faces.{has_ascii_boxes};
ghost use Rattle.mad_term.specs.declared.errors.Error.TheVariants.{Memory};
ghost use Rattle.markdown_reader.specs.Markdown.{markdown_sections};
ghost use Rattle.markdown_reader.specs.SectionsLeft.{sections_left};
ghost use Rattle.mad_dressing.specs.Dressed.{dressed};
ghost use Rattle.markdown_layout.specs.WrittenPages.{dressed_bytes, rows_bytes, IsDressedAt, WritesDressed, WritesPage};

use crate::page_writing::append_section;
use mad_dressing::{PageMarks, dress, dressing_of};
use mad_page_skin::PageSkin;
use mad_rows::{RowSkin, StyleCommands};
use mad_sections::{Page, Section};
use mad_term::{Error, Out, put_text};
use markdown_reader::{Markdown, Sections};
use std::alloc::{AllocError, Global};

/// Writes a text of Markdown as people write it, as a page at a width, in columns, if there is one: each row and a newline. Nothing is flushed.
///
/// The text is read by [`Markdown::read`], as CommonMark has it, and laid out with whole words. Where the skin says so, headings have a rule below
/// or signs in front, and words have marks. In front of an image's words is the skin's sign. No character of the text reaches the device that a terminal obeys.
///
/// # Errors
///
/// A fault of the device; what went out by then is a beginning of the whole. Or out of memory, before the first byte.
pub fn write_markdown_on<O: Out>(
    alloc: Global,
    out: &mut O,
    skin: &PageSkin,
    markdown: &str,
    width: Option<usize>,
) -> Result<(), Error>
    ensures writes { WritesDressed skin.now width (markdown_sections markdown.now) (O.seen out.old) result (O.seen out.new) }
    ensures early { IsErrOf result Memory → O.seen out.new ≡ O.seen out.old }
{
    let rows = markdown_rows(alloc, skin, markdown, width)?;
    put_text(out, &rows)
}

/// Writes a page at a width, in columns, if there is one: each row and a newline. Nothing is flushed.
///
/// # Errors
///
/// A fault of the device; what went out by then is a beginning of the whole. Or out of memory, before the first byte.
pub fn write_page_on<O: Out>(
    alloc: Global,
    out: &mut O,
    skin: &RowSkin,
    page: Page<'_>,
    width: Option<usize>,
) -> Result<(), Error>
    ensures writes { WritesPage skin.now width (page_content page.entry) (O.seen out.old) result (O.seen out.new) }
    ensures early { IsErrOf result Memory → O.seen out.new ≡ O.seen out.old }
{
    let rows = page_rows(alloc, skin, page, width)?;
    put_text(out, &rows)
}

// The rows of a text in a skin: those of its page, each with a newline.
fn markdown_rows(
    alloc: Global,
    skin: &PageSkin,
    markdown: &str,
    width: Option<usize>,
) -> Result<String, AllocError>
    ensures { IfOk result (λ rows. (own : List RowContent) × IsDressedAt skin.now width (markdown_sections markdown.now) own × (string_bytes rows ≡ dressed_bytes skin.now width own)) }
{
    let read = Markdown::read(alloc, markdown)?;
    let mut rows = String::with_capacity(alloc, markdown.len())?;
    append_sections(alloc, &mut rows, read.sections(), width, skin)?;
    Ok(rows)
}

/// Puts the rows of sections, with what stands in their page and isn't their own, each with a newline, after the rows that are there, at a width in
/// columns, if there is one.
///
/// # Errors
///
/// Out of memory. What the rows then end with is open.
pub fn append_sections(
    alloc: Global,
    rows: &mut String,
    sections: Sections<'_>,
    width: Option<usize>,
    skin: &PageSkin,
) -> Result<(), AllocError>
    ensures { OnOk result ((own : List RowContent) × IsDressedAt skin.now width (sections_left sections.entry) own × (string_bytes rows.new ≡ string_bytes rows.old ++ dressed_bytes skin.now width own)) }
{
    let row_skin = skin.row_skin();
    let mut commands = StyleCommands::new(alloc);
    let mut rest = sections;
    'sections: while let Some(section) = rest.next(alloc)? {
        append_dressed(
            alloc,
            rows,
            section,
            width,
            &row_skin,
            skin.marks(),
            &mut commands,
        )?;
    }
    Ok(())
}

// Puts the rows of a section after those that are there: a heading with the rule below it or the signs in front of it.
fn append_dressed(
    alloc: Global,
    rows: &mut String,
    section: Section<'_>,
    width: Option<usize>,
    skin: &RowSkin,
    marks: PageMarks,
    commands: &mut StyleCommands,
) -> Result<(), AllocError>
    ensures { OnOk result ((own : List RowContent) × IsPageAt (line_rules skin.now) (has_ascii_boxes skin.now) width (dressed marks (section_content section.entry)) own × (string_bytes rows.new ≡ string_bytes rows.old ++ rows_bytes skin.now width own)) }
{
    let dressing = dressing_of(alloc, &section, marks)?;
    let dressed = dress(alloc, section, &dressing)?;
    append_section(alloc, rows, dressed.section, width, skin, commands)?;
    match dressed.rule {
        Some(rule) => append_section(alloc, rows, rule, width, skin, commands),
        None => Ok(()),
    }
}

// The rows of a page.
fn page_rows(
    alloc: Global,
    skin: &RowSkin,
    page: Page<'_>,
    width: Option<usize>,
) -> Result<String, AllocError>
    ensures { IfOk result (λ rows. (own : List RowContent) × IsPageAt (line_rules skin.now) (has_ascii_boxes skin.now) width (page_content page.entry) own × (string_bytes rows ≡ rows_bytes skin.now width own)) }
{
    let mut commands = StyleCommands::new(alloc);
    let mut rows = String::new(alloc);
    for section in page.sections {
        append_section(alloc, &mut rows, section, width, skin, &mut commands)?;
    }
    Ok(rows)
}
