//! Which sections are headings, and what these show.

ghost use Rattle.std.specs.Prelude.{◌≡◌, ◌++◌, IfOk, OnOk, map, string_bytes};
ghost use Rattle.mad_md.specs.Flagged.{run_of};
ghost use Rattle.mad_md.specs.Lines.{content_of};
ghost use Rattle.mad_sections.specs.Sections.{section_content};
ghost use Rattle.markdown_headings.specs.Headings.{first_level, level_of, others_text, row_text, rows_text, run_text, runs_text, section_titles, titles_of};
ghost use Rattle.markdown_headings.specs.HeadingsSaid.{title_said};
ghost use Rattle.markdown_reader.specs.MarkdownSays.{markdown_says};

use mad_md::{CompositeStyle, Compound, Line};
use mad_sections::Section;
use markdown_reader::Markdown;
use std::alloc::{AllocError, Global};

/// A heading without its name.
#[derive(Debug, Drop)]
pub struct Title {
    /// Its level, 1 to 6.
    pub level: u8,
    /// The index of its section.
    pub section: usize,
    /// What it shows: the texts of its rows, with a space between two.
    pub text: String,
    /// The same without what is said of pictures.
    pub words: String,
}

/// The headings of a text, in order.
///
/// # Errors
///
/// Out of memory is the only error.
pub fn read_titles(alloc: Global, markdown: &Markdown) -> Result<Vec<Title>, AllocError>
    ensures { IfOk result (λ titles. map title_said titles.items ≡ titles_of (markdown_says markdown.now)) }
{
    let page = markdown.page(alloc)?;
    titles_among(alloc, page.sections.as_slice())
}

// Those among some sections.
fn titles_among(alloc: Global, sections: &[Section]) -> Result<Vec<Title>, AllocError>
    ensures { IfOk result (λ titles. map title_said titles.items ≡ titles_of (map section_content sections.now)) }
{
    let mut titles = Vec::new(alloc);
    for number in 0..sections.len() {
        push_title(alloc, &mut titles, number, &sections[number])?;
    }
    Ok(titles)
}

// Puts a section, of which this is the number, after others if it is a heading.
fn push_title(
    alloc: Global,
    titles: &mut Vec<Title>,
    number: usize,
    section: &Section,
) -> Result<(), AllocError>
    ensures { OnOk result (map title_said titles.new.items ≡ map title_said titles.old.items ++ section_titles number (section_content section.now)) }
{
    let lines = section.text.lines.as_slice();
    let Some(level) = first_level(lines) else {
        return Ok(());
    };
    let mut text = String::new(alloc);
    push_rows(&mut text, lines, true)?;
    let mut words = String::new(alloc);
    push_rows(&mut words, lines, false)?;
    titles.push(Title {
        level,
        section: number,
        text,
        words,
    })?;
    Ok(())
}

// The level of the first line, if that is a heading's.
fn first_level(lines: &[Line]) -> Option<u8>
    ensures { result ≡ first_level (map content_of lines.now) }
{
    match lines {
        [first, ..] => level_of(first),
        [] => None,
    }
}

// The level of a line, if it is a heading's.
fn level_of(line: &Line) -> Option<u8>
    ensures { result ≡ level_of (content_of line.now) }
{
    let Line::Normal(composite) = line else {
        return None;
    };
    match composite.style {
        CompositeStyle::Header(level) => Some(level),
        _ => None,
    }
}

// Appends what lines say, with what is said of pictures or without, and with a space between two.
fn push_rows(text: &mut String, lines: &[Line], pictures: bool) -> Result<(), AllocError>
    ensures { OnOk result (string_bytes text.new ≡ string_bytes text.old ++ rows_text pictures (map content_of lines.now)) }
{
    match lines {
        [first, others @ ..] => {
            push_row(text, first, pictures)?;
            push_others(text, others, pictures)
        }
        [] => Ok(()),
    }
}

// Appends what lines say, each with a space before it.
fn push_others(text: &mut String, lines: &[Line], pictures: bool) -> Result<(), AllocError>
    ensures { OnOk result (string_bytes text.new ≡ string_bytes text.old ++ others_text pictures (map content_of lines.now)) }
{
    for line in lines {
        text.push(' ')?;
        push_row(text, line, pictures)?;
    }
    Ok(())
}

// Appends what a line says.
fn push_row(text: &mut String, line: &Line, pictures: bool) -> Result<(), AllocError>
    ensures { OnOk result (string_bytes text.new ≡ string_bytes text.old ++ row_text pictures (content_of line.now)) }
{
    match line {
        Line::Normal(composite) => push_runs(text, composite.compounds.as_slice(), pictures),
        _ => Ok(()),
    }
}

// Appends the texts of compounds.
fn push_runs(text: &mut String, compounds: &[Compound], pictures: bool) -> Result<(), AllocError>
    ensures { OnOk result (string_bytes text.new ≡ string_bytes text.old ++ runs_text pictures (map run_of compounds.now)) }
{
    for compound in compounds {
        push_run(text, compound, pictures)?;
    }
    Ok(())
}

// Appends the text of a compound, but not where it is said of a picture and those are left out.
fn push_run(text: &mut String, compound: &Compound, pictures: bool) -> Result<(), AllocError>
    ensures { OnOk result (string_bytes text.new ≡ string_bytes text.old ++ run_text pictures (run_of compound.now)) }
{
    if pictures || !compound.picture {
        text.push_str(compound.src)?;
    }
    Ok(())
}
