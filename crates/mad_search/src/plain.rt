//! Lines as a page without gutters.

ghost use Rattle.std.specs.Prelude.{◌≡◌, ◌++◌, ◌∷◌, [], IfOk, OnOk, map};
ghost use Rattle.mad_blocks.specs.TextParts.{apart, is_code, is_table, stand_together};
ghost use Rattle.mad_md.specs.Lines.{content_of, contents};
ghost use Rattle.mad_sections.specs.Sections.{page_content, section_content};
ghost use Rattle.mad_search.specs.PagedTexts.{part_sections, plain_sections};

use mad_md::{CompositeStyle, Line, Text};
use mad_sections::{Page, Section};
use std::alloc::{AllocError, Global};

/// Lines as a page without gutters: each part of them is a section. A part is a table, a block of code, or any other line.
///
/// # Errors
///
/// Out of memory is the only error.
pub fn plain_page<'s>(alloc: Global, text: Text<'s>) -> Result<Page<'s>, AllocError>
    ensures { IfOk result (λ page. page_content page ≡ plain_sections (contents text.entry)) }
{
    let mut sections = Vec::new(alloc);
    let mut part = Vec::new(alloc);
    for line in text.lines {
        if is_apart(part.as_slice(), &line) {
            push_part(&mut sections, part)?;
            part = Vec::new(alloc);
        }
        part.push(line)?;
    }
    push_part(&mut sections, part)?;
    Ok(Page { sections })
}

// Puts a part behind the sections that are there, if it has lines.
fn push_part<'s>(sections: &mut Vec<Section<'s>>, part: Vec<Line<'s>>) -> Result<(), AllocError>
    ensures { OnOk result (map section_content sections.new.items ≡ map section_content sections.old.items ++ part_sections (map content_of part.entry.items)) }
{
    if part.is_empty() {
        return Ok(());
    }
    sections.push(Section {
        gutters: &[],
        fresh: 0,
        list: None,
        marks: &[],
        text: Text { lines: part },
    })?;
    Ok(())
}

// Whether a line is in another part than the lines before it.
fn is_apart(part: &[Line], line: &Line) -> bool
    ensures { result ≡ apart (map content_of part.now) (content_of line.now ∷ []) }
{
    match part {
        [] => true,
        [.., last] => !stand_together(last, line),
    }
}

// Whether two lines that follow one another are in one part.
fn stand_together(line: &Line, next: &Line) -> bool
    ensures { result ≡ stand_together (content_of line.now) (content_of next.now) }
{
    (is_code(line) && is_code(next)) || (is_table(line) && is_table(next))
}

fn is_code(line: &Line) -> bool
    ensures { result ≡ is_code (content_of line.now) }
{
    match line {
        Line::Normal(composite) => matches!(composite.style, CompositeStyle::Code),
        _ => false,
    }
}

fn is_table(line: &Line) -> bool
    ensures { result ≡ is_table (content_of line.now) }
{
    matches!(line, Line::TableRow(_) | Line::TableRule(_))
}
