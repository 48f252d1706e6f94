//! A text of code, read as the fence around it would be.

ghost use Rattle.std.specs.Prelude.{◌≡◌, ◌∷◌, [], IfOk, map};
ghost use Rattle.markdown_code.specs.CodeTexts.{code_sections, fence_lines, fence_part, fence_sections};
ghost use Rattle.markdown_leaves.specs.Parts.{part_of};
ghost use Rattle.markdown_marks.specs.Remaining.{remaining};
ghost use Rattle.markdown_reader.specs.MarkdownSays.{markdown_says};
ghost use Rattle.markdown_reader.specs.Printed.{ArePrintedSections};
ghost use Rattle.markdown_reader.specs.Steady.{AreSteadySections};

use code_words::language_word;
use markdown_blocks::lines::cut_line;
use markdown_definitions::definitions::definitions_of;
use markdown_leaves::{Block, Kind, Part};
use markdown_lines::texts::behind_mark;
use markdown_marks::rest::Rest;
use markdown_reader::Markdown;
use markdown_reader::mapper::Mapper;
use std::alloc::{AllocError, Global};

/// Reads a text of code by itself, without the byte order mark at its front. It is the section that a fence around it would be: in a box, with the marks
/// of its language. Any text will do, also one that has fences. A text without a line has no section.
///
/// The word is what stands behind a fence, or the name of a file, as in [`language_word`]. Of an unknown language code has no marks. Lines of a shell are
/// a session, if the first is a prompt.
///
/// # Errors
///
/// Out of memory is the only error.
#[tactic(auto, using(crate::proofs::PrintedLemmas::code_printed, crate::proofs::PrintedLemmas::code_steady))]
pub fn read_code(alloc: Global, word: &str, text: &str) -> Result<Markdown, AllocError>
    ensures sections { IfOk result (λ read. markdown_says read ≡ code_sections word.now text.now) }
    ensures printed { IfOk result (λ read. ArePrintedSections (markdown_says read)) }
    ensures steady { IfOk result (λ read. AreSteadySections (markdown_says read)) }
{
    let read = read_sections(alloc, word, text)?;
    Ok(read)
}

// The section that a fence around a text would be.
fn read_sections(alloc: Global, word: &str, text: &str) -> Result<Markdown, AllocError>
    ensures { IfOk result (λ read. markdown_says read ≡ code_sections word.now text.now) }
{
    let info = language_word(word);
    let code = behind_mark(text);
    read_fence(alloc, info, code.as_bytes())
}

// What the reader of Markdown shows of a fence.
#[tactic(auto, unfolding(crate::specs::CodeTexts::fence_sections))]
fn read_fence(alloc: Global, info: &[u8], text: &[u8]) -> Result<Markdown, AllocError>
    ensures { IfOk result (λ read. markdown_says read ≡ fence_sections info.now text.now) }
{
    let parts = fence_parts(alloc, info, text)?;
    let definitions = definitions_of(alloc, &parts)?;
    let mut mapper = Mapper::new(alloc)?;
    mapper.show_all(alloc, &definitions, &parts)?;
    let read = Markdown::take(alloc, &mut mapper)?;
    Ok(read)
}

// The fence, as the one part of a text.
fn fence_parts<'t>(
    alloc: Global,
    info: &'t [u8],
    text: &'t [u8],
) -> Result<Vec<Part<'t>>, AllocError>
    ensures { IfOk result (λ parts. map part_of parts.items ≡ fence_part info.entry.now text.entry.now ∷ []) }
{
    let lines = fence_lines(alloc, info, text)?;
    let mut parts = Vec::new(alloc);
    parts.push(Part::Block(Block {
        kind: Kind::Fenced,
        apart: false,
        lines,
    }))?;
    Ok(parts)
}

// What stands behind the fence, and the lines of the text.
fn fence_lines<'t>(
    alloc: Global,
    info: &'t [u8],
    text: &'t [u8],
) -> Result<Vec<Rest<'t>>, AllocError>
    ensures { IfOk result (λ lines. map remaining lines.items ≡ fence_lines info.entry.now text.entry.now) }
{
    let mut lines = Vec::new(alloc);
    lines.push(Rest::whole(info))?;
    let mut rest = text;
    while !rest.is_empty() {
        let (line, after) = cut_line(rest);
        lines.push(Rest::whole(line))?;
        rest = after;
    }
    Ok(lines)
}
