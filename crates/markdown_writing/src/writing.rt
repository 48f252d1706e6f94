//! Blocks one below the other.

ghost use Rattle.std.specs.Prelude.{◌≡◌, ◌++◌, IfOk, OnOk, map, flat_map};
ghost use Rattle.markdown_writing.specs.Pages.{above, block_text, code, ended, first_block, gap, heading, longest, markdown_of, no_more, page_of, paragraph};
ghost use Rattle.markdown_writing.specs.Phrases.{phrase_of};
ghost use Rattle.markdown_writing.specs.Fronts.{itemized, quoted};

use crate::blocks::{PageBlock, PagePhrase};
use crate::fronts::{push_item, push_quoted};
use crate::phrases::{push_fence, push_phrases, push_times};
use crate::tables::push_table;
use markdown_marks::bytes::{count_in_front, without_blanks};
use std::alloc::{AllocError, Global};

fn push_line(out: &mut Vec<u8>, line: &[u8]) -> Result<(), AllocError>
    ensures { OnOk result (out.new.items ≡ out.old.items ++ ended line.now) }
{
    out.extend_from_slice(line)?;
    out.push(b'\n')?;
    Ok(())
}

// The most backquotes that a line has in front, behind its blanks, and two at least.
fn longest(lines: &[&str]) -> usize
    ensures { result ≡ longest (map (λ line. line.now) lines.now) }
{
    let mut most = 2;
    let mut rest = lines;
    while let [line, next @ ..] = rest {
        most = most.max(count_in_front(without_blanks(line.as_bytes()), b'`'));
        rest = next;
    }
    most
}

#[tactic(auto, using(crate::proofs::PushLemmas::put_more))]
fn push_lines(out: &mut Vec<u8>, lines: &[&str]) -> Result<(), AllocError>
    ensures { OnOk result (out.new.items ≡ out.old.items ++ flat_map ended (map (λ line. line.now) lines.now)) }
{
    let mut rest = lines;
    while let [line, next @ ..] = rest {
        push_line(out, line.as_bytes())?;
        rest = next;
    }
    Ok(())
}

fn push_heading(
    out: &mut Vec<u8>,
    level: usize,
    phrases: &[PagePhrase<'_>],
) -> Result<(), AllocError>
    ensures { OnOk result (out.new.items ≡ out.old.items ++ block_text (heading level (map phrase_of phrases.now))) }
{
    push_times(out, b'#', level)?;
    out.push(b' ')?;
    push_phrases(out, phrases)?;
    out.push(b'\n')?;
    Ok(())
}

#[tactic(auto, using(crate::proofs::PushLemmas::put_more))]
fn push_paragraph(out: &mut Vec<u8>, lines: &[&[PagePhrase<'_>]]) -> Result<(), AllocError>
    ensures { OnOk result (out.new.items ≡ out.old.items ++ block_text (paragraph (map (λ line. map phrase_of line.now) lines.now))) }
{
    let mut rest = lines;
    while let [line, next @ ..] = rest {
        push_phrases(out, *line)?;
        out.push(b'\n')?;
        rest = next;
    }
    Ok(())
}

fn push_code(out: &mut Vec<u8>, language: &[u8], lines: &[&str]) -> Result<(), AllocError>
    ensures { OnOk result (out.new.items ≡ out.old.items ++ block_text (code language.now (map (λ line. line.now) lines.now))) }
{
    let most = longest(lines);
    push_fence(out, most)?;
    push_line(out, language)?;
    push_lines(out, lines)?;
    push_fence(out, most)?;
    out.push(b'\n')?;
    Ok(())
}

#[cycle(blocks)]
fn push_quote(alloc: Global, out: &mut Vec<u8>, blocks: &[PageBlock<'_>]) -> Result<(), AllocError>
    ensures { OnOk result (out.new.items ≡ out.old.items ++ quoted (markdown_of (page_of blocks.now))) }
{
    let inner = markdown_of(alloc, blocks)?;
    push_quoted(out, inner.as_slice())
}

#[cycle(blocks)]
fn push_held(alloc: Global, out: &mut Vec<u8>, blocks: &[PageBlock<'_>]) -> Result<(), AllocError>
    ensures { OnOk result (out.new.items ≡ out.old.items ++ itemized (markdown_of (page_of blocks.now))) }
{
    let inner = markdown_of(alloc, blocks)?;
    push_item(out, inner.as_slice())
}

#[cycle(blocks)]
#[tactic(auto, using(crate::proofs::BlockLemmas::quote_text, crate::proofs::BlockLemmas::item_text))]
fn push_block(alloc: Global, out: &mut Vec<u8>, block: PageBlock<'_>) -> Result<(), AllocError>
    ensures { OnOk result (out.new.items ≡ out.old.items ++ first_block (above block.entry no_more)) }
{
    match block {
        PageBlock::Heading(level, phrases) => push_heading(out, level, phrases),
        PageBlock::Paragraph(lines) => push_paragraph(out, lines),
        PageBlock::Code(language, lines) => push_code(out, language.as_bytes(), lines),
        PageBlock::Break => push_line(out, b"***"),
        PageBlock::Table(rule, head, rows) => push_table(alloc, out, rule, head, rows),
        PageBlock::Quote(blocks) => push_quote(alloc, out, blocks),
        PageBlock::Item(blocks) => push_held(alloc, out, blocks),
    }
}

fn push_gap(out: &mut Vec<u8>, some: bool) -> Result<(), AllocError>
    ensures { OnOk result (out.new.items ≡ out.old.items ++ gap some) }
{
    if some {
        out.push(b'\n')?;
    }
    Ok(())
}

/// A page as Markdown: its blocks, with an empty line between them. [`crate::laws`] says what is read of it.
///
/// # Errors
///
/// Out of memory.
#[cycle(blocks)]
#[tactic(auto, using(crate::proofs::BlockLemmas::put_block))]
pub fn markdown_of(alloc: Global, page: &[PageBlock<'_>]) -> Result<Vec<u8>, AllocError>
    ensures { IfOk result (λ text. text.items ≡ markdown_of (page_of page.now)) }
{
    let mut text = Vec::new(alloc);
    let mut some = false;
    for block in page {
        push_gap(&mut text, some)?;
        push_block(alloc, &mut text, *block)?;
        some = true;
    }
    Ok(text)
}
