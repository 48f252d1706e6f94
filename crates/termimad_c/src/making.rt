//! What each call makes of its inputs.

ghost use Rattle.std.specs.Prelude.{◌≡◌, ◌≤◌, ◌^◌, [], MatchResult};
ghost use Rattle.termimad_run.specs.Calls.{IsAllowed};
ghost use Rattle.termimad_run.specs.declared.call.Command.TheVariants.{Inline};
ghost use Rattle.termimad_c.specs.Inputs.{RefusesCall, RefusesCode, RefusesPage, RefusesParts, IsNoArea, IsNoFit};
ghost use Rattle.termimad_c.specs.DataTables.{IsNoTable, IsTableWritten};
ghost use Rattle.termimad_c.specs.Making.{IsWritten, IsAreaWritten, IsPageWritten, IsTextWritten, IsCodeWritten, IsMarkdownWritten, IsRowCount, IsFittedLine, IsMadePrintable, ArePartsOf};

use crate::answer::{Parts, Refusal};
use crate::inputs::{
    align_of, aligns_of, area_of, number_of, page_skin_of_bytes, skin_of_word, text_of, text_so_far,
};
use mad_tables::table_of_cells;
use std::alloc::Global;
use termimad::{FmtText, Gathered, PageSkin, printable, write_front_on};
use termimad_run::{Command, write_call};

/// A text in an area: the bytes of `termimad-view area`.
#[tactic(auto, using(crate::proofs::Steps::call_refused))]
pub fn area_bytes(
    alloc: Global,
    text: &[u8],
    skin: &[u8],
    left: usize,
    top: usize,
    width: usize,
    height: usize,
) -> Result<Vec<u8>, Refusal>
    ensures { MatchResult result (λ whole. IsAreaWritten text.now skin.now left top width height whole.items)
        (RefusesCall (IsNoArea left top width height) text.now skin.now) }
{
    let area = area_of(left, top, width, height)?;
    written(alloc, text, skin, &Command::InArea(area))
}

/// A text at a width: the bytes of `termimad-view text`.
#[tactic(auto, using(crate::proofs::Steps::call_refused))]
pub fn text_bytes(alloc: Global, text: &[u8], skin: &[u8], width: usize) -> Result<Vec<u8>, Refusal>
    ensures { MatchResult result (λ whole. IsTextWritten text.now skin.now width whole.items)
        (RefusesCall (2 ^ 16 ≤ width) text.now skin.now) }
{
    let width = number_of(width)?;
    written(alloc, text, skin, &Command::AtWidth(width))
}

/// A text of Markdown as people write it, at a width: the bytes of `termimad-view markdown`.
#[tactic(auto, using(crate::proofs::Steps::page_refused))]
pub fn markdown_bytes(
    alloc: Global,
    text: &[u8],
    skin: &[u8],
    width: usize,
) -> Result<Vec<u8>, Refusal>
    ensures { MatchResult result (λ whole. IsMarkdownWritten text.now skin.now width whole.items)
        (RefusesPage (2 ^ 16 ≤ width) text.now skin.now) }
{
    let width = number_of(width)?;
    page_written(alloc, text, skin, &Command::AsMarkdown(width))
}

/// A text of code at a width: the bytes of `termimad-view code`.
#[tactic(auto, using(crate::proofs::Steps::code_refused, crate::proofs::Steps::code_in_page))]
pub fn code_bytes(
    alloc: Global,
    text: &[u8],
    language: &[u8],
    skin: &[u8],
    width: usize,
) -> Result<Vec<u8>, Refusal>
    ensures { MatchResult result (λ whole. IsCodeWritten text.now language.now skin.now width whole.items)
        (RefusesCode (2 ^ 16 ≤ width) text.now language.now skin.now) }
{
    let width = number_of(width)?;
    let language = text_of(language)?;
    page_written(alloc, text, skin, &Command::AsCode(language, width))
}

/// A text as one line: the bytes of `termimad-view inline`.
pub fn inline_bytes(alloc: Global, text: &[u8], skin: &[u8]) -> Result<Vec<u8>, Refusal>
    ensures { MatchResult result (λ whole. IsWritten text.now skin.now Inline whole.items) (RefusesCall ⊥ text.now skin.now) }
{
    written(alloc, text, skin, &Command::Inline)
}

// What the program writes of a text.
#[tactic(auto, using(crate::proofs::Steps::skin_refused))]
fn written(alloc: Global, text: &[u8], skin: &[u8], command: &Command) -> Result<Vec<u8>, Refusal>
    requires { IsAllowed command.now }
    ensures { MatchResult result (λ whole. IsWritten text.now skin.now command.now whole.items) (RefusesCall ⊥ text.now skin.now) }
{
    let skin = skin_of_word(alloc, skin)?;
    let text = text_of(text)?;
    let page_skin = PageSkin::of(&skin);
    let mut out = Gathered::new(alloc);
    write_call(alloc, &mut out, &page_skin, command, text)?;
    Ok(out.bytes)
}

// What the program writes of a text as a page.
#[tactic(auto, using(crate::proofs::Steps::page_skin_refused))]
fn page_written(
    alloc: Global,
    text: &[u8],
    skin: &[u8],
    command: &Command,
) -> Result<Vec<u8>, Refusal>
    requires { IsAllowed command.now }
    ensures { MatchResult result (λ whole. IsPageWritten text.now skin.now command.now whole.items) (RefusesPage ⊥ text.now skin.now) }
{
    let skin = page_skin_of_bytes(alloc, skin)?;
    let text = text_of(text)?;
    let mut out = Gathered::new(alloc);
    write_call(alloc, &mut out, &skin, command, text)?;
    Ok(out.bytes)
}

/// The complete parts at the front of a text, laid out at a width; those of all of it, where it is the last.
#[tactic(auto, using(crate::proofs::Steps::parts_in_skin))]
pub fn parts_made(
    alloc: Global,
    text: &[u8],
    skin: &[u8],
    width: usize,
    fenced: bool,
    is_last: bool,
) -> Result<Parts, Refusal>
    ensures { MatchResult result (λ parts. ArePartsOf text.now skin.now width fenced is_last parts.rows.items parts.used parts.is_open)
        (RefusesParts text.now skin.now width is_last) }
{
    let width = Some(usize::from(number_of(width)?));
    let skin = skin_of_word(alloc, skin)?;
    let text = text_so_far(text, is_last)?;
    let mut out = Gathered::new(alloc);
    let (used, is_open) = write_front_on(alloc, &mut out, &skin, width, text, fenced, is_last)?;
    Ok(Parts {
        rows: out.bytes,
        used,
        is_open,
    })
}

/// How many rows a text takes at a width.
#[tactic(auto, using(crate::proofs::Steps::skin_refused))]
pub fn rows_count(alloc: Global, text: &[u8], skin: &[u8], width: usize) -> Result<usize, Refusal>
    ensures { MatchResult result (IsRowCount text.now skin.now width) (RefusesCall (2 ^ 16 ≤ width) text.now skin.now) }
{
    let width = number_of(width)?;
    let skin = skin_of_word(alloc, skin)?;
    let text = text_of(text)?;
    let laid_out = skin.text(alloc, text, Some(usize::from(width)))?;
    Ok(laid_out.lines.len())
}

/// A line of text with inline marks, fitted to a width with an ellipsis.
#[tactic(auto, using(crate::proofs::Steps::skin_refused))]
pub fn fitted_bytes(
    alloc: Global,
    text: &[u8],
    skin: &[u8],
    width: usize,
    align: usize,
) -> Result<Vec<u8>, Refusal>
    ensures { MatchResult result (λ whole. IsFittedLine text.now skin.now width align whole.items)
        (RefusesCall (IsNoFit width align) text.now skin.now) }
{
    let width = number_of(width)?;
    let align = align_of(align)?;
    let skin = skin_of_word(alloc, skin)?;
    let text = text_of(text)?;
    let mut line = skin.inline(alloc, text)?;
    line.composite.fit_width(usize::from(width), align, &skin)?;
    Ok(line.to_string(alloc)?.into_bytes())
}

/// A table of data at a width: its cells are one text and the length of each, row by row, the first row having the headers.
#[tactic(auto, using(crate::proofs::Steps::skin_refused, crate::proofs::Tables::aligns_refused, crate::proofs::Tables::cells_refused))]
pub fn table_bytes(
    alloc: Global,
    text: &[u8],
    lengths: &[usize],
    aligns: &[usize],
    skin: &[u8],
    columns: usize,
    width: usize,
) -> Result<Vec<u8>, Refusal>
    ensures { MatchResult result (λ whole. IsTableWritten text.now lengths.now aligns.now skin.now columns width whole.items)
        (RefusesCall (IsNoTable text.now lengths.now aligns.now columns width) text.now skin.now) }
{
    let width = number_of(width)?;
    let aligns = aligns_of(alloc, aligns)?;
    let skin = skin_of_word(alloc, skin)?;
    let text = text_of(text)?;
    let Some(table) = table_of_cells(alloc, text, lengths, columns, &aligns)? else {
        return Err(Refusal::Condition);
    };
    let laid_out = FmtText::from_text(alloc, &skin, table, Some(usize::from(width)))?;
    Ok(laid_out.to_string(alloc)?.into_bytes())
}

/// A text without what a terminal obeys.
pub fn printable_bytes(alloc: Global, text: &[u8]) -> Result<Vec<u8>, Refusal>
    ensures { MatchResult result (λ whole. IsMadePrintable text.now whole.items) (RefusesCall ⊥ text.now []) }
{
    let text = text_of(text)?;
    let shown = printable(alloc, text)?;
    Ok(shown.into_owned(alloc)?.into_bytes())
}
