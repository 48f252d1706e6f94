//! Tables: rows of cells between bars, and the row of delimiters below the head.

ghost use Rattle.std.specs.Prelude.{◌≡◌, ◌++◌, OnOk, map, flat_map};
ghost use Rattle.markdown_writing.specs.Pages.{block_text, cells_of, ended, table};
ghost use Rattle.markdown_writing.specs.Phrases.{phrase_of};
ghost use Rattle.markdown_writing.specs.Tables.{barred, cell_text, delimiter, delimiters, row_text};

use crate::blocks::PagePhrase;
use crate::phrases::push_phrases;
use crate::words::push_byte;
use mad_md::Alignment;
use std::alloc::{AllocError, Global};

// Appends a text with a backslash before each bar.
#[tactic(auto, using(crate::proofs::PushLemmas::put_more))]
fn push_barred(out: &mut Vec<u8>, text: &[u8]) -> Result<(), AllocError>
    ensures { OnOk result (out.new.items ≡ out.old.items ++ barred text.now) }
{
    let mut rest = text;
    while let [byte, next @ ..] = rest {
        push_byte(out, *byte == b'|', *byte)?;
        rest = next;
    }
    Ok(())
}

fn push_cell(alloc: Global, out: &mut Vec<u8>, phrases: &[PagePhrase<'_>]) -> Result<(), AllocError>
    ensures { OnOk result (out.new.items ≡ out.old.items ++ cell_text (map phrase_of phrases.now)) }
{
    let mut text = Vec::new(alloc);
    push_phrases(&mut text, phrases)?;
    out.push(b' ')?;
    push_barred(out, text.as_slice())?;
    out.extend_from_slice(b" |")?;
    Ok(())
}

#[tactic(auto, using(crate::proofs::PushLemmas::put_more))]
fn push_cells(
    alloc: Global,
    out: &mut Vec<u8>,
    cells: &[&[PagePhrase<'_>]],
) -> Result<(), AllocError>
    ensures { OnOk result (out.new.items ≡ out.old.items ++ flat_map cell_text (cells_of cells.now)) }
{
    let mut rest = cells;
    while let [cell, next @ ..] = rest {
        push_cell(alloc, out, *cell)?;
        rest = next;
    }
    Ok(())
}

// Appends a row and the end of its line.
fn push_row(alloc: Global, out: &mut Vec<u8>, cells: &[&[PagePhrase<'_>]]) -> Result<(), AllocError>
    ensures { OnOk result (out.new.items ≡ out.old.items ++ ended (row_text (cells_of cells.now))) }
{
    out.push(b'|')?;
    push_cells(alloc, out, cells)?;
    out.push(b'\n')?;
    Ok(())
}

#[tactic(auto, using(crate::proofs::PushLemmas::put_more))]
fn push_rows(
    alloc: Global,
    out: &mut Vec<u8>,
    rows: &[&[&[PagePhrase<'_>]]],
) -> Result<(), AllocError>
    ensures { OnOk result (out.new.items ≡ out.old.items ++ flat_map ended (map row_text (map (λ row. cells_of row.now) rows.now))) }
{
    let mut rest = rows;
    while let [row, next @ ..] = rest {
        push_row(alloc, out, *row)?;
        rest = next;
    }
    Ok(())
}

fn push_delimiter(out: &mut Vec<u8>, alignment: Alignment) -> Result<(), AllocError>
    ensures { OnOk result (out.new.items ≡ out.old.items ++ delimiter alignment) }
{
    match alignment {
        Alignment::Unspecified => out.extend_from_slice(b" --- |"),
        Alignment::Left => out.extend_from_slice(b" :-- |"),
        Alignment::Center => out.extend_from_slice(b" :-: |"),
        Alignment::Right => out.extend_from_slice(b" --: |"),
    }
}

#[tactic(auto, using(crate::proofs::PushLemmas::put_more))]
fn push_columns(out: &mut Vec<u8>, rule: &[Alignment]) -> Result<(), AllocError>
    ensures { OnOk result (out.new.items ≡ out.old.items ++ flat_map delimiter rule.now) }
{
    let mut rest = rule;
    while let [alignment, next @ ..] = rest {
        push_delimiter(out, *alignment)?;
        rest = next;
    }
    Ok(())
}

// Appends the row of delimiters and the end of its line.
fn push_delimiters(out: &mut Vec<u8>, rule: &[Alignment]) -> Result<(), AllocError>
    ensures { OnOk result (out.new.items ≡ out.old.items ++ ended (delimiters rule.now)) }
{
    out.push(b'|')?;
    push_columns(out, rule)?;
    out.push(b'\n')?;
    Ok(())
}

pub(crate) fn push_table(
    alloc: Global,
    out: &mut Vec<u8>,
    rule: &[Alignment],
    head: &[&[PagePhrase<'_>]],
    rows: &[&[&[PagePhrase<'_>]]],
) -> Result<(), AllocError>
    ensures { OnOk result (out.new.items ≡ out.old.items ++ block_text (table rule.now (cells_of head.now) (map (λ row. cells_of row.now) rows.now))) }
{
    push_row(alloc, out, head)?;
    push_delimiters(out, rule)?;
    push_rows(alloc, out, rows)
}
