//! Cells: where nothing of a text is trimmed, their runs are those of the text.

ghost use Rattle.std.specs.Prelude.{◌≡◌, ◌≤◌, ◌++◌, ◌∷◌, [], Bool, ℕ, ◌==◌, OnOk, IsTrue, false, get_or, length, map};
ghost use Rattle.markdown_inlines.specs.Styled.{spelled_of, IsStyled};
ghost use Rattle.markdown_lines.specs.CutRows.{AreUnpictured};
ghost use Rattle.markdown_lines.specs.Glyphs.{glyph_of, trimmed, spaced_from, runs_of, run_with};
ghost use Rattle.markdown_lines.specs.LinkNumbers.{after_links, numbers_of, one_number};
ghost use Rattle.markdown_lines.specs.Said.{said};

use crate::glyphs::{Glyph, glyph_of, glyphs_of, spaced, trimmed};
use crate::leaf::{have_pictures, is_neat};
use crate::lines::end_of;
use crate::numbers::{push_number, push_numbers};
use crate::runs::Runs;
use markdown_inlines::styled::Styled;
use memchr::memchr;
use std::alloc::{AllocError, Global};

// Whether a text has no breaks.
fn is_unbroken(text: &[u8]) -> bool
    ensures { IsTrue result → (k : ℕ) → (get_or text.now k 0 == 10) ≡ false }
{
    memchr(b'\n', text).is_none()
}

// Whether a text is one row, of which nothing is trimmed, and no picture says any of it.
fn is_whole(styled: &Styled) -> bool
    requires { IsStyled styled.now }
    ensures unpictured { IsTrue result → AreUnpictured styled.now.runs.items }
    ensures row { IsTrue result → (bold : Bool) → spaced_from bold [] [] (trimmed (map (glyph_of bold) (spelled_of styled.now))) ≡ map (glyph_of bold) (spelled_of styled.now) }
{
    if have_pictures(styled.runs.as_slice()) {
        return false;
    }
    if !is_neat(styled.text.as_str().as_bytes()) {
        return false;
    }
    is_unbroken(styled.text.as_str().as_bytes())
}

// Adds a run that looks like a character, and the number of its link, before which so many others come.
fn push_run(
    runs: &mut Runs,
    numbers: &mut Vec<usize>,
    before: usize,
    glyph: Glyph,
    text: &str,
) -> Result<(), AllocError>
    ensures runs { OnOk result (said runs.new ≡ said runs.old ++ run_with glyph.flags text.now ∷ []) }
    ensures grows { length (said runs.old) ≤ length (said runs.new) }
    ensures numbers { OnOk result (numbers.new.items ≡ numbers.old.items ++ after_links before (one_number glyph.link)) }
{
    push_number(numbers, before, glyph.link)?;
    runs.push(glyph.flags, text)?;
    Ok(())
}

// Adds the runs of a text, and the numbers of their links, before which so many others come. No picture says any of it.
fn push_each(
    runs: &mut Runs,
    numbers: &mut Vec<usize>,
    before: usize,
    styled: &Styled,
) -> Result<(), AllocError>
    requires styled { IsStyled styled.now }
    requires unpictured { AreUnpictured styled.now.runs.items }
    ensures runs { OnOk result (said runs.new ≡ said runs.old ++ runs_of (map (glyph_of false) (spelled_of styled.now))) }
    ensures grows { length (said runs.old) ≤ length (said runs.new) }
    ensures numbers { OnOk result (numbers.new.items ≡ numbers.old.items ++ after_links before (numbers_of (map (glyph_of false) (spelled_of styled.now)))) }
{
    let mut index = 0;
    while index < styled.runs.as_slice().len() {
        let run = styled.runs[index];
        let end = end_of(styled, index + 1);
        let glyph = glyph_of(false, &run.look, ' ');
        let text = &styled.text.as_str()[run.start..end];
        push_run(runs, numbers, before, glyph, text)?;
        index += 1;
    }
    Ok(())
}

// Adds the only run of a text, in bold or as it is, and the number of its link, before which so many others come. No picture says any of it.
fn push_only(
    runs: &mut Runs,
    numbers: &mut Vec<usize>,
    before: usize,
    bold: bool,
    styled: &Styled,
) -> Result<(), AllocError>
    requires styled { IsStyled styled.now }
    requires unpictured { AreUnpictured styled.now.runs.items }
    requires one { length styled.now.runs.items ≡ 1 }
    ensures runs { OnOk result (said runs.new ≡ said runs.old ++ runs_of (map (glyph_of bold) (spelled_of styled.now))) }
    ensures grows { length (said runs.old) ≤ length (said runs.new) }
    ensures numbers { OnOk result (numbers.new.items ≡ numbers.old.items ++ after_links before (numbers_of (map (glyph_of bold) (spelled_of styled.now)))) }
{
    let run = styled.runs[0];
    let glyph = glyph_of(bold, &run.look, ' ');
    push_run(runs, numbers, before, glyph, styled.text.as_str())?;
    Ok(())
}

// Adds the runs of a text as one row, with a space for each break, and the numbers of their links, before which so many others come.
fn push_spaced(
    alloc: Global,
    runs: &mut Runs,
    numbers: &mut Vec<usize>,
    before: usize,
    bold: bool,
    styled: &Styled,
) -> Result<(), AllocError>
    requires { IsStyled styled.now }
    ensures runs { OnOk result (said runs.new ≡ said runs.old ++ runs_of (spaced_from bold [] [] (trimmed (map (glyph_of bold) (spelled_of styled.now))))) }
    ensures grows { length (said runs.old) ≤ length (said runs.new) }
    ensures numbers { OnOk result (numbers.new.items ≡ numbers.old.items ++ after_links before (numbers_of (spaced_from bold [] [] (trimmed (map (glyph_of bold) (spelled_of styled.now)))))) }
{
    let glyphs = glyphs_of(alloc, bold, styled)?;
    let row = spaced(alloc, bold, trimmed(glyphs.as_slice()))?;
    push_numbers(numbers, before, row.as_slice())?;
    runs.push_glyphs(alloc, row.as_slice())?;
    Ok(())
}

/// Adds the runs of what is shown of a cell, in bold or as they are, and the numbers of their links, before which so many others come.
///
/// # Errors
///
/// Out of memory, which a number past `usize::MAX` is too.
pub(crate) fn push_cell(
    alloc: Global,
    runs: &mut Runs,
    numbers: &mut Vec<usize>,
    before: usize,
    bold: bool,
    styled: &Styled,
) -> Result<(), AllocError>
    requires { IsStyled styled.now }
    ensures runs { OnOk result (said runs.new ≡ said runs.old ++ runs_of (spaced_from bold [] [] (trimmed (map (glyph_of bold) (spelled_of styled.now))))) }
    ensures grows { length (said runs.old) ≤ length (said runs.new) }
    ensures numbers { OnOk result (numbers.new.items ≡ numbers.old.items ++ after_links before (numbers_of (spaced_from bold [] [] (trimmed (map (glyph_of bold) (spelled_of styled.now)))))) }
{
    if !is_whole(styled) {
        push_spaced(alloc, runs, numbers, before, bold, styled)?;
        return Ok(());
    }
    if !bold {
        push_each(runs, numbers, before, styled)?;
        return Ok(());
    }
    if styled.runs.as_slice().len() != 1 {
        push_spaced(alloc, runs, numbers, before, bold, styled)?;
        return Ok(());
    }
    push_only(runs, numbers, before, bold, styled)?;
    Ok(())
}
