//! The marks of characters that belong to links.

ghost use Rattle.std.specs.Prelude.{◌≡◌, ◌+◌, ◌++◌, IfOk, OnOk, map};
ghost use Rattle.std.specs.List.{flat_map};
ghost use Rattle.mad_mark_runs.specs.Values.{AreRising};
ghost use Rattle.mad_md.specs.Flagged.{run_of};
ghost use Rattle.mad_md.specs.Lines.{content_of, styled_runs};
ghost use Rattle.mad_link_marks.specs.LinkMarks.{first_link, line_texts, link_texts, marks_behind, row_texts, run_texts};

use mad_mark_runs::{MarkRun, count_of, push_run};
use mad_md::{Composite, Compound, Line};
use std::alloc::{AllocError, Global};

// The mark of a section's first link.
const FIRST_LINK: usize = 9;

// Adds the text of a run, if it belongs to a link.
fn push_run_text<'l>(texts: &mut Vec<&'l str>, compound: &Compound<'l>) -> Result<(), AllocError>
    ensures { OnOk result (map (λ t. t.now) texts.new.items ≡ map (λ t. t.now) texts.old.items ++ run_texts (run_of compound.now)) }
{
    if compound.link {
        texts.push(compound.src)?;
    }
    Ok(())
}

// Adds those of a row or a cell.
fn push_row_texts<'l>(texts: &mut Vec<&'l str>, row: &Composite<'l>) -> Result<(), AllocError>
    ensures { OnOk result (map (λ t. t.now) texts.new.items ≡ map (λ t. t.now) texts.old.items ++ row_texts (styled_runs row.now)) }
{
    for compound in &row.compounds {
        push_run_text(texts, compound)?;
    }
    Ok(())
}

// Adds those of the cells of a row.
fn push_cell_texts<'l>(texts: &mut Vec<&'l str>, cells: &[Composite<'l>]) -> Result<(), AllocError>
    ensures { OnOk result (map (λ t. t.now) texts.new.items ≡ map (λ t. t.now) texts.old.items ++ flat_map row_texts (map styled_runs cells.now)) }
{
    for cell in cells {
        push_row_texts(texts, cell)?;
    }
    Ok(())
}

// Adds those of a line.
fn push_line_texts<'l>(texts: &mut Vec<&'l str>, line: &Line<'l>) -> Result<(), AllocError>
    ensures { OnOk result (map (λ t. t.now) texts.new.items ≡ map (λ t. t.now) texts.old.items ++ line_texts (content_of line.now)) }
{
    match line {
        Line::Normal(row) => push_row_texts(texts, row),
        Line::TableRow(row) => push_cell_texts(texts, &row.cells),
        Line::TableRule(_) | Line::HorizontalRule => Ok(()),
    }
}

/// The texts of the runs that belong to links, in order.
///
/// # Errors
///
/// Out of memory is the only error.
pub fn link_texts<'l>(alloc: Global, lines: &[Line<'l>]) -> Result<Vec<&'l str>, AllocError>
    ensures { IfOk result (λ texts. map (λ t. t.now) texts.items ≡ link_texts (map content_of lines.now)) }
{
    let mut texts = Vec::new(alloc);
    for line in lines {
        push_line_texts(&mut texts, line)?;
    }
    Ok(texts)
}

// The mark of the link of a number.
fn mark_of(number: usize) -> Result<usize, AllocError>
    ensures { IfOk result (λ mark. mark ≡ first_link + number) }
{
    match number.checked_add(FIRST_LINK) {
        Some(mark) => Ok(mark),
        None => Err(AllocError),
    }
}

/// The marks of the characters of these texts, each of the link of its number.
///
/// # Errors
///
/// Out of memory, which a mark or a count past `usize::MAX` is too.
pub fn text_marks(
    alloc: Global,
    numbers: &[usize],
    texts: &[&str],
) -> Result<Vec<MarkRun>, AllocError>
    ensures marks { IfOk result (λ marks. marks.items ≡ marks_behind 0 numbers.now (map (λ t. t.now) texts.now)) }
    ensures rising { IfOk result (λ marks. AreRising 0 marks.items) }
{
    let mut marks = Vec::new(alloc);
    let mut index = 0;
    while index < numbers.len() && index < texts.len() {
        let mark = mark_of(numbers[index])?;
        push_run(&mut marks, mark, count_of(texts[index]))?;
        index += 1;
    }
    Ok(marks)
}
