//! Tables: what their rows and rules become.

use crate::lines::read_lines;
use crate::pictures::{push_lines, push_row};
use crate::skins::{unstyled_skin, word_skin};
use crate::words::{aligns, number, numbers};
use mad_blocks::{Table, fix_all_tables, lay_row, lay_source};
use mad_format::FmtLine;
use mad_md::Alignment;
use mad_style::ListItemsIndentationMode;
use mad_term::Error;
use std::alloc::Global;
use std::fmt::Write;

/// The lines of a text at a width, or at none.
pub fn lay(alloc: Global, picture: &mut String, width: &str, text: &str) -> Result<(), Error> {
    let lines = lay_source(alloc, &unstyled_skin(), text, width.parse().ok())?;
    Ok(push_lines(picture, &lines)?)
}

/// The lines of a text at a width, or at none, words whole.
pub fn lay_words(
    alloc: Global,
    picture: &mut String,
    width: &str,
    text: &str,
) -> Result<(), Error> {
    let skin = word_skin(ListItemsIndentationMode::Block);
    let lines = lay_source(alloc, &skin, text, width.parse().ok())?;
    Ok(push_lines(picture, &lines)?)
}

/// The lines of a text at a width, its tables alone laid out.
pub fn tables(alloc: Global, picture: &mut String, width: &str, text: &str) -> Result<(), Error> {
    let width = number(&mut width.split_whitespace());
    let skin = unstyled_skin();
    let mut lines = read_lines(alloc, text, &skin)?;
    fix_all_tables(alloc, &mut lines, width, &skin)?;
    Ok(push_lines(picture, &lines)?)
}

/// The lines of a text, some of them laid out as a table: the width, and the table's first line, height and columns. After
/// the lines comes the table.
pub fn fix(alloc: Global, picture: &mut String, words: &str, text: &str) -> Result<(), Error> {
    let mut words = words.split_whitespace();
    let width = number(&mut words);
    let mut table = Table {
        start: number(&mut words),
        height: number(&mut words),
        nbcols: number(&mut words),
    };
    push_fixed(alloc, picture, &mut table, width, text)?;
    Ok(write!(picture, "{table:?}")?)
}

fn push_fixed(
    alloc: Global,
    picture: &mut String,
    table: &mut Table,
    width: usize,
    text: &str,
) -> Result<(), Error> {
    let skin = unstyled_skin();
    let mut lines = read_lines(alloc, text, &skin)?;
    if table.start.saturating_add(table.height) <= lines.len() {
        table.fix_columns(alloc, &mut lines, width, &skin)?;
    }
    Ok(push_lines(picture, &lines)?)
}

/// The rows of a row, at widths of columns and after a colon the letters of their alignments.
pub fn row(alloc: Global, picture: &mut String, words: &str, text: &str) -> Result<(), Error> {
    let (widths, letters) = words.split_once(':').unwrap_or((words, ""));
    let widths = numbers(alloc, widths.split_whitespace())?;
    push_laid_row(alloc, picture, &widths, aligns(letters.trim()), text)
}

fn push_laid_row(
    alloc: Global,
    picture: &mut String,
    widths: &[usize],
    aligns: &[Alignment],
    text: &str,
) -> Result<(), Error> {
    let skin = unstyled_skin();
    let mut lines = read_lines(alloc, text, &skin)?.into_iter();
    if let Some(FmtLine::TableRow(row)) = lines.next() {
        for row in &lay_row(alloc, row, widths, aligns, &skin)? {
            push_row(picture, row)?;
        }
    }
    Ok(())
}

/// The widths and the alignments of a text's rules, each cut or filled up to a number of columns.
pub fn rules(alloc: Global, picture: &mut String, count: &str, text: &str) -> Result<(), Error> {
    let count = number(&mut count.split_whitespace());
    for line in read_lines(alloc, text, &unstyled_skin())? {
        if let FmtLine::TableRule(mut rule) = line {
            rule.set_nbcols(count)?;
            write!(picture, "{:?} {:?}\n", rule.widths, rule.aligns)?;
        }
    }
    Ok(())
}
