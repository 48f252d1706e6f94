//! Lines as texts for people to read.

use mad_format::{FmtComposite, FmtLine, FmtTableRow, FmtTableRule, RelativePosition};
use mad_md::{Alignment, Compound};
use std::alloc::AllocError;
use std::fmt::Write;

/// Puts a line of text: each compound between bars, after the letters of its flags.
pub fn push_compounds(picture: &mut String, line: &FmtComposite) -> Result<(), AllocError> {
    for compound in &line.compounds {
        picture.push_str(flags(compound))?;
        write!(picture, "|{}|", compound.src)?;
    }
    picture.push('\n')
}

fn flags(compound: &Compound) -> &'static str {
    match (compound.bold, compound.italic) {
        (true, true) => "bi",
        (true, false) => "b",
        (false, true) => "i",
        (false, false) => "",
    }
}

/// Puts a line of text after its margins.
pub fn push_margins(picture: &mut String, line: &FmtLine) -> Result<(), AllocError> {
    if let FmtLine::Normal(line) = line {
        write!(picture, "{:?} ", line.margins)?;
        push_compounds(picture, line)?;
    }
    Ok(())
}

/// Puts lines: of a row its cells, of a rule its position and its columns.
pub fn push_lines(picture: &mut String, lines: &[FmtLine]) -> Result<(), AllocError> {
    for line in lines {
        draw_line(picture, line)?;
    }
    Ok(())
}

fn draw_line(picture: &mut String, line: &FmtLine) -> Result<(), AllocError> {
    match line {
        FmtLine::Normal(composite) => push_cell(picture, composite)?,
        FmtLine::TableRow(row) => return push_row(picture, row),
        FmtLine::TableRule(rule) => push_rule(picture, rule)?,
        FmtLine::HorizontalRule => picture.push_str("---")?,
    }
    picture.push('\n')
}

/// Puts a row of a table: its cells.
pub fn push_row(picture: &mut String, row: &FmtTableRow) -> Result<(), AllocError> {
    picture.push_str("row")?;
    for cell in &row.cells {
        picture.push(' ')?;
        push_cell(picture, cell)?;
    }
    picture.push('\n')
}

/// Puts a composite: a star before each compound that is bold, and after the last its place, if it has one.
pub fn push_cell(picture: &mut String, cell: &FmtComposite) -> Result<(), AllocError> {
    for compound in &cell.compounds {
        picture.push_str(if compound.bold { "*" } else { "" })?;
        picture.push_str(compound.src)?;
    }
    match cell.spacing {
        Some(place) => push_column(picture, ':', place.width, place.align),
        None => Ok(()),
    }
}

fn push_rule(picture: &mut String, rule: &FmtTableRule) -> Result<(), AllocError> {
    picture.push_str(position(rule.position))?;
    for (width, align) in rule.widths.iter().zip(rule.aligns.iter()) {
        push_column(picture, ' ', *width, *align)?;
    }
    Ok(())
}

fn push_column(
    picture: &mut String,
    mark: char,
    width: usize,
    align: Alignment,
) -> Result<(), AllocError> {
    write!(picture, "{mark}{width}{}", letter(align))
}

fn position(position: RelativePosition) -> &'static str {
    match position {
        RelativePosition::Top => "top",
        RelativePosition::Other => "rule",
        RelativePosition::Bottom => "bottom",
    }
}

fn letter(align: Alignment) -> &'static str {
    match align {
        Alignment::Unspecified => "",
        Alignment::Left => "l",
        Alignment::Center => "c",
        Alignment::Right => "r",
    }
}
