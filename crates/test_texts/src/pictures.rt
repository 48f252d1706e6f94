//! Pictures of lines: a form, and then its compounds in quotes, each after its flags. `tools/grammar_page` copies those of
//! `data/grammar.txt` to docs/GRAMMAR.md.

use mad_md::{Alignment, Composite, CompositeStyle, Compound, Line};
use std::alloc::AllocError;
use std::fmt::Write;

fn draw_style(picture: &mut String, style: CompositeStyle) -> Result<(), AllocError> {
    match style {
        CompositeStyle::OrderedListItem { level, index } => {
            write!(picture, "OrderedListItem({level}, {index})")
        }
        _ => write!(picture, "{style:?}"),
    }
}

fn flag(is_on: bool, name: &'static str) -> &'static str {
    if is_on { name } else { "" }
}

/// Appends a compound.
pub(crate) fn draw_compound(picture: &mut String, compound: &Compound) -> Result<(), AllocError> {
    let bold = flag(compound.bold, "bold ");
    let italic = flag(compound.italic, "italic ");
    let code = flag(compound.code, "code ");
    let strikeout = flag(compound.strikeout, "strikeout ");
    let link = flag(compound.link, "link ");
    write!(
        picture,
        "{bold}{italic}{code}{strikeout}{link}'{}'",
        compound.src
    )
}

/// Appends compounds, with a text before the first.
pub(crate) fn draw_compounds(
    picture: &mut String,
    before: &str,
    compounds: &[Compound],
) -> Result<(), AllocError> {
    let mut between = before;
    for compound in compounds {
        picture.push_str(between)?;
        draw_compound(picture, compound)?;
        between = ", ";
    }
    Ok(())
}

/// Appends a composite: its form, and then its compounds.
pub(crate) fn draw_composite(
    picture: &mut String,
    composite: &Composite,
) -> Result<(), AllocError> {
    draw_style(picture, composite.style)?;
    draw_compounds(picture, " ", &composite.compounds)
}

fn draw_row(picture: &mut String, cells: &[Composite]) -> Result<(), AllocError> {
    let mut between = "TableRow(";
    for cell in cells {
        picture.push_str(between)?;
        draw_composite(picture, cell)?;
        between = " | ";
    }
    picture.push_str(if cells.is_empty() { "TableRow()" } else { ")" })
}

fn draw_rule(picture: &mut String, alignments: &[Alignment]) -> Result<(), AllocError> {
    let mut between = "TableRule(";
    for alignment in alignments {
        write!(picture, "{between}{alignment:?}")?;
        between = ", ";
    }
    picture.push_str(")")
}

fn draw_line(picture: &mut String, line: &Line) -> Result<(), AllocError> {
    match line {
        Line::Normal(composite) => draw_composite(picture, composite),
        Line::TableRow(row) => draw_row(picture, &row.cells),
        Line::TableRule(rule) => draw_rule(picture, &rule.cells),
        Line::HorizontalRule => picture.push_str("HorizontalRule"),
    }
}

/// Appends lines.
pub(crate) fn draw_lines(picture: &mut String, lines: &[Line]) -> Result<(), AllocError> {
    for line in lines {
        draw_line(picture, line)?;
        picture.push('\n')?;
    }
    Ok(())
}

/// Appends numbers, with a blank before each.
pub(crate) fn draw_numbers(picture: &mut String, numbers: &[usize]) -> Result<(), AllocError> {
    for number in numbers {
        write!(picture, " {number}")?;
    }
    Ok(())
}
