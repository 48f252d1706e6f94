//! Signs in front of what is said of pictures.

ghost use Rattle.std.specs.Prelude.{◌≡◌, ◌++◌, IfOk, OnOk, map, option_map, string_bytes};
ghost use Rattle.mad_md.specs.Flagged.{run_of};
ghost use Rattle.mad_md.specs.Lines.{content_of, styled_runs};
ghost use Rattle.mad_sections.specs.Sections.{section_content};
ghost use Rattle.mad_dressing.specs.PictureSigns.{cells_say_picture, have_pictures, pictured, pictured_line, pictured_runs, pictured_text, say_picture, says_picture, sign_for, sign_if, sign_text};

use crate::marked_sections::begin_code;
use mad_md::{Composite, Compound, Line, TableRow, TableRule, Text};
use mad_sections::Section;
use std::alloc::{AllocError, Global};

/// The sign and a space, as a text, if lines say anything of a picture.
///
/// # Errors
///
/// Out of memory is the only error.
pub(crate) fn sign_for(
    alloc: Global,
    lines: &[Line<'_>],
    sign: char,
) -> Result<Option<String>, AllocError>
    ensures { IfOk result (λ made. option_map string_bytes made ≡ sign_for sign (map content_of lines.now)) }
{
    if begin_code(lines) || !have_pictures(lines) {
        return Ok(None);
    }
    let text = sign_text(alloc, sign)?;
    Ok(Some(text))
}

fn sign_text(alloc: Global, sign: char) -> Result<String, AllocError>
    ensures { IfOk result (λ text. string_bytes text ≡ sign_text sign) }
{
    let mut text = String::new(alloc);
    text.push(sign)?;
    text.push(' ')?;
    Ok(text)
}

// Whether a line says anything of a picture.
fn have_pictures(lines: &[Line<'_>]) -> bool
    ensures { result ≡ have_pictures (map content_of lines.now) }
{
    let mut rest = lines;
    while let [line, next @ ..] = rest {
        if says_picture(line) {
            return true;
        }
        rest = next;
    }
    false
}

fn says_picture(line: &Line<'_>) -> bool
    ensures { result ≡ says_picture (content_of line.now) }
{
    match line {
        Line::Normal(composite) => say_picture(&composite.compounds),
        Line::TableRow(row) => cells_say_picture(&row.cells),
        _ => false,
    }
}

// Whether one of the cells does.
fn cells_say_picture(cells: &[Composite<'_>]) -> bool
    ensures { result ≡ cells_say_picture (map styled_runs cells.now) }
{
    let mut rest = cells;
    while let [cell, next @ ..] = rest {
        if say_picture(&cell.compounds) {
            return true;
        }
        rest = next;
    }
    false
}

// Whether one of the compounds is what is said of a picture.
fn say_picture(compounds: &[Compound<'_>]) -> bool
    ensures { result ≡ say_picture (map run_of compounds.now) }
{
    let mut rest = compounds;
    while let [compound, next @ ..] = rest {
        if compound.picture {
            return true;
        }
        rest = next;
    }
    false
}

/// A section with the sign in front of what is said of each picture, or as it is. None of its text changes.
///
/// # Errors
///
/// Out of memory is the only error.
pub(crate) fn pictured<'s>(
    alloc: Global,
    section: Section<'s>,
    sign: &'s Option<String>,
) -> Result<Section<'s>, AllocError>
    ensures { IfOk result (λ own. section_content own ≡ pictured (option_map string_bytes sign.entry.now) (section_content section.entry)) }
{
    match sign {
        None => Ok(section),
        Some(sign) => {
            let lines = pictured_lines(alloc, &section.text.lines, sign.as_str())?;
            Ok(Section {
                text: Text { lines },
                ..section
            })
        }
    }
}

// Lines with the sign in front of what is said of each picture.
fn pictured_lines<'s>(
    alloc: Global,
    lines: &[Line<'s>],
    sign: &'s str,
) -> Result<Vec<Line<'s>>, AllocError>
    ensures { IfOk result (λ shown. map content_of shown.items ≡ map (pictured_line sign.entry.now) (map content_of lines.now)) }
{
    let mut shown = Vec::new(alloc);
    let mut rest = lines;
    while let [line, next @ ..] = rest {
        shown.push(pictured_line(alloc, line, sign)?)?;
        rest = next;
    }
    Ok(shown)
}

fn pictured_line<'s>(alloc: Global, line: &Line<'s>, sign: &'s str) -> Result<Line<'s>, AllocError>
    ensures { IfOk result (λ shown. content_of shown ≡ pictured_line sign.entry.now (content_of line.now)) }
{
    match line {
        Line::Normal(composite) => {
            let shown = pictured_composite(alloc, composite, sign)?;
            Ok(Line::Normal(shown))
        }
        Line::TableRow(row) => {
            let cells = pictured_cells(alloc, &row.cells, sign)?;
            Ok(Line::TableRow(TableRow { cells }))
        }
        Line::TableRule(rule) => {
            let cells = Vec::from_slice(alloc, &rule.cells)?;
            Ok(Line::TableRule(TableRule { cells }))
        }
        Line::HorizontalRule => Ok(Line::HorizontalRule),
    }
}

// A row's cells, each for itself.
fn pictured_cells<'s>(
    alloc: Global,
    cells: &[Composite<'s>],
    sign: &'s str,
) -> Result<Vec<Composite<'s>>, AllocError>
    ensures { IfOk result (λ shown. map styled_runs shown.items ≡ map (pictured_text sign.entry.now) (map styled_runs cells.now)) }
{
    let mut shown = Vec::new(alloc);
    let mut rest = cells;
    while let [cell, next @ ..] = rest {
        shown.push(pictured_composite(alloc, cell, sign)?)?;
        rest = next;
    }
    Ok(shown)
}

fn pictured_composite<'s>(
    alloc: Global,
    composite: &Composite<'s>,
    sign: &'s str,
) -> Result<Composite<'s>, AllocError>
    ensures { IfOk result (λ shown. styled_runs shown ≡ pictured_text sign.entry.now (styled_runs composite.now)) }
{
    let mut compounds = Vec::new(alloc);
    push_pictured(&mut compounds, &composite.compounds, sign)?;
    Ok(Composite {
        style: composite.style,
        compounds,
    })
}

// Puts a text behind what is there, with the sign in front of what is said of each picture.
fn push_pictured<'s>(
    compounds: &mut Vec<Compound<'s>>,
    text: &[Compound<'s>],
    sign: &'s str,
) -> Result<(), AllocError>
    ensures { OnOk result (map run_of compounds.new.items ≡ map run_of compounds.old.items ++ pictured_runs sign.now (map run_of text.now)) }
{
    let mut rest = text;
    while let [compound, next @ ..] = rest {
        push_sign(compounds, compound.picture, sign)?;
        compounds.push(*compound)?;
        rest = next;
    }
    Ok(())
}

// Puts the sign behind what is there, if it is there. Its space is no place to break a row, as none of code is.
fn push_sign<'s>(
    compounds: &mut Vec<Compound<'s>>,
    there: bool,
    sign: &'s str,
) -> Result<(), AllocError>
    ensures { OnOk result (map run_of compounds.new.items ≡ map run_of compounds.old.items ++ sign_if there sign.now) }
{
    if there {
        compounds.push(Compound::raw_str(sign).code().picture_sign())?;
    }
    Ok(())
}
