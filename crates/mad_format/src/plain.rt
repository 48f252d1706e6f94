//! Wrapping a plain text.

ghost use Rattle.std.specs.Prelude.{◌≡◌, ◌≤◌, ◌<◌, ◌++◌, List, ℕ, map, chars, IfOk, IfErr, OnOk};
ghost use Rattle.mad_md.specs.Lines.{content_of};
ghost use Rattle.mad_md.specs.ReadRaw.{unflagged_line};
ghost use Rattle.mad_wrap.specs.WrapLines.{compounds_of};
ghost use Rattle.mad_format.specs.PlainWraps.{chars_of, AreFronts, IsFront, IsPlainWrap, IsTextWrap};
ghost use Rattle.mad_term.specs.declared.errors.Error.TheVariants.{InsufficientWidth, Memory};

use crate::room::{Room, check_width};
use mad_md::{Compound, Line, Text};
use mad_measure::columns_within;
use mad_term::Error;
use mad_wrap::{WrappedLine, wrap_compounds};
use std::alloc::{AllocError, Global};

/// The lines of a plain text at a width in columns, as slices of it: no mark is read, and nothing is indented.
///
/// The text is cut at each newline, as [`Text::raw_str`] cuts it. A line that fits stays as it is, and any other is wrapped by itself.
/// No character is lost but whitespace at the breaks and at the end of a wrapped line. Where each character fits, each line does. No
/// fitting break of a line has fewer lines. A run of characters without whitespace is broken only where it is wider than the width.
///
/// The time is linear in the text.
///
/// # Errors
///
/// A width under 3 is refused, whatever the text is. The only other error is out of memory.
pub fn wrap_text<'s>(alloc: Global, text: &'s str, width: usize) -> Result<Vec<&'s str>, Error>
    ensures wrapped { IfOk result (λ lines. IsTextWrap width text.entry.now (map (λ l. l.now) lines.items)) }
    ensures refused { width < 3 → result ≡ Err (InsufficientWidth (record { available_width = width })) }
    ensures memory { 3 ≤ width → IfErr result (λ e. e ≡ Memory) }
{
    check_width(width)?;
    Ok(wrap_parts(alloc, text, width)?)
}

// The lines at any width.
fn wrap_parts<'s>(alloc: Global, text: &'s str, width: usize) -> Result<Vec<&'s str>, AllocError>
    ensures { IfOk result (λ lines. IsTextWrap width text.entry.now (map (λ l. l.now) lines.items)) }
{
    let parts = Text::raw_str(alloc, text)?;
    let mut lines = Vec::new(alloc);
    for part in &parts.lines {
        push_wrap(alloc, &mut lines, raw_text(part), width)?;
    }
    Ok(lines)
}

// The text of a line that was read without a look at its marks.
fn raw_text<'s>(line: &Line<'s>) -> &'s str
    ensures { (text : List ℕ) → content_of line.now ≡ unflagged_line text → result.now ≡ text }
{
    match line {
        Line::Normal(composite) => composite.compounds.first().map_or("", |p| p.src),
        _ => "",
    }
}

// Puts what a line becomes after the lines that are there.
fn push_wrap<'s>(
    alloc: Global,
    lines: &mut Vec<&'s str>,
    line: &'s str,
    width: usize,
) -> Result<(), AllocError>
    ensures { OnOk result ((own : List (List ℕ)) × (map (λ l. l.now) lines.new.items ≡ map (λ l. l.now) lines.old.items ++ own) × IsPlainWrap width line.entry.now own) }
{
    if columns_within(line, width).is_some() {
        lines.push(line)?;
        return Ok(());
    }
    let room = Room {
        first: 0,
        other: 0,
        width,
        whole_words: false,
    };
    let wrap = wrap_compounds(alloc, &[Compound::raw_str(line)], room)?;
    push_fronts(lines, line, wrap)
}

// Puts wrapped lines, as the slices of the text that they are, after the lines that are there.
fn push_fronts<'s>(
    lines: &mut Vec<&'s str>,
    text: &'s str,
    wrap: Vec<WrappedLine<'s>>,
) -> Result<(), AllocError>
    requires { AreFronts (chars text.now) (compounds_of wrap.items) }
    ensures { OnOk result ((own : List (List ℕ)) × (map (λ l. l.now) lines.new.items ≡ map (λ l. l.now) lines.old.items ++ own) × (map chars own ≡ map chars_of (compounds_of wrap.entry.items))) }
{
    let mut rest = text;
    for line in wrap {
        let (front, after) = cut_front(rest, &line.compounds);
        lines.push(front)?;
        rest = after.trim_start();
    }
    Ok(())
}

// The front of a text that these compounds are, and what comes after it.
fn cut_front<'s>(text: &'s str, compounds: &[Compound]) -> (&'s str, &'s str)
    requires { IsFront (chars text.now) compounds.now }
    ensures front { chars result.0.now ≡ chars_of compounds.now }
    ensures after { chars text.entry.now ≡ chars result.0.now ++ chars result.1.now }
{
    let mut after = text;
    for compound in compounds {
        after = &after[compound.src.len()..];
    }
    text.split_at(text.len() - after.len())
}
