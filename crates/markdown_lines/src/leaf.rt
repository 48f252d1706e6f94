//! What is shown of a leaf's text.

ghost use Rattle.std.specs.Prelude.{◌≡◌, ◌≤◌, ◌<◌, ◌+◌, [], ◌∷◌, ◌++◌, IfOk, OnOk, IsTrue, false, length, map, string_bytes};
ghost use Rattle.std.specs.List.{list_any};
ghost use Rattle.markdown_inlines.specs.Styled.{spelled_of, IsStyled};
ghost use Rattle.markdown_lines.specs.Glyphs.{glyph_of, trimmed};
ghost use Rattle.markdown_lines.specs.CutRows.{is_blank, is_pictured, AreUnpictured, IsAlone, IsNeat, whole_row, cut_rows, cut_numbers};
ghost use Rattle.markdown_lines.specs.Leaf.{shown_text, row_of, rows_of, leaf_rows, cell_runs, html_lines};
ghost use Rattle.markdown_lines.specs.LinkNumbers.{after_links, cell_numbers, html_numbers, leaf_numbers, row_numbers, rows_numbers};
ghost use Rattle.markdown_lines.specs.Links.{html_addresses, leaf_addresses};
ghost use Rattle.markdown_lines.specs.LinksOf.{defined_of};
ghost use Rattle.markdown_lines.specs.Said.{said};
ghost use Rattle.markdown_lines.specs.Shown.{shown};

use crate::glyphs::{Glyph, glyphs_of, trimmed};
use crate::lines::Lines;
use crate::links::{Definitions, push_addresses};
use crate::numbers::{push_numbers, sum};
use crate::runs::Runs;
use crate::whole_cells::push_cell;
use markdown_html_text::pieces::html_pieces;
use markdown_inlines::inlines::{cut_shown, leaf_text};
use markdown_inlines::printable::shown_char;
use markdown_inlines::styled::{Styled, TextRun};
use memchr::memchr;
use std::alloc::{AllocError, Global};

/// The text, each character as it is shown.
pub fn shown_text(alloc: Global, text: &str) -> Result<String, AllocError>
    ensures { IfOk result (λ shown. string_bytes shown ≡ shown_text text.now) }
{
    let mut shown = String::with_capacity(alloc, text.len())?;
    let mut rest = text.chars();
    while let Some(c) = rest.next() {
        shown.push(shown_char(c))?;
    }
    Ok(shown)
}

// Adds a row of these characters, and the numbers of its links.
#[tactic(auto, using(crate::proofs::NumberLemmas::after_none))]
fn push_row(
    alloc: Global,
    rows: &mut Lines,
    numbers: &mut Vec<usize>,
    row: &[Glyph],
) -> Result<(), AllocError>
    ensures rows { OnOk result (shown rows.new ≡ shown rows.old ++ row_of row.now ∷ []) }
    ensures numbers { OnOk result (numbers.new.items ≡ numbers.old.items ++ row_numbers row.now) }
{
    let shown = trimmed(row);
    push_numbers(numbers, 0, shown)?;
    rows.push_glyphs(alloc, shown)
}

// The rows of these characters: breaks cut them. It also adds the numbers of their links.
#[tactic(auto, unfolding(crate::specs::Leaf::rows_from, crate::specs::LinkNumbers::rows_numbers_from))]
fn rows_of(alloc: Global, numbers: &mut Vec<usize>, glyphs: &[Glyph]) -> Result<Lines, AllocError>
    ensures rows { IfOk result (λ rows. shown rows ≡ rows_of glyphs.now) }
    ensures numbers { OnOk result (numbers.new.items ≡ numbers.old.items ++ rows_numbers glyphs.now) }
{
    let mut rows = Lines::new(alloc);
    if glyphs.is_empty() {
        return Ok(rows);
    }
    let mut row = Vec::with_capacity(alloc, glyphs.len())?;
    let mut rest = glyphs;
    while let [glyph, next @ ..] = rest {
        rest = next;
        if glyph.c == '\n' {
            push_row(alloc, &mut rows, numbers, row.as_slice())?;
            row.clear();
            continue;
        }
        row.push(*glyph)?;
    }
    push_row(alloc, &mut rows, numbers, row.as_slice())?;
    Ok(rows)
}

/// What is shown of a leaf, and where its links lead.
#[derive(Drop)]
pub struct Leaf {
    pub rows: Lines,
    /// In the order of the links.
    pub addresses: Vec<String>,
    /// For each run that belongs to a link, the number of this link, in the order of the text.
    pub numbers: Vec<usize>,
}

// Whether it is a space or a break.
fn is_blank(byte: u8) -> bool
    ensures { result ≡ is_blank byte }
{
    byte == b' ' || byte == b'\n'
}

// Whether the bytes beside a place of a text are no blanks.
fn is_alone(text: &[u8], at: usize) -> bool
    requires { at < length text.now }
    ensures { IsTrue result → IsAlone text.now at }
{
    at > 0 && at + 1 < text.len() && !is_blank(text[at - 1]) && !is_blank(text[at + 1])
}

// Whether no row of a text begins or ends with a blank.
pub(crate) fn is_neat(text: &[u8]) -> bool
    ensures { IsTrue result → IsNeat text.now }
{
    if text.is_empty() {
        return false;
    }
    if is_blank(text[0]) {
        return false;
    }
    if is_blank(text[text.len() - 1]) {
        return false;
    }
    let mut from = 0;
    while let Some(skip) = memchr(b'\n', &text[from..]) {
        if !is_alone(text, from + skip) {
            return false;
        }
        from += skip + 1;
    }
    true
}

// Whether a picture says characters of these runs.
pub(crate) fn have_pictures(runs: &[TextRun]) -> bool
    ensures { result ≡ list_any is_pictured runs.now }
{
    runs.iter().any(|run| run.look.picture.is_some())
}

// Whether the rows of a text are those that breaks cut, and nothing is trimmed. No picture says any of it: there a break is a space.
fn is_cut(styled: &Styled) -> bool
    requires { IsStyled styled.now }
    ensures unpictured { IsTrue result → AreUnpictured styled.now.runs.items }
    ensures rows { IsTrue result → rows_of (trimmed (map (glyph_of false) (spelled_of styled.now))) ≡ map whole_row (cut_rows (map (glyph_of false) (spelled_of styled.now))) }
    ensures numbers { IsTrue result → rows_numbers (trimmed (map (glyph_of false) (spelled_of styled.now))) ≡ cut_numbers (cut_rows (map (glyph_of false) (spelled_of styled.now))) }
{
    if have_pictures(styled.runs.as_slice()) {
        return false;
    }
    is_neat(styled.text.as_str().as_bytes())
}

// The rows of what is shown of a leaf. It also adds the numbers of their links.
fn styled_rows(
    alloc: Global,
    numbers: &mut Vec<usize>,
    styled: &Styled,
) -> Result<Lines, AllocError>
    requires { IsStyled styled.now }
    ensures rows { IfOk result (λ rows. shown rows ≡ rows_of (trimmed (map (glyph_of false) (spelled_of styled.now)))) }
    ensures numbers { OnOk result (numbers.new.items ≡ numbers.old.items ++ rows_numbers (trimmed (map (glyph_of false) (spelled_of styled.now)))) }
{
    if is_cut(styled) {
        let mut rows = Lines::new(alloc);
        rows.push_styled(numbers, styled)?;
        return Ok(rows);
    }
    let glyphs = glyphs_of(alloc, false, styled)?;
    rows_of(alloc, numbers, trimmed(glyphs.as_slice()))
}

/// The rows of a leaf with this text, where its links lead, and which runs belong to them.
///
/// # Errors
///
/// Out of memory is the only error.
#[tactic(auto, unfolding(crate::specs::Leaf::leaf_rows, crate::specs::LinkNumbers::leaf_numbers))]
pub fn read_leaf(alloc: Global, definitions: &Definitions, text: &str) -> Result<Leaf, AllocError>
    ensures rows { IfOk result (λ leaf. shown leaf.rows ≡ leaf_rows (defined_of definitions.now).labels text.now) }
    ensures addresses { IfOk result (λ leaf. map string_bytes leaf.addresses.items ≡ leaf_addresses (defined_of definitions.now) text.now) }
    ensures numbers { IfOk result (λ leaf. leaf.numbers.items ≡ leaf_numbers (defined_of definitions.now).labels text.now) }
{
    let leaf = leaf_text(alloc, &definitions.labels, text)?;
    let mut numbers = Vec::new(alloc);
    let rows = styled_rows(alloc, &mut numbers, &leaf.styled)?;
    let mut addresses = Vec::new(alloc);
    push_addresses(
        alloc,
        &mut addresses,
        &definitions.addresses,
        text,
        &leaf.links,
    )?;
    Ok(Leaf {
        rows,
        addresses,
        numbers,
    })
}

/// Adds the runs of a cell with this text, in bold or as they are. It also adds where the links of the cell lead, and for each run that belongs to
/// one its number: so many links come before these addresses.
///
/// # Errors
///
/// Out of memory, which a number past `usize::MAX` is too.
#[tactic(auto, unfolding(crate::specs::Leaf::cell_runs, crate::specs::LinkNumbers::cell_numbers))]
pub fn read_cell(
    alloc: Global,
    runs: &mut Runs,
    addresses: &mut Vec<String>,
    numbers: &mut Vec<usize>,
    before: usize,
    definitions: &Definitions,
    bold: bool,
    text: &str,
) -> Result<(), AllocError>
    ensures runs { OnOk result (said runs.new ≡ said runs.old ++ cell_runs (defined_of definitions.now).labels bold text.now) }
    ensures grows { length (said runs.old) ≤ length (said runs.new) }
    ensures addresses { OnOk result (map string_bytes addresses.new.items ≡ map string_bytes addresses.old.items ++ leaf_addresses (defined_of definitions.now) text.now) }
    ensures numbers { OnOk result (numbers.new.items ≡ numbers.old.items ++ after_links (length addresses.old.items + before) (cell_numbers (defined_of definitions.now).labels bold text.now)) }
{
    let leaf = leaf_text(alloc, &definitions.labels, text)?;
    let links = sum(addresses.len(), before)?;
    push_cell(alloc, runs, numbers, links, bold, &leaf.styled)?;
    push_addresses(alloc, addresses, &definitions.addresses, text, &leaf.links)?;
    Ok(())
}

/// The rows of a leaf of html with this text, where its links lead, and which runs belong to them.
///
/// # Errors
///
/// Out of memory is the only error.
#[tactic(auto, unfolding(crate::specs::Leaf::html_lines, crate::specs::LinkNumbers::html_numbers))]
pub fn read_html(alloc: Global, text: &str) -> Result<Leaf, AllocError>
    ensures rows { IfOk result (λ leaf. shown leaf.rows ≡ html_lines text.now) }
    ensures addresses { IfOk result (λ leaf. map string_bytes leaf.addresses.items ≡ html_addresses text.now) }
    ensures numbers { IfOk result (λ leaf. leaf.numbers.items ≡ html_numbers text.now) }
{
    let pieces = html_pieces(alloc, text)?;
    let leaf = cut_shown(alloc, text, &pieces, &[])?;
    let mut numbers = Vec::new(alloc);
    let rows = styled_rows(alloc, &mut numbers, &leaf.styled)?;
    let mut addresses = Vec::new(alloc);
    push_addresses(alloc, &mut addresses, &[], text, &leaf.links)?;
    Ok(Leaf {
        rows,
        addresses,
        numbers,
    })
}
