//! Tables.

ghost use Rattle.std.specs.Prelude.{◌≡◌, ◌+◌, ◌++◌, true, false, OnOk, map, length, ◌∷◌, []};
ghost use Rattle.markdown_marks.specs.Remaining.{remaining};
ghost use Rattle.markdown_lines.specs.Shown.{shown};
ghost use Rattle.markdown_lines.specs.Links.{links_at};
ghost use Rattle.markdown_lines.specs.LinksOf.{defined_of, link_of};
ghost use Rattle.markdown_lines.specs.TableNumbers.{line_numbers, lines_numbers, ruled_numbers, table_numbers};
ghost use Rattle.markdown_lines.specs.Tables.{shown_cells, row_said, row_addresses, body, rows_links, ruled, table_lines, table_links};

use crate::lines::Lines;
use crate::links::{Definitions, Link, push_links};
use mad_md::Alignment;
use markdown_cells::cells::{alignments, row_of};
use markdown_marks::rest::Rest;
use markdown_marks::tables::cell_count;
use std::alloc::{AllocError, Global};

// How many cells are shown of a row.
fn shown_cells(columns: usize, bytes: &[u8]) -> usize
    ensures { result ≡ shown_cells columns bytes.now }
{
    let count = cell_count(bytes);
    if count < columns { count } else { columns }
}

// Adds a row, its links, and their numbers: so many links come before.
fn push_row(
    alloc: Global,
    lines: &mut Lines,
    links: &mut Vec<Link>,
    numbers: &mut Vec<usize>,
    definitions: &Definitions,
    columns: usize,
    bold: bool,
    line: Rest<'_>,
) -> Result<(), AllocError>
    ensures line { OnOk result (shown lines.new ≡ shown lines.old ++ row_said (defined_of definitions.now).labels bold columns (remaining line.entry) ∷ []) }
    ensures links { OnOk result (map link_of links.new.items ≡ map link_of links.old.items ++ links_at (length (shown lines.old)) (row_addresses (defined_of definitions.now) columns (remaining line.entry))) }
    ensures numbers { OnOk result (numbers.new.items ≡ numbers.old.items ++ line_numbers (defined_of definitions.now) bold (length links.old.items) columns (remaining line.entry)) }
{
    let at = lines.count();
    let cells = shown_cells(columns, line.bytes);
    let addresses = lines.push_table_row(
        alloc,
        numbers,
        links.len(),
        definitions,
        cells,
        bold,
        row_of(line.bytes),
    )?;
    push_links(links, at, addresses)
}

// Adds rows, their links, and the numbers of these.
#[tactic(auto, unfolding(crate::specs::Tables::rows_links, crate::specs::TableNumbers::lines_numbers), using(crate::proofs::LinkLemmas::one_more, crate::proofs::NumberLemmas::links_more))]
fn push_rows(
    alloc: Global,
    lines: &mut Lines,
    links: &mut Vec<Link>,
    numbers: &mut Vec<usize>,
    definitions: &Definitions,
    columns: usize,
    rows: &[Rest<'_>],
) -> Result<(), AllocError>
    ensures lines { OnOk result (shown lines.new ≡ shown lines.old ++ map (row_said (defined_of definitions.now).labels false columns) (map remaining rows.now)) }
    ensures links { OnOk result (map link_of links.new.items ≡ map link_of links.old.items ++ rows_links (defined_of definitions.now) columns (length (shown lines.old)) (map remaining rows.now)) }
    ensures numbers { OnOk result (numbers.new.items ≡ numbers.old.items ++ lines_numbers (defined_of definitions.now) (length links.old.items) columns (map remaining rows.now)) }
{
    let mut rest = rows;
    while let [line, next @ ..] = rest {
        push_row(
            alloc,
            lines,
            links,
            numbers,
            definitions,
            columns,
            false,
            *line,
        )?;
        rest = next;
    }
    Ok(())
}

// The rows below the head.
#[tactic(auto, unfolding(crate::specs::Tables::rows_links, crate::specs::TableNumbers::lines_numbers), using(crate::proofs::LinkLemmas::one_more, crate::proofs::NumberLemmas::links_more))]
fn push_body(
    alloc: Global,
    lines: &mut Lines,
    links: &mut Vec<Link>,
    numbers: &mut Vec<usize>,
    definitions: &Definitions,
    columns: usize,
    rule: &[Alignment],
    rows: &[Rest<'_>],
) -> Result<(), AllocError>
    ensures lines { OnOk result (shown lines.new ≡ shown lines.old ++ body (defined_of definitions.now).labels columns rule.now (map remaining rows.now)) }
    ensures links { OnOk result (map link_of links.new.items ≡ map link_of links.old.items ++ rows_links (defined_of definitions.now) columns (length (shown lines.old) + 1) (map remaining rows.now)) }
    ensures numbers { OnOk result (numbers.new.items ≡ numbers.old.items ++ lines_numbers (defined_of definitions.now) (length links.old.items) columns (map remaining rows.now)) }
{
    if rows.is_empty() {
        return Ok(());
    }
    lines.push_table_rule(alloc, rule)?;
    push_rows(alloc, lines, links, numbers, definitions, columns, rows)
}

// A table with this rule.
fn push_ruled(
    alloc: Global,
    lines: &mut Lines,
    links: &mut Vec<Link>,
    numbers: &mut Vec<usize>,
    definitions: &Definitions,
    columns: usize,
    rule: &[Alignment],
    head: Rest<'_>,
    rows: &[Rest<'_>],
) -> Result<(), AllocError>
    ensures lines { OnOk result (shown lines.new ≡ shown lines.old ++ ruled (defined_of definitions.now).labels columns rule.now (remaining head.entry) (map remaining rows.now)) }
    ensures links { OnOk result (map link_of links.new.items ≡ map link_of links.old.items ++ (links_at (length (shown lines.old) + 1) (row_addresses (defined_of definitions.now) columns (remaining head.entry)) ++ rows_links (defined_of definitions.now) columns (length (shown lines.old) + 3) (map remaining rows.now))) }
    ensures numbers { OnOk result (numbers.new.items ≡ numbers.old.items ++ ruled_numbers (defined_of definitions.now) (length links.old.items) columns (remaining head.entry) (map remaining rows.now)) }
{
    lines.push_table_rule(alloc, rule)?;
    push_row(
        alloc,
        lines,
        links,
        numbers,
        definitions,
        columns,
        true,
        head,
    )?;
    push_body(
        alloc,
        lines,
        links,
        numbers,
        definitions,
        columns,
        rule,
        rows,
    )?;
    lines.push_table_rule(alloc, rule)
}

/// Adds a table and its links: its head, its row of delimiters, and then its rows. It also adds the number of its link for each run that belongs to
/// one.
///
/// # Errors
///
/// Out of memory, which a number past `usize::MAX` is too.
#[tactic(auto, unfolding(crate::specs::Tables::table_lines))]
pub fn push_table(
    alloc: Global,
    lines: &mut Lines,
    links: &mut Vec<Link>,
    numbers: &mut Vec<usize>,
    definitions: &Definitions,
    columns: usize,
    table: &[Rest<'_>],
) -> Result<(), AllocError>
    ensures lines { OnOk result (shown lines.new ≡ shown lines.old ++ table_lines (defined_of definitions.now).labels columns (map remaining table.now)) }
    ensures links { OnOk result (map link_of links.new.items ≡ map link_of links.old.items ++ table_links (defined_of definitions.now) columns (length (shown lines.old)) (map remaining table.now)) }
    ensures numbers { OnOk result (numbers.new.items ≡ numbers.old.items ++ table_numbers (defined_of definitions.now) (length links.old.items) columns (map remaining table.now)) }
{
    match table {
        [head, delimiters, rows @ ..] => {
            let rule = alignments(alloc, columns, row_of(delimiters.bytes))?;
            push_ruled(
                alloc,
                lines,
                links,
                numbers,
                definitions,
                columns,
                &rule,
                *head,
                rows,
            )
        }
        _ => Ok(()),
    }
}
