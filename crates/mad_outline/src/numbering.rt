//! Numbers of links on a screen, each where its link begins.

ghost use Rattle.std.specs.Prelude.{◌≡◌, ◌++◌, [], IfOk, OnOk, ℕ};
ghost use Rattle.mad_outline.specs.LinkNumbers.{link_numbers, rows_between, section_numbers};
ghost use Rattle.mad_outline.specs.Sources.{links_between};

use crate::links::{links_before, sum};
use mad_format::FmtLine;
use mad_link_places::{LinkPlace, Spot, push_section_places};
use mad_search::start_at;
use markdown_reader::Markdown;
use std::alloc::{AllocError, Global};

/// The links that begin on a screen, of those that sections from one index on up to another have. It shows so many rows of a page, from the row `top` on, and
/// sections begin in the rows `starts`.
///
/// # Errors
///
/// Out of memory is the only error.
pub fn link_numbers(
    alloc: Global,
    markdown: &Markdown,
    from: usize,
    to: usize,
    lines: &[FmtLine],
    starts: &[usize],
    top: usize,
    height: usize,
) -> Result<Vec<LinkPlace>, AllocError>
    ensures { IfOk result (λ places. places.items ≡ link_numbers (links_between markdown.now [] from to) lines.now starts.now top height) }
{
    let mut places = Vec::new(alloc);
    for section in from..to {
        push_numbers(
            alloc,
            &mut places,
            markdown,
            from,
            section,
            lines,
            starts,
            top,
            height,
        )?;
    }
    Ok(places)
}

// Puts those of a section after others.
fn push_numbers(
    alloc: Global,
    places: &mut Vec<LinkPlace>,
    markdown: &Markdown,
    from: usize,
    section: usize,
    lines: &[FmtLine],
    starts: &[usize],
    top: usize,
    height: usize,
) -> Result<(), AllocError>
    ensures { OnOk result ((to : ℕ) → places.new.items ≡ places.old.items ++ section_numbers (links_between markdown.now [] from to) lines.now starts.now top height section) }
{
    let marks = markdown.link_marks(alloc, section)?;
    let row = start_at(starts, section);
    let behind = sum(section, 1)?;
    let end = sum(top, height)?;
    let spot = Spot {
        marks: marks.as_slice(),
        before: links_before(markdown.links(), from, section),
        row,
    };
    push_section_places(
        places,
        spot,
        top.saturating_sub(row),
        end.saturating_sub(row.max(top)),
        rows_between(lines, row, start_at(starts, behind)),
    )
}

// The lines of rows from one on up to another.
fn rows_between<'l, 's>(lines: &'l [FmtLine<'s>], from: usize, to: usize) -> &'l [FmtLine<'s>]
    ensures { result.now ≡ rows_between from to lines.entry.now }
{
    let rest = &lines[from.min(lines.len())..];
    &rest[..to.saturating_sub(from).min(rest.len())]
}
