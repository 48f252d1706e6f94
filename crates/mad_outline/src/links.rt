//! Links in lines: each with its number, its text and its address.

ghost use Rattle.std.specs.Prelude.{◌≡◌, ◌++◌, ◌+◌, ◌-◌, ◌∷◌, [], if◌then◌else◌, IfOk, OnOk, ℕ, drop, map, take};
ghost use Rattle.std.specs.List.{flat_map, range_with_len};
ghost use Rattle.mad_link_marks.specs.LinkMarks.{first_link};
ghost use Rattle.mad_md.specs.Flagged.{run_of};
ghost use Rattle.mad_md.specs.Lines.{content_of, contents, styled_runs};
ghost use Rattle.mad_outline.specs.LinkLists.{is_in, is_link_text, line_runs, lines_at, link_lines, link_runs, links_before, links_lines, links_listed, marks_up_to, nth_from, number_after, row_runs, runs_with, section_links, section_listed};
ghost use Rattle.mad_outline.specs.Sources.{links_between};
ghost use Rattle.mad_sections.specs.Sections.{page_content};
ghost use Rattle.markdown_reader.specs.MarkdownSays.{link_said, markdown_says};

use crate::sources::raw_line;
use mad_mark_runs::{MarkRun, count_of};
use mad_md::{Composite, CompositeStyle, Compound, Line, Text};
use mad_sections::Page;
use markdown_reader::{Link, Markdown};
use std::alloc::{AllocError, Global};

/// The name of the page that has them.
pub const LINKS_NAME: &str = "links";

/// The name of a text whose links have numbers where they stand.
pub const NUMBERS_NAME: &str = "links: a number and Enter opens one, l lists them";

/// What it says where there is none.
pub const NO_LINKS: &str = "No link is on the screen.";

/// What it says of a text that can't have some.
pub const NEVER_LINKS: &str = "No links are read of this text.";

// The mark of a section's first link.
const FIRST_LINK: usize = 9;

/// The links that sections from one index on up to another have, as a text: of each its text, as an item with its number, and below that its address.
///
/// # Errors
///
/// Out of memory is the only error.
pub fn links_text<'s>(
    alloc: Global,
    markdown: &'s Markdown,
    from: usize,
    to: usize,
) -> Result<Text<'s>, AllocError>
    ensures { IfOk result (λ text. contents text ≡ links_listed (links_between markdown.entry.now [] from to)) }
{
    let mut lines = links_in_lines(alloc, markdown, from, to)?;
    if lines.is_empty() {
        lines.push(raw_line(alloc, CompositeStyle::Paragraph, NO_LINKS)?)?;
        return Ok(Text { lines });
    }
    Ok(Text { lines })
}

// The links that sections have, in lines.
fn links_in_lines<'s>(
    alloc: Global,
    markdown: &'s Markdown,
    from: usize,
    to: usize,
) -> Result<Vec<Line<'s>>, AllocError>
    ensures { IfOk result (λ lines. map content_of lines.items ≡ flat_map (section_listed (links_between markdown.entry.now [] from to)) (range_with_len from (to - from))) }
{
    let page = markdown.page(alloc)?;
    let mut lines = Vec::new(alloc);
    for section in from..to {
        push_section(alloc, &mut lines, markdown, &page, from, section)?;
    }
    Ok(lines)
}

// Puts the links of a section after others, where those of sections from one on have numbers.
fn push_section<'s>(
    alloc: Global,
    lines: &mut Vec<Line<'s>>,
    markdown: &'s Markdown,
    page: &Page<'s>,
    from: usize,
    section: usize,
) -> Result<(), AllocError>
    requires { page_content page.now ≡ markdown_says markdown.now }
    ensures { OnOk result ((to : ℕ) → map content_of lines.new.items ≡ map content_of lines.old.items ++ section_listed (links_between markdown.entry.now [] from to) section) }
{
    let links = links_of(alloc, markdown.links(), section)?;
    let marks = markdown.link_marks(alloc, section)?;
    let runs = runs_at(alloc, page, section)?;
    push_links(
        alloc,
        lines,
        links_before(markdown.links(), from, section),
        marks.as_slice(),
        runs.as_slice(),
        links.as_slice(),
    )
}

// The links of a section.
fn links_of<'s>(
    alloc: Global,
    links: &'s [Link],
    section: usize,
) -> Result<Vec<&'s Link>, AllocError>
    ensures { IfOk result (λ own. map (λ l. link_said l.now) own.items ≡ section_links section (map link_said links.entry.now)) }
{
    let mut own = Vec::new(alloc);
    let mut left = links;
    'left: while let [link, rest @ ..] = left {
        push_if(&mut own, link, link.section == section)?;
        left = rest;
    }
    Ok(own)
}

// Puts a link after others, or not.
fn push_if<'s>(own: &mut Vec<&'s Link>, link: &'s Link, is_own: bool) -> Result<(), AllocError>
    ensures { OnOk result (map (λ l. link_said l.now) own.new.items ≡ map (λ l. link_said l.now) own.old.items ++ (if is_own then link_said link.entry.now ∷ [] else [])) }
{
    if is_own {
        own.push(link)?;
        return Ok(());
    }
    Ok(())
}

/// How many links of sections from one index on come before those of another.
pub fn links_before(links: &[Link], from: usize, section: usize) -> usize
    ensures { result ≡ links_before from section (map link_said links.now) }
{
    links
        .iter()
        .filter(|link| is_in(*link, from, section))
        .count()
}

// Whether the section of a link is one of those from one on up to another.
fn is_in(link: &Link, from: usize, to: usize) -> bool
    ensures { result ≡ is_in from to (link_said link.now) }
{
    from <= link.section && link.section < to
}

/// The index of the link that has this number, counted from 1, among those of sections from one index on up to another.
pub fn nth_link(links: &[Link], from: usize, to: usize, number: usize) -> Option<usize>
    ensures { result ≡ nth_from from to number 0 (map link_said links.now) }
{
    let mut left = number;
    let mut index: usize = 0;
    while index < links.len() {
        if is_in(&links[index], from, to) {
            if left == 1 {
                return Some(index);
            }
            left = left.saturating_sub(1);
        }
        index += 1;
    }
    None
}

// The runs of a section that belong to links and aren't blank.
fn runs_at<'s>(
    alloc: Global,
    page: &Page<'s>,
    section: usize,
) -> Result<Vec<Compound<'s>>, AllocError>
    ensures { IfOk result (λ runs. map run_of runs.items ≡ link_runs (lines_at (page_content page.now) section)) }
{
    match page.sections.get(section) {
        Some(section) => link_runs(alloc, section.text.lines.as_slice()),
        None => Ok(Vec::new(alloc)),
    }
}

// Those of lines.
fn link_runs<'s>(alloc: Global, lines: &[Line<'s>]) -> Result<Vec<Compound<'s>>, AllocError>
    ensures { IfOk result (λ runs. map run_of runs.items ≡ link_runs (map content_of lines.now)) }
{
    let mut runs = Vec::new(alloc);
    for line in lines {
        push_line_runs(&mut runs, line)?;
    }
    Ok(runs)
}

// Puts those of a line after others.
fn push_line_runs<'s>(runs: &mut Vec<Compound<'s>>, line: &Line<'s>) -> Result<(), AllocError>
    ensures { OnOk result (map run_of runs.new.items ≡ map run_of runs.old.items ++ line_runs (content_of line.now)) }
{
    match line {
        Line::Normal(row) => push_row_runs(runs, row),
        Line::TableRow(row) => push_cell_runs(runs, &row.cells),
        Line::TableRule(_) | Line::HorizontalRule => Ok(()),
    }
}

// Puts those of cells after others.
fn push_cell_runs<'s>(
    runs: &mut Vec<Compound<'s>>,
    cells: &[Composite<'s>],
) -> Result<(), AllocError>
    ensures { OnOk result (map run_of runs.new.items ≡ map run_of runs.old.items ++ flat_map row_runs (map styled_runs cells.now)) }
{
    for cell in cells {
        push_row_runs(runs, cell)?;
    }
    Ok(())
}

// Puts those of a row or a cell after others.
fn push_row_runs<'s>(runs: &mut Vec<Compound<'s>>, row: &Composite<'s>) -> Result<(), AllocError>
    ensures { OnOk result (map run_of runs.new.items ≡ map run_of runs.old.items ++ row_runs (styled_runs row.now)) }
{
    for compound in &row.compounds {
        push_run(runs, *compound, is_link_text(compound))?;
    }
    Ok(())
}

// Puts a run after others, or not.
fn push_run<'s>(
    runs: &mut Vec<Compound<'s>>,
    run: Compound<'s>,
    is_there: bool,
) -> Result<(), AllocError>
    ensures { OnOk result (map run_of runs.new.items ≡ map run_of runs.old.items ++ (if is_there then run_of run.entry ∷ [] else [])) }
{
    if is_there {
        runs.push(run)?;
        return Ok(());
    }
    Ok(())
}

// Whether a run belongs to a link and isn't blank.
fn is_link_text(compound: &Compound) -> bool
    ensures { result ≡ is_link_text (run_of compound.now) }
{
    compound.link && count_of(compound.src) > 0
}

// Puts links of a section after others, behind so many that have numbers, by the marks and the runs of the section.
#[tactic(auto, using(crate::proofs::LinkLemmas::links_more, crate::proofs::LinkLemmas::links_all))]
fn push_links<'s>(
    alloc: Global,
    lines: &mut Vec<Line<'s>>,
    before: usize,
    marks: &[MarkRun],
    runs: &[Compound<'s>],
    links: &[&'s Link],
) -> Result<(), AllocError>
    ensures { OnOk result (map content_of lines.new.items ≡ map content_of lines.old.items ++ links_lines before first_link marks.now (map run_of runs.now) (map (λ l. link_said l.now) links.now)) }
{
    let mut count = before;
    let mut mark = FIRST_LINK;
    let mut marks = marks;
    let mut runs = runs;
    let mut left = links;
    'left: while let [link, rest @ ..] = left {
        let passed = marks_up_to(mark, marks);
        let text = runs_with(alloc, mark, first_marks(marks, passed), runs)?;
        push_link(alloc, lines, count, text, *link)?;
        marks = later_marks(marks, passed);
        runs = later_runs(runs, passed);
        count = sum(count, 1)?;
        mark = sum(mark, 1)?;
        left = rest;
    }
    Ok(())
}

// The first so many marks.
fn first_marks(marks: &[MarkRun], count: usize) -> &[MarkRun]
    ensures { result.now ≡ take count marks.entry.now }
{
    &marks[..count.min(marks.len())]
}

// The marks behind so many.
fn later_marks(marks: &[MarkRun], count: usize) -> &[MarkRun]
    ensures { result.now ≡ drop count marks.entry.now }
{
    &marks[count.min(marks.len())..]
}

// The runs behind so many.
fn later_runs<'r, 's>(runs: &'r [Compound<'s>], count: usize) -> &'r [Compound<'s>]
    ensures { result.now ≡ drop count runs.entry.now }
{
    &runs[count.min(runs.len())..]
}

/// A sum; one past `usize::MAX` is out of memory.
pub(crate) fn sum(a: usize, b: usize) -> Result<usize, AllocError>
    ensures { IfOk result (λ sum. sum ≡ a + b) }
{
    match a.checked_add(b) {
        Some(sum) => Ok(sum),
        None => Err(AllocError),
    }
}

// How many marks come before one that is larger than this.
fn marks_up_to(mark: usize, marks: &[MarkRun]) -> usize
    ensures { result ≡ marks_up_to mark marks.now }
{
    let mut count: usize = 0;
    while count < marks.len() && marks[count].value <= mark {
        count += 1;
    }
    count
}

// Of runs, each with the mark of the same place, those that have this one.
fn runs_with<'s>(
    alloc: Global,
    mark: usize,
    marks: &[MarkRun],
    runs: &[Compound<'s>],
) -> Result<Vec<Compound<'s>>, AllocError>
    ensures { IfOk result (λ own. map run_of own.items ≡ runs_with mark marks.now (map run_of runs.now)) }
{
    let mut own = Vec::new(alloc);
    let mut left = runs;
    let mut rest = marks;
    'rest: while let [first, others @ ..] = rest {
        match left {
            [run, next @ ..] => {
                push_run(&mut own, *run, first.value == mark)?;
                left = next;
            }
            [] => return Ok(own),
        }
        rest = others;
    }
    Ok(own)
}

// Puts a link after others, behind so many that have numbers: its text and its address.
fn push_link<'s>(
    alloc: Global,
    lines: &mut Vec<Line<'s>>,
    before: usize,
    text: Vec<Compound<'s>>,
    link: &'s Link,
) -> Result<(), AllocError>
    ensures { OnOk result (map content_of lines.new.items ≡ map content_of lines.old.items ++ link_lines before (map run_of text.entry.items) (link_said link.entry.now).address) }
{
    let style = CompositeStyle::OrderedListItem {
        level: 0,
        index: number_after(before),
    };
    let item = Composite {
        style,
        compounds: text,
    };
    lines.push(Line::Normal(item))?;
    lines.push(raw_line(alloc, CompositeStyle::Paragraph, link.address.as_str())?)?;
    Ok(())
}

// The number of an item after so many others.
fn number_after(count: usize) -> u32
    ensures { result ≡ number_after count }
{
    u32::try_from(count.saturating_add(1)).unwrap_or(u32::MAX)
}
