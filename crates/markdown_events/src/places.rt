//! In which line of the source each part of a text begins.

ghost use Rattle.std.specs.Prelude.{◌≡◌, ◌≤◌, ◌++◌, IfOk, OnOk, map, drop, length};
ghost use Rattle.markdown_marks.specs.Remaining.{remaining};
ghost use Rattle.markdown_blocks.specs.Steps.{line_of, state_of};
ghost use Rattle.markdown_leaves.specs.Parts.{part_of};
ghost use Rattle.markdown_leaves.specs.Told.{parts_of};
ghost use Rattle.markdown_events.specs.Places.{placing_of, nothing_placed, is_alone, begun_in, line_placed, end_placed, lines_of};

use markdown_blocks::lines::cut_line;
use markdown_blocks::{BlockReader, Container, Deed, LineRead};
use markdown_leaves::Part;
use markdown_leaves::gather::Gatherer;
use markdown_marks::rest::Rest;
use std::alloc::{AllocError, Global};

/// The parts so far, with the leaf that is open, and the line in which each part begins. Out of memory is the only error of its methods, and it is of no use
/// after one.
#[derive(Drop)]
pub(crate) struct Placer<'s> {
    pub gatherer: Gatherer<'s>,
    pub lines: Vec<usize>,
}

// Whether a line is a leaf by itself.
fn is_alone(deed: Deed) -> bool
    ensures { result ≡ is_alone deed }
{
    match deed {
        Deed::Html | Deed::Heading(_) | Deed::Rule => true,
        Deed::Blank
        | Deed::Begins(_)
        | Deed::GoesOn
        | Deed::Closes
        | Deed::Underlines(_)
        | Deed::Tabulates(_) => false,
    }
}

fn line_count(lines: &[Rest<'_>]) -> usize
    ensures { result ≡ length (map remaining lines.now) }
{
    lines.len()
}

fn part_count(parts: &[Part<'_>]) -> usize
    ensures { result ≡ length (map part_of parts.now) }
{
    parts.len()
}

// The parts after so many.
#[tactic(auto, using(crate::proofs::PlaceLemmas::after_count))]
fn told_after<'p, 's>(parts: &'p [Part<'s>], count: usize) -> &'p [Part<'s>]
    ensures { map part_of result.now ≡ drop count (map part_of parts.now) }
{
    let (_, after) = parts.split_at(count.min(parts.len()));
    after
}

// The lines in which these parts begin, after others.
#[tactic(auto, unfolding(crate::specs::Places::begun_in))]
fn push_lines(
    lines: &mut Vec<usize>,
    parts: &[Part<'_>],
    number: usize,
    behind: usize,
    alone: bool,
) -> Result<(), AllocError>
    ensures { OnOk result (lines.new.items ≡ lines.old.items ++ begun_in number behind alone (map part_of parts.now)) }
{
    let mut rest = parts;
    let mut behind = behind;
    while let [part, next @ ..] = rest {
        rest = next;
        match part {
            Part::Begins(..) | Part::Ends => {
                lines.push(number)?;
                behind = 0;
            }
            Part::Block(leaf) => {
                if alone && next.is_empty() {
                    lines.push(number)?;
                } else {
                    lines.push(number.saturating_sub(behind))?;
                }
                behind = behind.saturating_sub(line_count(&leaf.lines));
            }
        }
    }
    Ok(())
}

impl<'s> Placer<'s> {
    fn new(alloc: Global) -> Placer<'s>
        ensures { placing_of result ≡ nothing_placed }
    {
        Placer {
            gatherer: Gatherer::new(alloc),
            lines: Vec::new(alloc),
        }
    }

    // The line of this number was read, before which `before` containers were open, and after it these.
    fn read(
        &mut self,
        alloc: Global,
        number: usize,
        before: usize,
        containers: &[Container],
        read: LineRead<'s>,
    ) -> Result<(), AllocError>
        requires fewer { read.kept ≤ before }
        requires within { read.kept ≤ length containers.now }
        ensures { OnOk result (placing_of self.new ≡ line_placed number before (line_of read.entry) containers.now (placing_of self.old)) }
    {
        let told = part_count(&self.gatherer.parts);
        let behind = line_count(&self.gatherer.lines);
        self.gatherer.read(alloc, before, containers, read)?;
        let new = told_after(&self.gatherer.parts, told);
        push_lines(&mut self.lines, new, number, behind, is_alone(read.deed))
    }

    // After the last line, of `number` lines, so many containers end, and the leaf that is open.
    fn end(&mut self, alloc: Global, number: usize, count: usize) -> Result<(), AllocError>
        ensures { OnOk result (placing_of self.new ≡ end_placed number count (placing_of self.old)) }
    {
        let told = part_count(&self.gatherer.parts);
        let behind = line_count(&self.gatherer.lines);
        self.gatherer.leave_all(alloc, count)?;
        self.gatherer.close(alloc)?;
        let new = told_after(&self.gatherer.parts, told);
        push_lines(&mut self.lines, new, number, behind, false)
    }
}

/// The parts of a text, in the order of the source, and in which line of it each begins. Lines are counted from 0. An end of a container has the first line
/// that isn't in it.
///
/// # Errors
///
/// Out of memory is the only error.
pub fn read_placed<'s>(
    alloc: Global,
    text: &'s [u8],
) -> Result<(Vec<Part<'s>>, Vec<usize>), AllocError>
    ensures parts { IfOk result (λ told. map part_of told.0.items ≡ parts_of text.entry.now) }
    ensures lines { IfOk result (λ told. told.1.items ≡ lines_of text.entry.now) }
{
    let mut reader = BlockReader::new(alloc);
    let mut placer = Placer::new(alloc);
    let mut rest = text;
    let mut number = 0;
    while !rest.is_empty() {
        let (line, after) = cut_line(rest);
        let before = reader.containers().len();
        let read = reader.read_line(line)?;
        placer.read(alloc, number, before, reader.containers(), read)?;
        rest = after;
        number += 1;
    }
    placer.end(alloc, number, reader.containers().len())?;
    Ok((placer.gatherer.into_parts(), placer.lines))
}
