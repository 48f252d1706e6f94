//! The lines of the open leaf, gathered up to its end.

ghost use Rattle.std.specs.Prelude.{◌≡◌, ◌≤◌, ◌<◌, ◌==◌, ◌&&◌, ◌||◌, false, not, [], ◌∷◌, ◌++◌, OnOk, map, reverse, take, drop, length, if◌then◌else◌};
ghost use Rattle.markdown_marks.specs.Remaining.{remaining};
ghost use Rattle.markdown_blocks.specs.Containers.{is_item};
ghost use Rattle.markdown_blocks.specs.Events.{leaves, enter};
ghost use Rattle.markdown_blocks.specs.Steps.{line_of};
ghost use Rattle.markdown_leaves.specs.Parts.{part_of};
ghost use Rattle.markdown_leaves.specs.Gather.{gathering_of, add_block, add_unless_empty, add_words, filled_from, emptied, words_closed, indented_closed, closed_as_it_is, closed, trimmed, heading_line, first_text, kind_of, begun, single, blank, gone_on, tabulated, line_done, entered, left, passed_outside, nothing_told};
ghost use Rattle.markdown_leaves.specs.Told.{told, events_between};

use crate::defining::cut_lines;
use crate::parts::{Block, Kind, Part};
use markdown_blocks::{Container, Deed, Leaf, LineRead};
use markdown_marks::bytes::{is_blank, without_blanks};
use markdown_marks::headings::{heading_text, without_end};
use markdown_marks::rest::Rest;
use std::alloc::{AllocError, Global};

/// The parts of a text so far, and the leaf that is open. Out of memory is the only error of its methods, and it is of no use after one.
#[derive(Debug, Drop)]
pub struct Gatherer<'s> {
    /// The parts so far.
    pub parts: Vec<Part<'s>>,
    /// What the open leaf is.
    pub kind: Kind,
    /// Whether blank lines are before it.
    pub apart: bool,
    /// Its lines so far.
    pub lines: Vec<Rest<'s>>,
    /// Whether blank lines passed since the last leaf ended, the last container began or a quote ended.
    pub passed: bool,
    /// Whether an item began in this line.
    pub fresh: bool,
    /// The containers that are open, the innermost last.
    pub around: Vec<Container>,
}

fn is_item(container: Container) -> bool
    ensures { result ≡ is_item container }
{
    match container {
        Container::Quote => false,
        Container::Item { .. } => true,
    }
}

fn kind_of(leaf: Leaf) -> Kind
    ensures { result ≡ kind_of leaf }
{
    match leaf {
        Leaf::Nothing | Leaf::Bare => Kind::Nothing,
        Leaf::Paragraph => Kind::Paragraph,
        Leaf::Indented => Kind::Indented,
        Leaf::Fenced { .. } => Kind::Fenced,
        Leaf::Html(_) => Kind::Html,
        Leaf::Table => Kind::Nothing,
    }
}

// The text without blanks at both ends.
fn trimmed<'s>(text: Rest<'s>) -> Rest<'s>
    ensures { remaining result ≡ trimmed (remaining text.entry) }
{
    Rest {
        column: text.column,
        pending: 0,
        bytes: without_end(b' ', b'\t', without_blanks(text.bytes)),
    }
}

// The text of a heading.
fn heading<'s>(text: Rest<'s>) -> Rest<'s>
    ensures { remaining result ≡ heading_line (remaining text.entry) }
{
    Rest {
        column: text.column,
        pending: 0,
        bytes: heading_text(text.bytes),
    }
}

// The first line of a leaf.
fn first_text<'s>(leaf: Leaf, text: Rest<'s>) -> Rest<'s>
    ensures { remaining result ≡ first_text leaf (remaining text.entry) }
{
    match leaf {
        Leaf::Fenced { .. } => trimmed(text),
        Leaf::Nothing
        | Leaf::Bare
        | Leaf::Paragraph
        | Leaf::Indented
        | Leaf::Html(_)
        | Leaf::Table => text,
    }
}

// So many of the first lines.
fn front<'l, 's>(lines: &'l [Rest<'s>], count: usize) -> &'l [Rest<'s>]
    requires { count ≤ length lines.now }
    ensures { map remaining result.now ≡ take count (map remaining lines.now) }
{
    &lines[..count]
}

// The lines after so many.
fn back<'l, 's>(lines: &'l [Rest<'s>], count: usize) -> &'l [Rest<'s>]
    requires { count ≤ length lines.now }
    ensures { map remaining result.now ≡ drop count (map remaining lines.now) }
{
    let (_, after) = lines.split_at(count);
    after
}

fn line_count(lines: &[Rest<'_>]) -> usize
    ensures value { result ≡ length (map remaining lines.now) }
    ensures same { result ≡ length lines.now }
{
    lines.len()
}

fn add_block<'s>(
    alloc: Global,
    parts: &mut Vec<Part<'s>>,
    kind: Kind,
    apart: bool,
    lines: &[Rest<'s>],
) -> Result<(), AllocError>
    ensures { OnOk result (map part_of parts.new.items ≡ add_block kind apart (map remaining lines.now) (map part_of parts.old.items)) }
{
    let lines = Vec::from_slice(alloc, lines)?;
    parts.push(Part::Block(Block { kind, apart, lines }))?;
    Ok(())
}

fn add_unless_empty<'s>(
    alloc: Global,
    parts: &mut Vec<Part<'s>>,
    kind: Kind,
    apart: bool,
    lines: &[Rest<'s>],
) -> Result<(), AllocError>
    ensures { OnOk result (map part_of parts.new.items ≡ add_unless_empty kind apart (map remaining lines.now) (map part_of parts.old.items)) }
{
    if lines.is_empty() {
        return Ok(());
    }
    add_block(alloc, parts, kind, apart, lines)
}

// The definitions that a paragraph begins with, and the rest of it as this kind.
fn add_words<'s>(
    alloc: Global,
    parts: &mut Vec<Part<'s>>,
    kind: Kind,
    apart: bool,
    lines: &[Rest<'s>],
) -> Result<(), AllocError>
    ensures { OnOk result (map part_of parts.new.items ≡ add_words kind apart (map remaining lines.now) (map part_of parts.old.items)) }
{
    let cut = cut_lines(alloc, lines)?;
    add_unless_empty(alloc, parts, Kind::Definitions, apart, front(lines, cut))?;
    let still = still_apart(apart, cut);
    add_unless_empty(alloc, parts, kind, still, back(lines, cut))?;
    Ok(())
}

fn passed_after(passed: bool, fresh: bool) -> bool
    ensures { result ≡ (passed || not fresh) }
{
    passed || !fresh
}

// The innermost container ends. Whether blank lines passed before what comes after it.
#[tactic(auto, using(crate::proofs::AroundLemmas::outside, crate::proofs::AroundLemmas::one_less))]
fn end_innermost(around: &mut Vec<Container>, passed: bool) -> bool
    ensures passed { result ≡ passed_outside (reverse around.old.items) passed }
    ensures around { reverse around.new.items ≡ drop 1 (reverse around.old.items) }
{
    match around.pop() {
        None => passed,
        Some(container) => passed && is_item(container),
    }
}

fn still_apart(apart: bool, cut: usize) -> bool
    ensures { result ≡ (apart && (cut == 0)) }
{
    apart && cut == 0
}

// The number of the last line that isn't blank.
#[tactic(auto, unfolding(crate::specs::Gather::filled_from))]
fn filled(lines: &[Rest<'_>]) -> usize
    ensures value { result ≡ filled_from 0 0 (map remaining lines.now) }
    ensures within { result ≤ length lines.now }
{
    let mut rest = lines;
    let mut count = 0;
    let mut filled = 0;
    while let [line, next @ ..] = rest {
        rest = next;
        count += 1;
        if is_blank(line.bytes) {
            continue;
        }
        filled = count;
    }
    filled
}

// The containers after so many.
fn those_after(containers: &[Container], count: usize) -> &[Container]
    requires { count ≤ length containers.now }
    ensures { result.now ≡ drop count containers.now }
{
    let (_, after) = containers.split_at(count);
    after
}

impl<'s> Gatherer<'s> {
    /// Nothing is told.
    pub fn new(alloc: Global) -> Gatherer<'s>
        ensures { gathering_of result ≡ nothing_told }
    {
        Gatherer {
            parts: Vec::new(alloc),
            kind: Kind::Nothing,
            apart: false,
            lines: Vec::new(alloc),
            passed: false,
            fresh: false,
            around: Vec::new(alloc),
        }
    }

    /// The parts so far. The open leaf isn't among them.
    pub fn into_parts(self) -> Vec<Part<'s>>
        ensures { map part_of result.items ≡ (gathering_of self.entry).parts }
    {
        self.parts
    }

    fn empty(&mut self)
        ensures { gathering_of self.new ≡ emptied (gathering_of self.old) }
    {
        self.kind = Kind::Nothing;
        self.lines.clear();
    }

    // The open paragraph ends, and was of this kind.
    fn close_words(&mut self, alloc: Global, kind: Kind) -> Result<(), AllocError>
        ensures { OnOk result (gathering_of self.new ≡ words_closed kind (gathering_of self.old)) }
    {
        add_words(alloc, &mut self.parts, kind, self.apart, &self.lines)?;
        self.empty();
        Ok(())
    }

    fn close_indented(&mut self, alloc: Global) -> Result<(), AllocError>
        ensures { OnOk result (gathering_of self.new ≡ indented_closed (gathering_of self.old)) }
    {
        let count = filled(&self.lines);
        self.passed = count < line_count(&self.lines);
        add_block(
            alloc,
            &mut self.parts,
            Kind::Indented,
            self.apart,
            front(&self.lines, count),
        )?;
        self.empty();
        Ok(())
    }

    fn close_as_it_is(&mut self, alloc: Global) -> Result<(), AllocError>
        ensures { OnOk result (gathering_of self.new ≡ closed_as_it_is (gathering_of self.old)) }
    {
        add_block(alloc, &mut self.parts, self.kind, self.apart, &self.lines)?;
        self.empty();
        Ok(())
    }

    /// The open leaf ends.
    ///
    /// # Errors
    ///
    /// Out of memory.
    #[tactic(auto, unfolding(crate::specs::Gather::closed))]
    pub fn close(&mut self, alloc: Global) -> Result<(), AllocError>
        ensures { OnOk result (gathering_of self.new ≡ closed (gathering_of self.old)) }
    {
        match self.kind {
            Kind::Nothing => Ok(()),
            Kind::Paragraph => self.close_words(alloc, Kind::Paragraph),
            Kind::Indented => self.close_indented(alloc),
            Kind::Heading(_)
            | Kind::Fenced
            | Kind::Html
            | Kind::Table(_)
            | Kind::Rule
            | Kind::Definitions => self.close_as_it_is(alloc),
        }
    }

    fn begin(&mut self, alloc: Global, kind: Kind, text: Rest<'s>) -> Result<(), AllocError>
        ensures { OnOk result (gathering_of self.new ≡ begun kind (remaining text.entry) (gathering_of self.old)) }
    {
        self.close(alloc)?;
        self.lines.clear();
        self.lines.push(text)?;
        self.kind = kind;
        self.apart = self.passed;
        self.passed = false;
        Ok(())
    }

    // A leaf of one line.
    fn single(&mut self, alloc: Global, kind: Kind, text: Rest<'s>) -> Result<(), AllocError>
        ensures { OnOk result (gathering_of self.new ≡ single kind (remaining text.entry) (gathering_of self.old)) }
    {
        self.begin(alloc, kind, text)?;
        self.close_as_it_is(alloc)?;
        Ok(())
    }

    fn blank(&mut self, alloc: Global) -> Result<(), AllocError>
        ensures { OnOk result (gathering_of self.new ≡ blank (gathering_of self.old)) }
    {
        self.close(alloc)?;
        self.passed = passed_after(self.passed, self.fresh);
        Ok(())
    }

    fn go_on(&mut self, text: Rest<'s>) -> Result<(), AllocError>
        ensures { OnOk result (gathering_of self.new ≡ gone_on (remaining text.entry) (gathering_of self.old)) }
    {
        self.lines.push(text)?;
        Ok(())
    }

    // The last line of the open paragraph is a table's head.
    fn tabulate(&mut self, alloc: Global, columns: usize, text: Rest<'s>) -> Result<(), AllocError>
        ensures { OnOk result (gathering_of self.new ≡ tabulated columns (remaining text.entry) (gathering_of self.old)) }
    {
        let at = line_count(&self.lines).saturating_sub(1);
        add_words(
            alloc,
            &mut self.parts,
            Kind::Paragraph,
            self.apart,
            front(&self.lines, at),
        )?;
        let mut lines = Vec::from_slice(alloc, back(&self.lines, at))?;
        lines.push(text)?;
        self.lines = lines;
        self.kind = Kind::Table(columns);
        self.apart = still_apart(self.apart, at);
        Ok(())
    }

    #[tactic(auto, unfolding(crate::specs::Gather::line_done))]
    fn line_done(&mut self, alloc: Global, deed: Deed, text: Rest<'s>) -> Result<(), AllocError>
        ensures { OnOk result (gathering_of self.new ≡ line_done deed (remaining text.entry) (gathering_of self.old)) }
    {
        match deed {
            Deed::Blank => self.blank(alloc),
            Deed::Begins(leaf) => self.begin(alloc, kind_of(leaf), first_text(leaf, text)),
            Deed::Html => self.single(alloc, Kind::Html, text),
            Deed::GoesOn => self.go_on(text),
            Deed::Closes => self.close(alloc),
            Deed::Underlines(level) => self.close_words(alloc, Kind::Heading(level)),
            Deed::Tabulates(columns) => self.tabulate(alloc, columns, text),
            Deed::Heading(level) => self.single(alloc, Kind::Heading(level), heading(text)),
            Deed::Rule => self.single(alloc, Kind::Rule, text),
        }
    }

    /// A line was read, before which `before` containers were open, and after it these. Some end, others begin, and the line does what it does.
    ///
    /// # Errors
    ///
    /// Out of memory.
    pub fn read(
        &mut self,
        alloc: Global,
        before: usize,
        containers: &[Container],
        read: LineRead<'s>,
    ) -> Result<(), AllocError>
        requires fewer { read.kept ≤ before }
        requires within { read.kept ≤ length containers.now }
        ensures { OnOk result (gathering_of self.new ≡ told (gathering_of self.old) (events_between before (line_of read.entry) containers.now)) }
    {
        self.leave_all(alloc, before - read.kept)?;
        self.enter_all(alloc, those_after(containers, read.kept))?;
        self.line(alloc, read.deed, read.text)?;
        Ok(())
    }

    // A line does this to the leaves, with this text.
    fn line(&mut self, alloc: Global, deed: Deed, text: Rest<'s>) -> Result<(), AllocError>
        ensures { OnOk result (gathering_of self.new ≡ record (line_done deed (remaining text.entry) (gathering_of self.old)) { fresh = false }) }
    {
        self.line_done(alloc, deed, text)?;
        self.fresh = false;
        Ok(())
    }

    // A container begins.
    #[tactic(auto, using(crate::proofs::AroundLemmas::one_more))]
    fn enter(&mut self, alloc: Global, container: Container) -> Result<(), AllocError>
        ensures { OnOk result (gathering_of self.new ≡ entered container (gathering_of self.old)) }
    {
        self.close(alloc)?;
        self.parts.push(Part::Begins(container, self.passed))?;
        self.around.push(container)?;
        self.passed = false;
        self.fresh = self.fresh || is_item(container);
        Ok(())
    }

    // The last container ends.
    fn leave(&mut self, alloc: Global) -> Result<(), AllocError>
        ensures { OnOk result (gathering_of self.new ≡ left (gathering_of self.old)) }
    {
        self.close(alloc)?;
        self.parts.push(Part::Ends)?;
        self.passed = end_innermost(&mut self.around, self.passed);
        Ok(())
    }

    // These containers begin, one in the other.
    #[tactic(auto, unfolding(crate::specs::Told::told))]
    fn enter_all(&mut self, alloc: Global, containers: &[Container]) -> Result<(), AllocError>
        ensures { OnOk result (gathering_of self.new ≡ told (gathering_of self.old) (map enter containers.now)) }
    {
        let mut rest = containers;
        while let [container, next @ ..] = rest {
            self.enter(alloc, *container)?;
            rest = next;
        }
        Ok(())
    }

    /// The last `count` containers that are open end, the innermost first.
    ///
    /// # Errors
    ///
    /// Out of memory.
    #[tactic(auto, unfolding(crate::specs::Told::told))]
    pub fn leave_all(&mut self, alloc: Global, count: usize) -> Result<(), AllocError>
        ensures { OnOk result (gathering_of self.new ≡ told (gathering_of self.old) (leaves count)) }
    {
        let mut more = count;
        while more > 0 {
            self.leave(alloc)?;
            more -= 1;
        }
        Ok(())
    }
}
