//! Reading the blocks of a text line by line.

ghost use Rattle.std.specs.Prelude.{◌≡◌, ◌≤◌, ◌++◌, ◌&&◌, [], take, drop, IfOk, OnErr, vec_len};
ghost use Rattle.markdown_marks.specs.Remaining.{remaining};
ghost use Rattle.markdown_blocks.specs.Containers.{Matched};
ghost use Rattle.markdown_blocks.specs.Laws.{IsPlaced, IsGrown};
ghost use Rattle.markdown_blocks.specs.Steps.{state_of, line_of, kept_after, begun_line, step};

use crate::containers::{Container, MAX_CONTAINERS, matched, open_containers};
use crate::leaves::{
    Deed, Going, Leaf, cells_after, deed_of, going_on, is_bare, is_paragraph, is_table,
    joining_or_row, keep_defining, leaf_after, leaf_start, margin, only_defines,
};
use markdown_marks::rest::Rest;
use std::alloc::{AllocError, Global};

/// What a line of a text is, in the order in which it happens.
#[derive(Debug, Clone, Copy)]
pub struct LineRead<'s> {
    /// How many of the containers that were open stay open, from the outermost on. The others end, the innermost first.
    pub kept: usize,
    /// How many containers begin after them. They are the last that are open now.
    pub opened: usize,
    /// What the line does to the leaves.
    pub deed: Deed,
    /// What the line has for the leaf: without the signs and blanks of containers, and without the leaf's own indent.
    pub text: Rest<'s>,
}

/// The containers and the leaf that are open between two lines. Beside these it keeps the text of a paragraph that begins with a bracket, and
/// nothing else of the lines.
#[derive(Debug, Drop)]
pub struct BlockReader {
    containers: Vec<Container>,
    leaf: Leaf,
    // the text of a paragraph that may be definitions alone
    defining: Vec<u8>,
    // how many cells the last line of a paragraph has
    cells: usize,
}

impl BlockReader {
    /// A reader before the first line.
    pub fn new(alloc: Global) -> BlockReader
        ensures { state_of result ≡ record { containers = []; leaf = Leaf.Nothing; defining = []; cells = 0 } }
    {
        BlockReader {
            containers: Vec::new(alloc),
            leaf: Leaf::Nothing,
            defining: Vec::new(alloc),
            cells: 0,
        }
    }

    /// The containers that are open, from the outermost on.
    pub fn containers(&self) -> &[Container]
        ensures { result.now ≡ (state_of self.now).containers }
    {
        &self.containers
    }

    /// A reader of its own that goes on from here.
    ///
    /// # Errors
    ///
    /// Out of memory is the only error.
    pub fn copied(&self, alloc: Global) -> Result<BlockReader, AllocError>
        ensures { IfOk result (λ made. state_of made ≡ state_of self.now) }
    {
        let containers = Vec::from_slice(alloc, &self.containers)?;
        let defining = Vec::from_slice(alloc, &self.defining)?;
        Ok(BlockReader {
            containers,
            leaf: self.leaf,
            defining,
            cells: self.cells,
        })
    }

    /// Reads the next line, which is without its end.
    ///
    /// # Errors
    ///
    /// Out of memory is the only error. The reader is then as it was before the line.
    pub fn read_line<'s>(&mut self, line: &'s [u8]) -> Result<LineRead<'s>, AllocError>
        ensures ok { IfOk result (λ read. record { state = state_of self.new; line = line_of read } ≡ step (state_of self.old) line.entry.now) }
        ensures placed { IfOk result (λ read. IsPlaced (state_of self.old) (record { state = state_of self.new; line = line_of read })) }
        ensures err { OnErr result (state_of self.new ≡ state_of self.old) }
    {
        let before = self.containers.as_slice().len();
        match self.step(line) {
            Ok(read) => Ok(read),
            Err(error) => {
                self.containers.truncate(before);
                Err(error)
            }
        }
    }

    // One line. Where memory runs out, containers may have been added.
    #[tactic(auto, unfolding(crate::specs::Steps::step, crate::specs::Steps::line_step))]
    fn step<'s>(&mut self, line: &'s [u8]) -> Result<LineRead<'s>, AllocError>
        ensures ok { IfOk result (λ read. record { state = state_of self.new; line = line_of read } ≡ step (state_of self.old) line.entry.now) }
        ensures err { OnErr result (IsGrown (state_of self.old) (state_of self.new)) }
    {
        let (count, rest) = matched(&self.containers, is_bare(self.leaf), Rest::whole(line));
        if count < self.containers.len() {
            return self.begun_line(count, rest);
        }
        match going_on(self.leaf, rest) {
            Going::No => self.begun_line(count, rest),
            Going::On => Ok(self.same_containers(
                Deed::GoesOn,
                rest.take_columns(margin(self.leaf)),
            )),
            Going::Last => {
                let text = rest.take_columns(margin(self.leaf));
                self.leaf = Leaf::Nothing;
                Ok(self.same_containers(Deed::GoesOn, text))
            }
            Going::Ends => {
                self.leaf = Leaf::Nothing;
                Ok(self.same_containers(Deed::Closes, rest))
            }
        }
    }

    // A line in which no container ends or begins.
    fn same_containers<'s>(&self, deed: Deed, text: Rest<'s>) -> LineRead<'s>
        ensures { line_of result ≡ record { kept = vec_len self.now.containers; opened = 0; deed = deed; text = remaining text.entry } }
    {
        LineRead {
            kept: self.containers.len(),
            opened: 0,
            deed,
            text,
        }
    }

    // A line that the open leaf doesn't take unseen, in which so many containers go on. Those that begin are put behind all that are open, so that
    // these are there still where memory runs out.
    fn begun_line<'s>(&mut self, count: usize, rest: Rest<'s>) -> Result<LineRead<'s>, AllocError>
        requires { count ≤ vec_len self.old.containers }
        ensures ok { IfOk result (λ read. record { state = state_of self.new; line = line_of read } ≡ begun_line (state_of self.old) (record { count = count; rest = remaining rest.entry })) }
        ensures err { OnErr result (IsGrown (state_of self.old) (state_of self.new)) }
    {
        let before = self.containers.as_slice().len();
        let all = count == before;
        let in_paragraph = both(is_paragraph(self.leaf), all);
        let room = MAX_CONTAINERS.saturating_sub(count);
        let (bare, rest) = open_containers(&mut self.containers, room, in_paragraph, rest)?;
        let opened = self.containers.as_slice().len() - before;
        let defining = self.defining.as_slice();
        let defines = only_defines(defining, all, rest);
        let alone = both(is_paragraph(self.leaf), opened == 0);
        let may_join = both(alone, !defines);
        let in_table = both(is_table(self.leaf), opened == 0);
        let row = both(in_table, all);
        let joining = joining_or_row(row, may_join, all);
        let begun = leaf_start(joining, rest);
        let deed = deed_of(joining, self.cells, begun);
        let kept = kept_after(deed, count, before);
        keep_defining(&mut self.defining, deed, begun.text)?;
        drop_between(&mut self.containers, kept, before);
        self.leaf = leaf_after(bare, self.leaf, deed);
        self.cells = cells_after(self.leaf, begun.text);
        Ok(LineRead {
            kept,
            opened,
            deed,
            text: begun.text,
        })
    }
}

// Whether both hold.
fn both(first: bool, second: bool) -> bool
    ensures { result ≡ (first && second) }
{
    first && second
}

// Drops the containers from one position up to another.
fn drop_between(containers: &mut Vec<Container>, from: usize, to: usize)
    requires order { from ≤ to }
    requires within { to ≤ vec_len containers.old }
    ensures { containers.new.items ≡ take from containers.old.items ++ drop to containers.old.items }
{
    drop(containers.drain(from..to));
}

// A paragraph that goes on keeps all containers.
fn kept_after(deed: Deed, count: usize, all: usize) -> usize
    requires { count ≤ all }
    ensures value { result ≡ kept_after deed count all }
    ensures within { result ≤ all }
{
    match deed {
        Deed::GoesOn => all,
        Deed::Blank
        | Deed::Begins(_)
        | Deed::Html
        | Deed::Closes
        | Deed::Underlines(_)
        | Deed::Tabulates(_)
        | Deed::Heading(_)
        | Deed::Rule => count,
    }
}
