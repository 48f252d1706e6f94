//! Blocks of code among lines, as calls of their own.

ghost use Rattle.std.specs.Prelude.{◌≡◌, ◌≤◌, ◌<◌, ◌+◌, drop, length, IfOk, MatchOption};
ghost use Rattle.mad_blocks.specs.CodeBlocks.{IsClosedBlock, IsNextBlock, NoCode, blocks_placed, code_blocks, code_columns, placed_line};

use crate::laying::{code_place, is_code_kind, width_within};
use mad_format::FmtLine;
use std::alloc::{AllocError, Global};

/// A block of code among lines: as many lines of code in a row as there are.
#[derive(Clone, Copy, Debug, PartialEq, Eq)]
pub struct CodeBlock {
    /// The index of its first line, from 0.
    pub start: usize,
    /// The number of its lines.
    pub height: usize,
    /// The columns of its widest line, or of the place that its lines get.
    pub width: usize,
}

impl CodeBlock {
    ghost use Rattle.mad_blocks.specs.CodeBlocks.{with_block_placed};

    /// Gives each of its lines a place of the block's width, in columns, at its left. A rule and a line of a table stay.
    ///
    /// Its lines have to be there. Without lines it may begin anywhere.
    pub fn justify(&self, lines: &mut [FmtLine])
        requires { 0 < self.now.height → self.now.start + self.now.height ≤ length lines.old }
        ensures { lines.new ≡ with_block_placed self.now lines.old }
    {
        if self.height == 0 {
            return;
        }
        let mut index = self.start;
        let end = self.start + self.height;
        while index < end {
            justify_line(&mut lines[index], self.width);
            index += 1;
        }
    }
}

/// The blocks of code among the lines, in order. Only out of memory is an error.
pub fn find_blocks(alloc: Global, lines: &[FmtLine]) -> Result<Vec<CodeBlock>, AllocError>
    ensures { IfOk result (λ blocks. blocks.items ≡ code_blocks lines.now) }
{
    let mut blocks = Vec::new(alloc);
    let mut start = 0;
    while let Some(block) = next_block(lines, start) {
        blocks.push(block)?;
        start = block.start + block.height;
    }
    Ok(blocks)
}

/// Gives each line of code the place of its block: as wide as its widest line, in columns, and at most as the room, if
/// there is a limit.
pub fn justify_blocks(lines: &mut [FmtLine], room: Option<usize>)
    ensures { lines.new ≡ blocks_placed room lines.old }
{
    let mut start = 0;
    while let Some(block) = next_block(lines, start) {
        let width = width_within(block.width, room);
        CodeBlock { width, ..block }.justify(lines);
        start = block.start + block.height;
    }
}

// The first block from a line on, if there is one.
fn next_block(lines: &[FmtLine], from: usize) -> Option<CodeBlock>
    requires { from ≤ length lines.now }
    ensures { MatchOption result (NoCode (drop from lines.now)) (λ block. IsNextBlock lines.now from block) }
{
    let mut start = from;
    while start < lines.len() {
        let block = block_at(lines, start);
        if block.height > 0 {
            return Some(block);
        }
        start += 1;
    }
    None
}

// The block that begins at this line; one without lines, where none does.
fn block_at(lines: &[FmtLine], start: usize) -> CodeBlock
    requires { start ≤ length lines.now }
    ensures { IsClosedBlock lines.now start result }
{
    let mut height = 0;
    let mut width = 0;
    while start + height < lines.len() {
        let Some(columns) = code_columns(&lines[start + height]) else {
            return CodeBlock {
                start,
                height,
                width,
            };
        };
        width = columns.max(width);
        height += 1;
    }
    CodeBlock {
        start,
        height,
        width,
    }
}

// The columns of a line of code, by its cached length; none of any other line.
fn code_columns(line: &FmtLine) -> Option<usize>
    ensures { result ≡ code_columns line.now }
{
    match line {
        FmtLine::Normal(composite) if is_code_kind(composite.kind) => Some(
            composite.visible_length,
        ),
        _ => None,
    }
}

// Puts a line in a place of this many columns; a rule and a line of a table stay.
fn justify_line(line: &mut FmtLine, width: usize)
    ensures { line.new ≡ placed_line width line.old }
{
    if let FmtLine::Normal(composite) = line {
        composite.spacing = Some(code_place(width));
    }
}
