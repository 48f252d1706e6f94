//! The leaf that is open between two lines, which owns its lines.

ghost use Rattle.std.specs.Prelude.{◌≡◌, ◌++◌, ◌∷◌, [], false, IfOk, OnOk, map};
ghost use Rattle.markdown_marks.specs.Remaining.{remaining};
ghost use Rattle.markdown_leaves.specs.Gather.{gathering_of, gone_on, nothing_told};
ghost use Rattle.markdown_stream.specs.Held.{line_held, gathering_held};
ghost use Rattle.markdown_stream.specs.Readings.{without_parts};

use markdown_blocks::Container;
use markdown_leaves::Kind;
use markdown_leaves::gather::Gatherer;
use markdown_marks::rest::Rest;
use std::alloc::{AllocError, Global};

/// A line of the open leaf.
#[derive(Debug, Drop)]
pub(crate) struct HeldLine {
    column: usize,
    pending: usize,
    bytes: Vec<u8>,
}

/// What a gatherer keeps between two lines, but for the parts so far.
#[derive(Debug, Drop)]
pub(crate) struct OpenLeaf {
    kind: Kind,
    apart: bool,
    lines: Vec<HeldLine>,
    passed: bool,
    around: Vec<Container>,
}

// A line that owns its bytes.
fn held_line(alloc: Global, line: Rest<'_>) -> Result<HeldLine, AllocError>
    ensures { IfOk result (λ held. line_held held ≡ remaining line.entry) }
{
    let bytes = Vec::from_slice(alloc, line.bytes)?;
    Ok(HeldLine {
        column: line.column,
        pending: line.pending,
        bytes,
    })
}

// Lines that own their bytes.
fn held_lines(alloc: Global, lines: &[Rest<'_>]) -> Result<Vec<HeldLine>, AllocError>
    ensures { IfOk result (λ held. map line_held held.items ≡ map remaining lines.now) }
{
    let mut held = Vec::with_capacity(alloc, lines.len())?;
    let mut rest = lines;
    while let [line, next @ ..] = rest {
        let line = held_line(alloc, *line)?;
        held.push(line)?;
        rest = next;
    }
    Ok(held)
}

// What these lines say.
fn rests_of<'l>(alloc: Global, lines: &'l [HeldLine]) -> Result<Vec<Rest<'l>>, AllocError>
    ensures { IfOk result (λ rests. map remaining rests.items ≡ map line_held lines.entry.now) }
{
    let mut rests = Vec::with_capacity(alloc, lines.len())?;
    let mut rest = lines;
    while let [line, next @ ..] = rest {
        rests.push(Rest {
            column: line.column,
            pending: line.pending,
            bytes: &line.bytes,
        })?;
        rest = next;
    }
    Ok(rests)
}

impl OpenLeaf {
    /// No leaf is open.
    pub(crate) fn none(alloc: Global) -> OpenLeaf
        ensures { gathering_held result ≡ nothing_told }
    {
        OpenLeaf {
            kind: Kind::Nothing,
            apart: false,
            lines: Vec::new(alloc),
            passed: false,
            around: Vec::new(alloc),
        }
    }

    /// What it is.
    pub(crate) fn kind(&self) -> Kind
        ensures { result ≡ (gathering_held self.now).kind }
    {
        self.kind
    }

    /// The leaf goes on with this line.
    pub(crate) fn push(&mut self, alloc: Global, line: Rest<'_>) -> Result<(), AllocError>
        ensures { OnOk result (gathering_held self.new ≡ gone_on (remaining line.entry) (gathering_held self.old)) }
    {
        let held = held_line(alloc, line)?;
        self.lines.push(held)?;
        Ok(())
    }

    /// A gatherer that goes on with the leaf.
    pub(crate) fn gatherer(&self, alloc: Global) -> Result<Gatherer<'_>, AllocError>
        ensures { IfOk result (λ gatherer. gathering_of gatherer ≡ gathering_held self.now) }
    {
        let lines = rests_of(alloc, &self.lines)?;
        let around = Vec::from_slice(alloc, &self.around)?;
        Ok(Gatherer {
            parts: Vec::new(alloc),
            kind: self.kind,
            apart: self.apart,
            lines,
            passed: self.passed,
            fresh: false,
            around,
        })
    }

    /// What a gatherer keeps.
    pub(crate) fn of(alloc: Global, gatherer: Gatherer<'_>) -> Result<OpenLeaf, AllocError>
        requires { gatherer.fresh ≡ false }
        ensures { IfOk result (λ leaf. gathering_held leaf ≡ without_parts (gathering_of gatherer.entry)) }
    {
        let lines = held_lines(alloc, &gatherer.lines)?;
        Ok(OpenLeaf {
            kind: gatherer.kind,
            apart: gatherer.apart,
            lines,
            passed: gatherer.passed,
            around: gatherer.around,
        })
    }
}
