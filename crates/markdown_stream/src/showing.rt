//! What the parts so far are shown as, and what the next ones depend on.

ghost use Rattle.std.specs.Prelude.{◌≡◌, IfOk, OnOk, map};
ghost use Rattle.markdown_leaves.specs.Parts.{part_of};
ghost use Rattle.markdown_reader.specs.MarkdownSays.{markdown_says, links_said};
ghost use Rattle.markdown_lines.specs.LinksOf.{defined_of};
ghost use Rattle.markdown_reader.specs.Mapping.{leaves_in, shown_parts};
ghost use Rattle.markdown_reader.specs.MappingOf.{mapping_of};
ghost use Rattle.markdown_reader.specs.Steady.{steady_sections};
ghost use Rattle.markdown_stream.specs.ShowingOf.{streamed_of};
ghost use Rattle.markdown_stream.specs.Streamed.{nothing_streamed, part_streamed, parts_provided, parts_streamed};
ghost use Rattle.markdown_stream.specs.Provisional.{part_provided};
ghost use Rattle.markdown_stream.specs.Streaming.{taken, taken_from};

use crate::provisional::part_provided;
use markdown_definitions::definitions::{no_definitions, push_part_definitions};
use markdown_leaves::Part;
use markdown_lines::links::Definitions;
use markdown_reader::Markdown;
use markdown_reader::mapper::Mapper;
use std::alloc::{AllocError, Global};

/// The definitions so far, and a mapper that goes on from part to part. What it has shown can be taken at any time.
#[derive(Drop)]
pub struct Showing {
    definitions: Definitions,
    mapper: Mapper,
}

impl Showing {
    /// Nothing is shown.
    ///
    /// # Errors
    ///
    /// Out of memory is the only error.
    pub fn new(alloc: Global) -> Result<Showing, AllocError>
        ensures { IfOk result (λ showing. streamed_of showing ≡ nothing_streamed) }
    {
        let mapper = Mapper::new(alloc)?;
        let definitions = no_definitions(alloc);
        Ok(Showing {
            definitions,
            mapper,
        })
    }

    /// A part comes. Its own definitions count too.
    ///
    /// # Errors
    ///
    /// Out of memory is the only error. What is shown then is of no use.
    pub fn show(&mut self, alloc: Global, part: &Part<'_>) -> Result<(), AllocError>
        ensures { OnOk result (streamed_of self.new ≡ part_streamed (part_of part.now) (streamed_of self.old)) }
    {
        push_part_definitions(alloc, &mut self.definitions, part)?;
        show_part(alloc, &mut self.mapper, &self.definitions, part)
    }

    /// Parts come, one after the other.
    ///
    /// # Errors
    ///
    /// Out of memory is the only error. What is shown then is of no use.
    #[tactic(auto, unfolding(crate::specs::Streamed::parts_streamed))]
    pub fn show_all(&mut self, alloc: Global, parts: &[Part<'_>]) -> Result<(), AllocError>
        ensures { OnOk result (streamed_of self.new ≡ parts_streamed (map part_of parts.now) (streamed_of self.old)) }
    {
        let mut rest = parts;
        while let [part, next @ ..] = rest {
            self.show(alloc, part)?;
            rest = next;
        }
        Ok(())
    }

    /// Takes what is shown so far. The numbers of its links count from its own first section.
    ///
    /// # Errors
    ///
    /// Out of memory is the only error. What is shown then is of no use.
    pub fn take(&mut self, alloc: Global) -> Result<Markdown, AllocError>
        ensures sections { IfOk result (λ read. markdown_says read ≡ steady_sections (streamed_of self.old).mapping.sections) }
        ensures links { IfOk result (λ read. links_said read ≡ (streamed_of self.old).mapping.links) }
        ensures rest { OnOk result (streamed_of self.new ≡ taken_from (streamed_of self.old)) }
    {
        Markdown::take(alloc, &mut self.mapper)
    }

    /// What these parts are shown as if they come next, by the definitions so far. Nothing changes.
    ///
    /// # Errors
    ///
    /// Out of memory is the only error.
    #[tactic(auto, unfolding(crate::specs::Streamed::parts_provided))]
    pub fn read_next(&self, alloc: Global, parts: &[Part<'_>]) -> Result<Markdown, AllocError>
        ensures { IfOk result (λ read. markdown_says read ≡ steady_sections (parts_provided (streamed_of self.now).defined (map part_of parts.now) (taken (streamed_of self.now).mapping)).sections) }
    {
        let mut mapper = self.mapper.going_on(alloc)?;
        let mut rest = parts;
        while let [part, next @ ..] = rest {
            show_part(alloc, &mut mapper, &self.definitions, part)?;
            rest = next;
        }
        Markdown::take(alloc, &mut mapper)
    }
}

// Shows a part by these definitions, and for now by those that its words name by their shape.
fn show_part(
    alloc: Global,
    mapper: &mut Mapper,
    definitions: &Definitions,
    part: &Part<'_>,
) -> Result<(), AllocError>
    ensures { OnOk result (mapping_of mapper.new ≡ shown_parts (part_provided (defined_of definitions.now) (part_of part.now)) (leaves_in (part_of part.now)) (mapping_of mapper.old)) }
{
    match part_provided(alloc, definitions, part)? {
        Some(provided) => mapper.show(alloc, &provided, part),
        None => mapper.show(alloc, definitions, part),
    }
}
