//! Reading Markdown as people write it.

ghost use Rattle.std.specs.Prelude.{◌≡◌, IfOk, OnOk, [], drop, map, option_map, slice_get, slice_index_or};
ghost use Rattle.mad_mark_runs.specs.Values.{AreRising};
ghost use Rattle.mad_sections.specs.Sections.{page_content, section_content};
ghost use Rattle.markdown_lines.specs.Texts.{behind_mark};
ghost use Rattle.markdown_reader.specs.LinkMarks.{markdown_link_marks, sections_link_marks, unmarked_link_marks};
ghost use Rattle.markdown_reader.specs.Markdown.{printable_sections, without_marks, unmarked_sections, markdown_sections, unmarked_links, markdown_links};
ghost use Rattle.markdown_reader.specs.MappingOf.{mapping_of};
ghost use Rattle.markdown_reader.specs.MarkdownSays.{markdown_says, links_said};
ghost use Rattle.markdown_reader.specs.NumbersIn.{link_marks_said, numbers_in, numbers_said, section_numbers};
ghost use Rattle.markdown_reader.specs.Printed.{ArePrintedSections, ArePrintedLinks};
ghost use Rattle.markdown_reader.specs.SectionNumbers.{unmarked_numbers};
ghost use Rattle.markdown_reader.specs.SectionsLeft.{sections_left};
ghost use Rattle.markdown_reader.specs.SectionsSaid.{link_said, lines_said, section_said};
ghost use Rattle.markdown_reader.specs.Steadied.{IsSteadied, AreSteadied, AreSteadiedLines};
ghost use Rattle.markdown_reader.specs.Steady.{steady_sections, AreSteadySections};

use crate::mapper::Mapper;
use crate::sections::{Link, MarkdownSection};
use mad_mark_runs::MarkRun;
use mad_sections::{Page, Section};
use markdown_definitions::definitions::definitions_of;
use markdown_leaves::read_parts;
use markdown_lines::lines::Lines;
use markdown_lines::texts::behind_mark;
use std::alloc::{AllocError, Global};

/// The sections of a Markdown text, which own their text, and its links.
#[derive(Debug, Drop)]
pub struct Markdown {
    sections: Vec<MarkdownSection>,
    links: Vec<Link>,
}

impl Markdown {
    /// Reads a text, without the byte order mark at its front. Terminals count the columns of what it shows as this project does. Each run is
    /// [`steady`]: soft hyphens, joiners, skin tones and other characters that terminals show in their own ways go, or others stand for them.
    ///
    /// [`steady`]: mad_steady::steady
    ///
    /// # Errors
    ///
    /// Out of memory is the only error.
    pub fn read(alloc: Global, source: &str) -> Result<Markdown, AllocError>
        ensures sections { IfOk result (λ read. markdown_says read ≡ markdown_sections source.now) }
        ensures links { IfOk result (λ read. links_said read ≡ markdown_links source.now) }
        ensures link_marks { IfOk result (λ read. link_marks_said read ≡ markdown_link_marks source.now) }
        ensures printed { IfOk result (λ read. ArePrintedSections (markdown_says read)) }
        ensures steady { IfOk result (λ read. AreSteadySections (markdown_says read)) }
        ensures printed_links { IfOk result (λ read. ArePrintedLinks (links_said read)) }
    {
        let read = Markdown::read_unmarked(alloc, behind_mark(source))?;
        Ok(read)
    }

    /// Reads a text in which a byte order mark is a character like others, as in a part of a text.
    ///
    /// # Errors
    ///
    /// Out of memory is the only error.
    #[tactic(auto, using(crate::proofs::SteadyLemmas::steadied_are, crate::proofs::SteadyLemmas::steadied_steady, crate::proofs::SteadyLemmas::steadied_printed, crate::proofs::LinkMarkLemmas::marks_said))]
    pub fn read_unmarked(alloc: Global, source: &str) -> Result<Markdown, AllocError>
        ensures sections { IfOk result (λ read. markdown_says read ≡ unmarked_sections source.now) }
        ensures links { IfOk result (λ read. links_said read ≡ unmarked_links source.now) }
        ensures link_marks { IfOk result (λ read. link_marks_said read ≡ unmarked_link_marks source.now) }
        ensures printed { IfOk result (λ read. ArePrintedSections (markdown_says read)) }
        ensures steady { IfOk result (λ read. AreSteadySections (markdown_says read)) }
        ensures printed_links { IfOk result (λ read. ArePrintedLinks (links_said read)) }
    {
        let read = Markdown::read_printed(alloc, source)?;
        let sections = steadied(alloc, read.sections)?;
        Ok(Markdown {
            sections,
            links: read.links,
        })
    }

    /// Reads a text, and keeps each printable character as it is. Terminals may count the columns of some of them otherwise. Code has no marks.
    ///
    /// # Errors
    ///
    /// Out of memory is the only error.
    #[tactic(auto, using(crate::proofs::SteadyLemmas::unmarked_printed))]
    pub fn read_printable(alloc: Global, source: &str) -> Result<Markdown, AllocError>
        ensures sections { IfOk result (λ read. markdown_says read ≡ map without_marks (printable_sections (behind_mark source.now))) }
        ensures links { IfOk result (λ read. links_said read ≡ markdown_links source.now) }
        ensures numbers { IfOk result (λ read. numbers_said read ≡ unmarked_numbers (behind_mark source.now)) }
        ensures printed { IfOk result (λ read. ArePrintedSections (markdown_says read)) }
        ensures printed_links { IfOk result (λ read. ArePrintedLinks (links_said read)) }
    {
        let read = Markdown::read_printed(alloc, behind_mark(source))?;
        let sections = unmarked(alloc, read.sections)?;
        Ok(Markdown {
            sections,
            links: read.links,
        })
    }

    // What is read of a text behind its byte order mark has nothing that a terminal obeys.
    #[tactic(auto, using(crate::proofs::PrintedLemmas::markdown_printed, crate::proofs::LinksPrinted::links_printed))]
    fn read_printed(alloc: Global, source: &str) -> Result<Markdown, AllocError>
        ensures sections { IfOk result (λ read. markdown_says read ≡ printable_sections source.now) }
        ensures links { IfOk result (λ read. links_said read ≡ unmarked_links source.now) }
        ensures numbers { IfOk result (λ read. numbers_said read ≡ unmarked_numbers source.now) }
        ensures printed { IfOk result (λ read. ArePrintedSections (markdown_says read)) }
        ensures printed_links { IfOk result (λ read. ArePrintedLinks (links_said read)) }
    {
        let markdown = Markdown::read_sections(alloc, source)?;
        Ok(markdown)
    }

    #[tactic(auto, unfolding(crate::specs::Markdown::printable_sections, crate::specs::Markdown::unmarked_links, crate::specs::SectionNumbers::unmarked_numbers))]
    fn read_sections(alloc: Global, source: &str) -> Result<Markdown, AllocError>
        ensures sections { IfOk result (λ read. markdown_says read ≡ printable_sections source.now) }
        ensures links { IfOk result (λ read. links_said read ≡ unmarked_links source.now) }
        ensures numbers { IfOk result (λ read. numbers_said read ≡ unmarked_numbers source.now) }
    {
        let parts = read_parts(alloc, source.as_bytes())?;
        let definitions = definitions_of(alloc, &parts)?;
        let mut mapper = Mapper::new(alloc)?;
        mapper.show_all(alloc, &definitions, &parts)?;
        Ok(Markdown {
            sections: mapper.sections,
            links: mapper.links,
        })
    }

    /// Takes what a mapper has shown so far. Each run is steady, as in [`Markdown::read`]. The numbers of its links count from its own first section.
    ///
    /// # Errors
    ///
    /// Out of memory is the only error.
    #[tactic(auto, using(crate::proofs::SteadyLemmas::steadied_are))]
    pub fn take(alloc: Global, mapper: &mut Mapper) -> Result<Markdown, AllocError>
        ensures sections { IfOk result (λ read. markdown_says read ≡ steady_sections (mapping_of mapper.old).sections) }
        ensures links { IfOk result (λ read. links_said read ≡ (mapping_of mapper.old).links) }
        ensures numbers { IfOk result (λ read. numbers_said read ≡ numbers_in mapper.old) }
        ensures none { OnOk result (numbers_in mapper.new ≡ []) }
        ensures rest { OnOk result (mapping_of mapper.new ≡ record (mapping_of mapper.old) { sections = []; links = [] }) }
    {
        let taken = mapper.take_sections(alloc);
        let links = mapper.take_links(alloc);
        let sections = steadied(alloc, taken)?;
        Ok(Markdown { sections, links })
    }

    /// A cursor before the first section.
    pub fn sections(&self) -> Sections<'_>
        ensures { sections_left result ≡ markdown_says self.now }
    {
        Sections {
            rest: self.sections.as_slice(),
        }
    }

    /// All sections, as a page.
    ///
    /// # Errors
    ///
    /// Out of memory is the only error.
    pub fn page(&self, alloc: Global) -> Result<Page<'_>, AllocError>
        ensures { IfOk result (λ page. page_content page ≡ markdown_says self.now) }
    {
        let mut sections = Vec::with_capacity(alloc, self.sections.as_slice().len())?;
        let mut rest = self.sections();
        while let Some(section) = rest.next(alloc)? {
            sections.push(section)?;
        }
        Ok(Page { sections })
    }

    /// The marks of the characters of a section that belong to links, as runs. Counted are its characters with the flag of a link, without whitespace, in
    /// the order in which they are shown. The section's link of number j in [`Markdown::links`], counted from 0, has the mark 9 + j. A link within
    /// another has no characters of its own. Where there is no such section, there are no marks.
    ///
    /// # Errors
    ///
    /// Out of memory, which a mark or a count past `usize::MAX` is too.
    #[tactic(auto, using(crate::proofs::LinkMarkLemmas::marks_at, crate::proofs::LinkMarkLemmas::marks_past))]
    pub fn link_marks(&self, alloc: Global, section: usize) -> Result<Vec<MarkRun>, AllocError>
        ensures marks { IfOk result (λ marks. marks.items ≡ slice_index_or (link_marks_said self.now) section []) }
        ensures rising { IfOk result (λ marks. AreRising 0 marks.items) }
    {
        if section >= self.sections.as_slice().len() {
            return Ok(Vec::new(alloc));
        }
        self.sections[section].link_marks(alloc)
    }

    /// The links, in the order of their sections. Those of images aren't among them.
    pub fn links(&self) -> &[Link]
        ensures { map link_said result.now ≡ links_said self.now }
    {
        self.links.as_slice()
    }
}

/// A cursor over the sections of a text.
#[derive(Clone, Copy)]
pub struct Sections<'m> {
    rest: &'m [MarkdownSection],
}

impl<'m> Sections<'m> {
    /// The next section, if there is one.
    ///
    /// # Errors
    ///
    /// Out of memory is the only error.
    pub fn next(&mut self, alloc: Global) -> Result<Option<Section<'m>>, AllocError>
        ensures section { IfOk result (λ found. option_map section_content found ≡ slice_get (sections_left self.old) 0) }
        ensures rest { IfOk result (λ found. sections_left self.new ≡ drop 1 (sections_left self.old)) }
    {
        match self.rest {
            [] => Ok(None),
            [section, rest @ ..] => {
                let made = section.section(alloc)?;
                self.rest = rest;
                Ok(Some(made))
            }
        }
    }
}

// Lines, each of whose runs is steady.
#[tactic(auto, using(crate::proofs::SteadyLemmas::empty_steadied))]
fn steadied_lines(alloc: Global, lines: Option<Lines>) -> Result<Option<Lines>, AllocError>
    ensures { IfOk result (λ made. AreSteadiedLines (lines_said lines) (lines_said made)) }
{
    match lines {
        Some(lines) => {
            let made = lines.into_steady(alloc)?;
            Ok(Some(made))
        }
        None => Ok(None),
    }
}

// A section, each of whose runs is steady.
fn steadied_one(alloc: Global, section: MarkdownSection) -> Result<MarkdownSection, AllocError>
    ensures steadied { IfOk result (λ made. IsSteadied (section_said section) (section_said made)) }
    ensures numbers { IfOk result (λ made. section_numbers made ≡ section_numbers section) }
{
    let lines = steadied_lines(alloc, section.lines)?;
    Ok(MarkdownSection {
        gutters: section.gutters,
        fresh: section.fresh,
        list: section.list,
        marks: section.marks,
        numbers: section.numbers,
        lines,
    })
}

// Sections, each of whose runs is steady.
#[tactic(auto, using(crate::proofs::SteadyLemmas::so_far_none, crate::proofs::SteadyLemmas::so_far_all))]
fn steadied(
    alloc: Global,
    sections: Vec<MarkdownSection>,
) -> Result<Vec<MarkdownSection>, AllocError>
    ensures steadied { IfOk result (λ made. AreSteadied (map section_said sections.items) (map section_said made.items)) }
    ensures numbers { IfOk result (λ made. map section_numbers made.items ≡ map section_numbers sections.items) }
{
    let mut made = Vec::with_capacity(alloc, sections.as_slice().len())?;
    for section in sections {
        let steady = steadied_one(alloc, section)?;
        made.push(steady)?;
    }
    Ok(made)
}

// A section without its marks.
fn without_marks(alloc: Global, section: MarkdownSection) -> MarkdownSection
    ensures section { section_said result ≡ without_marks (section_said section) }
    ensures numbers { section_numbers result ≡ section_numbers section }
{
    MarkdownSection {
        gutters: section.gutters,
        fresh: section.fresh,
        list: section.list,
        marks: Vec::new(alloc),
        numbers: section.numbers,
        lines: section.lines,
    }
}

// Sections without their marks.
fn unmarked(
    alloc: Global,
    sections: Vec<MarkdownSection>,
) -> Result<Vec<MarkdownSection>, AllocError>
    ensures sections { IfOk result (λ made. map section_said made.items ≡ map without_marks (map section_said sections.items)) }
    ensures numbers { IfOk result (λ made. map section_numbers made.items ≡ map section_numbers sections.items) }
{
    let mut made = Vec::with_capacity(alloc, sections.as_slice().len())?;
    for section in sections {
        made.push(without_marks(alloc, section))?;
    }
    Ok(made)
}
