//! Sections that own their text.

ghost use Rattle.std.specs.Prelude.{◌≡◌, ◌++◌, ◌∷◌, [], IfOk, OnOk, map, option_map, string_bytes};
ghost use Rattle.mad_sections.specs.Sections.{section_content};
ghost use Rattle.markdown_lines.specs.LinksOf as LineLinks;
ghost use Rattle.markdown_reader.specs.Mapping.{address_said, link_at};
ghost use Rattle.mad_md.specs.Lines.{content_of};
ghost use Rattle.mad_md.specs.declared.composite.CompositeStyle.TheVariants.{Paragraph};
ghost use Rattle.markdown_lines.specs.Restyled.{empty_line};
ghost use Rattle.mad_mark_runs.specs.Values.{AreRising};
ghost use Rattle.markdown_reader.specs.NumbersIn.{section_link_marks};
ghost use Rattle.markdown_reader.specs.SectionsSaid.{link_said, lines_said, section_said};

use mad_link_marks::link_marks::{link_texts, text_marks};
use mad_mark_runs::MarkRun;
use mad_md::{Composite, CompositeStyle, Line, Text};
use mad_sections::{Gutter, Section};
use markdown_lines::lines::Lines;
use markdown_lines::links as line_links;
use std::alloc::{AllocError, Global};

/// The lines of a leaf, which own their text, behind the gutters of the quotes and items that it is in.
#[derive(Debug, Drop)]
pub struct MarkdownSection {
    /// The gutters, the outermost first.
    pub(crate) gutters: Vec<Gutter>,
    /// How many of the last gutters begin here.
    pub(crate) fresh: usize,
    /// Of a table the gutters of its items, if it is shown as a list.
    pub(crate) list: Option<Vec<Gutter>>,
    /// The marks of its counted characters.
    pub(crate) marks: Vec<MarkRun>,
    /// For each run that belongs to a link, the number of this link among those of the section.
    pub(crate) numbers: Vec<usize>,
    /// The lines; none where it is one row without text.
    pub(crate) lines: Option<Lines>,
}

// One line without text.
fn empty_text<'m>(alloc: Global) -> Result<Vec<Line<'m>>, AllocError>
    ensures { IfOk result (λ made. map content_of made.items ≡ empty_line Paragraph ∷ []) }
{
    let mut lines = Vec::new(alloc);
    lines.push(Line::Normal(Composite {
        style: CompositeStyle::Paragraph,
        compounds: Vec::new(alloc),
    }))?;
    Ok(lines)
}

impl MarkdownSection {
    // The lines as the library has them.
    fn text_lines(&self, alloc: Global) -> Result<Vec<Line<'_>>, AllocError>
        ensures { IfOk result (λ made. map content_of made.items ≡ lines_said self.now.lines) }
    {
        match &self.lines {
            Some(lines) => lines.text_lines(alloc),
            None => empty_text(alloc),
        }
    }

    // Of a table the gutters of its items.
    fn list_gutters(&self) -> Option<&[Gutter]>
        ensures { option_map (λ gs. gs.now) result ≡ option_map (λ gs. gs.items) self.now.list }
    {
        match &self.list {
            Some(list) => Some(list.as_slice()),
            None => None,
        }
    }

    /// The section as the library has it.
    ///
    /// # Errors
    ///
    /// Out of memory is the only error.
    pub(crate) fn section(&self, alloc: Global) -> Result<Section<'_>, AllocError>
        ensures { IfOk result (λ section. section_content section ≡ section_said self.now) }
    {
        let lines = self.text_lines(alloc)?;
        Ok(Section {
            gutters: self.gutters.as_slice(),
            fresh: self.fresh,
            list: self.list_gutters(),
            marks: self.marks.as_slice(),
            text: Text { lines },
        })
    }

    /// The marks of its characters that belong to links.
    ///
    /// # Errors
    ///
    /// Out of memory, which a mark or a count past `usize::MAX` is too.
    #[tactic(auto, unfolding(mad_link_marks::specs::LinkMarks::marks_behind))]
    pub(crate) fn link_marks(&self, alloc: Global) -> Result<Vec<MarkRun>, AllocError>
        ensures marks { IfOk result (λ marks. marks.items ≡ section_link_marks self.now) }
        ensures rising { IfOk result (λ marks. AreRising 0 marks.items) }
    {
        match self.numbers.as_slice() {
            [] => Ok(Vec::new(alloc)),
            numbers => {
                let lines = self.text_lines(alloc)?;
                let texts = link_texts(alloc, &lines)?;
                text_marks(alloc, numbers, &texts)
            }
        }
    }
}

/// A link of a text.
#[derive(Debug, Drop)]
pub struct Link {
    /// The index of the section that it is in.
    pub section: usize,
    /// Where it leads, as it is shown: without escapes and entities, and without a character that a terminal obeys.
    pub address: String,
}

/// Adds links of one section.
pub(crate) fn push_links(
    links: &mut Vec<Link>,
    section: usize,
    addresses: Vec<String>,
) -> Result<(), AllocError>
    ensures { OnOk result (map link_said links.new.items ≡ map link_said links.old.items ++ map (link_at section) (map string_bytes addresses.items)) }
{
    for address in addresses {
        links.push(Link { section, address })?;
    }
    Ok(())
}

/// Where links lead, without their places.
pub(crate) fn addresses_of(
    alloc: Global,
    links: Vec<line_links::Link>,
) -> Result<Vec<String>, AllocError>
    ensures { IfOk result (λ addresses. map string_bytes addresses.items ≡ map address_said (map LineLinks.link_of links.items)) }
{
    let mut addresses = Vec::new(alloc);
    for link in links {
        addresses.push(link.address)?;
    }
    Ok(addresses)
}
