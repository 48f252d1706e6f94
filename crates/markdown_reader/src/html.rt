//! What a block of html is shown as: its leaves, one after the other.

ghost use Rattle.std.specs.Prelude.{◌≡◌, ◌++◌, [], OnOk, map};
ghost use Rattle.markdown_html_text.specs.HtmlLeaves.{html_leaves};
ghost use Rattle.markdown_leaves.specs.Defining.{joined};
ghost use Rattle.markdown_lines.specs.Links.{Defined};
ghost use Rattle.markdown_marks.specs.Remaining.{remaining};
ghost use Rattle.markdown_reader.specs.Mapping.{html_leaf, html_parts, shown_part, shown_parts};
ghost use Rattle.markdown_reader.specs.MappingOf.{mapping_of};
ghost use Rattle.markdown_reader.specs.NumbersIn.{numbers_in};
ghost use Rattle.markdown_reader.specs.SectionNumbers.{added_numbers, part_numbers, parts_numbers};

use crate::mapper::Mapper;
use markdown_html_text::leaves::html_leaves;
use markdown_leaves::defining::joined;
use markdown_marks::rest::Rest;
use std::alloc::{AllocError, Global};

impl Mapper {
    /// A leaf of html, as a part of its own.
    ///
    /// # Errors
    ///
    /// Out of memory is the only error.
    #[tactic(auto, unfolding(crate::specs::Mapping::shown_part, markdown_leaves::specs::Defining::joined))]
    pub(crate) fn show_html_leaf(
        &mut self,
        alloc: Global,
        apart: bool,
        leaf: &[u8],
    ) -> Result<(), AllocError>
        ensures mapping { OnOk result ((defined : Defined) → mapping_of self.new ≡ shown_part defined (html_leaf apart leaf.now) (mapping_of self.old)) }
        ensures numbers { OnOk result ((defined : Defined) → numbers_in self.new ≡ numbers_in self.old ++ added_numbers (part_numbers defined (mapping_of self.old) (html_leaf apart leaf.now)) (mapping_of self.old) (mapping_of self.new)) }
    {
        self.pass(apart);
        self.end_list()?;
        self.show_html(alloc, leaf)
    }

    // The leaves of a block of html, one after the other.
    fn show_html_leaves(
        &mut self,
        alloc: Global,
        apart: bool,
        leaves: &[&[u8]],
    ) -> Result<(), AllocError>
        ensures mapping { OnOk result ((defined : Defined) → mapping_of self.new ≡ shown_parts defined (html_parts apart (map (λ leaf. leaf.now) leaves.now)) (mapping_of self.old)) }
        ensures numbers { OnOk result ((defined : Defined) → numbers_in self.new ≡ numbers_in self.old ++ parts_numbers defined (html_parts apart (map (λ leaf. leaf.now) leaves.now)) (mapping_of self.old)) }
    {
        let mut before = apart;
        let mut rest = leaves;
        while let [leaf, next @ ..] = rest {
            self.show_html_leaf(alloc, before, *leaf)?;
            before = false;
            rest = next;
        }
        Ok(())
    }

    /// A block of html, leaf by leaf.
    ///
    /// # Errors
    ///
    /// Out of memory is the only error.
    pub(crate) fn show_html_block(
        &mut self,
        alloc: Global,
        apart: bool,
        lines: &[Rest<'_>],
    ) -> Result<(), AllocError>
        ensures mapping { OnOk result ((defined : Defined) → mapping_of self.new ≡ shown_parts defined (html_parts apart (html_leaves (joined [] (map remaining lines.now)))) (mapping_of self.old)) }
        ensures numbers { OnOk result ((defined : Defined) → numbers_in self.new ≡ numbers_in self.old ++ parts_numbers defined (html_parts apart (html_leaves (joined [] (map remaining lines.now)))) (mapping_of self.old)) }
    {
        let bytes = joined(alloc, lines)?;
        let leaves = html_leaves(alloc, &bytes)?;
        self.show_html_leaves(alloc, apart, &leaves)?;
        Ok(())
    }
}
