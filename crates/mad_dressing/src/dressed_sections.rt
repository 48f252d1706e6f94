//! The sections that are shown in the place of one.

ghost use Rattle.std.specs.Prelude.{◌≡◌, ◌∷◌, [], None, map, IfOk};
ghost use Rattle.mad_md.specs.Lines.{contents, horizontal_rule};
ghost use Rattle.mad_sections.specs.Sections.{section_content};
ghost use Rattle.mad_dressing.specs.Dressed.{beside_of, dressed_by, placed_by, put_of, rule_behind, sections_dressed, signed};

use crate::dressings::{Dressing, HeadingDressing};
use crate::marked_sections::worded;
use crate::picture_signs::pictured;
use mad_md::{Line, Text};
use mad_sections::{Gutter, Section};
use std::alloc::{AllocError, Global};

/// A section with what is put into the page with it.
#[derive(Debug, PartialEq, Drop)]
pub struct Dressed<'s> {
    /// The section, with marks at its words or without, and with a sign in front of what is said of each picture. A heading with signs is behind one
    /// gutter more.
    pub section: Section<'s>,
    /// The rule below it, if it has one: a section of its own.
    pub rule: Option<Section<'s>>,
}

/// A section with what is put into the page with it. None of its text changes.
///
/// # Errors
///
/// Out of memory is the only error.
pub fn dress<'s>(
    alloc: Global,
    section: Section<'s>,
    dressing: &'s Dressing,
) -> Result<Dressed<'s>, AllocError>
    ensures { IfOk result (λ dressed. sections_dressed dressed ≡ dressed_by (put_of dressing.entry.now) (section_content section.entry)) }
{
    let marked = worded(alloc, section, dressing.words)?;
    let own = pictured(alloc, marked, &dressing.sign)?;
    placed(alloc, own, &dressing.beside)
}

// A section with what stands beside it.
fn placed<'s>(
    alloc: Global,
    section: Section<'s>,
    beside: &'s HeadingDressing,
) -> Result<Dressed<'s>, AllocError>
    ensures { IfOk result (λ dressed. sections_dressed dressed ≡ placed_by (beside_of beside.entry.now) (section_content section.entry)) }
{
    match beside {
        HeadingDressing::Nothing => Ok(Dressed {
            section,
            rule: None,
        }),
        HeadingDressing::Rule(gutters) => {
            let rule = rule_behind(alloc, gutters)?;
            Ok(Dressed {
                section,
                rule: Some(rule),
            })
        }
        HeadingDressing::Signs(gutters) => Ok(Dressed {
            section: signed(section, gutters),
            rule: None,
        }),
    }
}

// A section that is one rule, behind these gutters.
fn rule_behind<'s>(alloc: Global, gutters: &'s [Gutter]) -> Result<Section<'s>, AllocError>
    ensures { IfOk result (λ section. section_content section ≡ rule_behind gutters.entry.now) }
{
    let text = rule_text(alloc)?;
    Ok(Section {
        gutters,
        fresh: 0,
        list: None,
        marks: &[],
        text,
    })
}

// A text that is one rule.
fn rule_text<'s>(alloc: Global) -> Result<Text<'s>, AllocError>
    ensures { IfOk result (λ text. contents text ≡ horizontal_rule ∷ []) }
{
    let mut lines = Vec::new(alloc);
    lines.push(Line::HorizontalRule)?;
    Ok(Text { lines })
}

// A section behind its gutters and one more, which begins with it.
fn signed<'s>(section: Section<'s>, gutters: &'s [Gutter]) -> Section<'s>
    ensures { section_content result ≡ signed gutters.entry.now (section_content section.entry) }
{
    Section {
        gutters,
        fresh: section.fresh.min(section.gutters.len()).saturating_add(1),
        list: section.list,
        marks: section.marks,
        text: section.text,
    }
}
