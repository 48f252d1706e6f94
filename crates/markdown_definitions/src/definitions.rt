//! The definitions of a text: their labels, and where each leads.

ghost use Rattle.std.specs.Prelude.{◌≡◌, IfOk, OnOk, length, take, map};
ghost use Rattle.markdown_brackets.specs.Labels.{normal};
ghost use Rattle.markdown_marks.specs.Remaining.{remaining};
ghost use Rattle.markdown_leaves.specs.Parts.{part_of};
ghost use Rattle.markdown_lines.specs.LinksOf.{defined_of};
ghost use Rattle.markdown_definitions.specs.Definitions.{label_of, with_definition, defined_in, leaf_defined, part_defined, nothing_defined, definitions_of};

use markdown_brackets::labels::{Labels, normal};
use markdown_cells::cells::without_first;
use markdown_leaves::defining::joined;
use markdown_leaves::{Kind, Part};
use markdown_lines::links::{Definitions, definition_address};
use markdown_marks::definitions::{after_definition, after_label};
use markdown_marks::rest::Rest;
use std::alloc::{AllocError, Global};

// So many of the first bytes.
fn front(bytes: &[u8], count: usize) -> &[u8]
    ensures { result.now ≡ take count bytes.entry.now }
{
    if count < bytes.len() {
        &bytes[..count]
    } else {
        bytes
    }
}

// The label in front of a definition.
fn label_of(text: &[u8]) -> &[u8]
    ensures { result.now ≡ label_of text.entry.now }
{
    let inside = without_first(text);
    match after_label(inside) {
        None => inside,
        Some(rest) => front(
            inside,
            inside.len().saturating_sub(rest.len()).saturating_sub(1),
        ),
    }
}

// Adds the definition with which a text begins, if its label is new.
fn push_definition(
    alloc: Global,
    definitions: &mut Definitions,
    text: &[u8],
) -> Result<(), AllocError>
    ensures { OnOk result (defined_of definitions.new ≡ with_definition (defined_of definitions.old) (normal (label_of text.now)) text.now) }
{
    match normal(alloc, label_of(text))? {
        None => Ok(()),
        Some(label) => {
            if definitions.labels.insert(label)? {
                let address = definition_address(alloc, text)?;
                definitions.addresses.push(address)?;
            }
            Ok(())
        }
    }
}

// Adds the definitions in front.
#[tactic(auto, unfolding(crate::specs::Definitions::defined_in))]
fn push_definitions(
    alloc: Global,
    definitions: &mut Definitions,
    text: &[u8],
) -> Result<(), AllocError>
    ensures { OnOk result (defined_of definitions.new ≡ defined_in (length text.now) (defined_of definitions.old) text.now) }
{
    let mut rest = text;
    let mut count = text.len();
    while count > 0 {
        match after_definition(rest) {
            None => return Ok(()),
            Some(next) => {
                push_definition(alloc, definitions, rest)?;
                rest = next;
                count -= 1;
            }
        }
    }
    Ok(())
}

fn push_leaf_definitions(
    alloc: Global,
    definitions: &mut Definitions,
    kind: Kind,
    lines: &[Rest<'_>],
) -> Result<(), AllocError>
    ensures { OnOk result (defined_of definitions.new ≡ leaf_defined kind (defined_of definitions.old) (map remaining lines.now)) }
{
    match kind {
        Kind::Definitions => {
            let text = joined(alloc, lines)?;
            push_definitions(alloc, definitions, text.as_slice())
        }
        Kind::Nothing
        | Kind::Paragraph
        | Kind::Heading(_)
        | Kind::Indented
        | Kind::Fenced
        | Kind::Html
        | Kind::Table(_)
        | Kind::Rule => Ok(()),
    }
}

/// Adds the definitions of a part whose labels are new.
///
/// # Errors
///
/// Out of memory is the only error.
pub fn push_part_definitions(
    alloc: Global,
    definitions: &mut Definitions,
    part: &Part<'_>,
) -> Result<(), AllocError>
    ensures { OnOk result (defined_of definitions.new ≡ part_defined (defined_of definitions.old) (part_of part.now)) }
{
    match part {
        Part::Block(block) => push_leaf_definitions(alloc, definitions, block.kind, &block.lines),
        Part::Begins(_, _) | Part::Ends => Ok(()),
    }
}

/// No definitions.
pub fn no_definitions(alloc: Global) -> Definitions
    ensures { defined_of result ≡ nothing_defined }
{
    Definitions {
        labels: Labels::new(alloc),
        addresses: Vec::new(alloc),
    }
}

/// All definitions, each with where it leads, in the order in which each label is defined first.
///
/// # Errors
///
/// Out of memory is the only error.
#[tactic(auto, unfolding(crate::specs::Definitions::parts_defined))]
pub fn definitions_of(alloc: Global, parts: &[Part<'_>]) -> Result<Definitions, AllocError>
    ensures { IfOk result (λ definitions. defined_of definitions ≡ definitions_of (map part_of parts.now)) }
{
    let mut definitions = Definitions {
        labels: Labels::new(alloc),
        addresses: Vec::new(alloc),
    };
    let mut rest = parts;
    while let [part, next @ ..] = rest {
        push_part_definitions(alloc, &mut definitions, part)?;
        rest = next;
    }
    Ok(definitions)
}
