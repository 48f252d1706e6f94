//! The names in a text to which links go.

ghost use Rattle.std.specs.Prelude.{◌≡◌, ◌++◌, [], IfOk, OnOk, List, map, length, string_bytes};
ghost use Rattle.std.specs.List.{flat_map};
ghost use Rattle.markdown_html_text.specs.HtmlLeaves.{html_leaves};
ghost use Rattle.markdown_leaves.specs.Defining.{joined};
ghost use Rattle.markdown_leaves.specs.Parts.{block, block_of, part_of};
ghost use Rattle.markdown_leaves.specs.Told.{parts_of};
ghost use Rattle.markdown_lines.specs.Links.{Defined};
ghost use Rattle.markdown_lines.specs.LinksOf.{defined_of};
ghost use Rattle.markdown_lines.specs.Names.{html_names};
ghost use Rattle.markdown_marks.specs.Remaining.{remaining};
ghost use Rattle.markdown_reader.specs.Anchors.{anchor_at, anchor_said, kind_names, part_anchors, parts_anchors, unmarked_anchors, markdown_anchors};
ghost use Rattle.markdown_reader.specs.Mapping.{html_leaf, html_parts, html_text, leaves_in, shown_part, shown_parts, text_of};
ghost use Rattle.markdown_reader.specs.MappingOf.{mapping_of};

use crate::mapper::{Mapper, html_text, text_of};
use markdown_definitions::definitions::definitions_of;
use markdown_html_text::leaves::html_leaves;
use markdown_leaves::defining::joined;
use markdown_leaves::{Block, Kind, Part, read_parts};
use markdown_lines::links::Definitions;
use markdown_lines::names::{html_names, leaf_names};
use markdown_lines::texts::behind_mark;
use std::alloc::{AllocError, Global};

/// A name in a text to which links go: the `id` of a tag of html, or the `name` of a tag `a`.
#[derive(Debug, Drop)]
pub struct Anchor {
    /// How many sections are before the leaf where it stands. So it is the index of this leaf, of the blank row before it, or, where nothing of it is shown, of
    /// the next one. There may be none.
    pub section: usize,
    pub name: String,
}

// Adds names at a section.
fn push_names(
    anchors: &mut Vec<Anchor>,
    section: usize,
    names: Vec<String>,
) -> Result<(), AllocError>
    ensures { OnOk result (map anchor_said anchors.new.items ≡ map anchor_said anchors.old.items ++ map (anchor_at section) (map string_bytes names.items)) }
{
    for name in names {
        anchors.push(Anchor { section, name })?;
    }
    Ok(())
}

// The names of a leaf that isn't html.
fn block_names(
    alloc: Global,
    definitions: &Definitions,
    leaf: &Block<'_>,
) -> Result<Vec<String>, AllocError>
    ensures { IfOk result (λ names. map string_bytes names.items ≡ kind_names (defined_of definitions.now) (block_of leaf.now).kind (block_of leaf.now).lines) }
{
    match leaf.kind {
        Kind::Paragraph | Kind::Heading(_) => {
            let bytes = joined(alloc, &leaf.lines)?;
            let text = text_of(alloc, &bytes)?;
            leaf_names(alloc, definitions, text.as_str())
        }
        Kind::Html => {
            let bytes = joined(alloc, &leaf.lines)?;
            let text = html_text(alloc, &bytes)?;
            html_names(alloc, text.as_str())
        }
        Kind::Nothing
        | Kind::Definitions
        | Kind::Indented
        | Kind::Fenced
        | Kind::Table(_)
        | Kind::Rule => Ok(Vec::new(alloc)),
    }
}

// A leaf of html: its names, and what it is shown as.
fn push_html_leaf(
    alloc: Global,
    anchors: &mut Vec<Anchor>,
    mapper: &mut Mapper,
    apart: bool,
    leaf: &[u8],
) -> Result<(), AllocError>
    ensures anchors { OnOk result ((defined : Defined) → map anchor_said anchors.new.items ≡ map anchor_said anchors.old.items ++ part_anchors defined (html_leaf apart leaf.now) (mapping_of mapper.old)) }
    ensures mapping { OnOk result ((defined : Defined) → mapping_of mapper.new ≡ shown_part defined (html_leaf apart leaf.now) (mapping_of mapper.old)) }
{
    let text = html_text(alloc, leaf)?;
    let names = html_names(alloc, text.as_str())?;
    push_names(anchors, mapper.sections.as_slice().len(), names)?;
    mapper.show_html_leaf(alloc, apart, leaf)?;
    Ok(())
}

// The leaves of a block of html, one after the other.
fn push_html_leaves(
    alloc: Global,
    anchors: &mut Vec<Anchor>,
    mapper: &mut Mapper,
    apart: bool,
    leaves: &[&[u8]],
) -> Result<(), AllocError>
    ensures anchors { OnOk result ((defined : Defined) → map anchor_said anchors.new.items ≡ map anchor_said anchors.old.items ++ parts_anchors defined (html_parts apart (map (λ leaf. leaf.now) leaves.now)) (mapping_of mapper.old)) }
    ensures mapping { OnOk result ((defined : Defined) → mapping_of mapper.new ≡ shown_parts defined (html_parts apart (map (λ leaf. leaf.now) leaves.now)) (mapping_of mapper.old)) }
{
    let mut before = apart;
    let mut rest = leaves;
    while let [leaf, next @ ..] = rest {
        push_html_leaf(alloc, anchors, mapper, before, *leaf)?;
        before = false;
        rest = next;
    }
    Ok(())
}

// A leaf: its names, and what it is shown as.
fn push_block(
    alloc: Global,
    anchors: &mut Vec<Anchor>,
    mapper: &mut Mapper,
    definitions: &Definitions,
    leaf: &Block<'_>,
) -> Result<(), AllocError>
    ensures anchors { OnOk result (map anchor_said anchors.new.items ≡ map anchor_said anchors.old.items ++ part_anchors (defined_of definitions.now) (block (block_of leaf.now)) (mapping_of mapper.old)) }
    ensures mapping { OnOk result (mapping_of mapper.new ≡ shown_part (defined_of definitions.now) (block (block_of leaf.now)) (mapping_of mapper.old)) }
{
    let names = block_names(alloc, definitions, leaf)?;
    push_names(anchors, mapper.sections.as_slice().len(), names)?;
    mapper.show_block(alloc, definitions, leaf)?;
    Ok(())
}

// A part of the text: its names, and what it is shown as.
#[tactic(auto, unfolding(crate::specs::Mapping::shown_parts, crate::specs::Anchors::parts_anchors))]
fn push_part(
    alloc: Global,
    anchors: &mut Vec<Anchor>,
    mapper: &mut Mapper,
    definitions: &Definitions,
    part: &Part<'_>,
) -> Result<(), AllocError>
    ensures anchors { OnOk result (map anchor_said anchors.new.items ≡ map anchor_said anchors.old.items ++ parts_anchors (defined_of definitions.now) (leaves_in (part_of part.now)) (mapping_of mapper.old)) }
    ensures mapping { OnOk result (mapping_of mapper.new ≡ shown_parts (defined_of definitions.now) (leaves_in (part_of part.now)) (mapping_of mapper.old)) }
{
    match part {
        Part::Begins(_, _) | Part::Ends => mapper.show(alloc, definitions, part),
        Part::Block(leaf) => match leaf.kind {
            Kind::Html => {
                let bytes = joined(alloc, &leaf.lines)?;
                let leaves = html_leaves(alloc, &bytes)?;
                push_html_leaves(alloc, anchors, mapper, leaf.apart, &leaves)
            }
            _ => push_block(alloc, anchors, mapper, definitions, leaf),
        },
    }
}

// The names in a text behind its byte order mark.
fn unmarked_anchors(alloc: Global, source: &str) -> Result<Vec<Anchor>, AllocError>
    ensures { IfOk result (λ anchors. map anchor_said anchors.items ≡ unmarked_anchors source.now) }
{
    let parts = read_parts(alloc, source.as_bytes())?;
    let definitions = definitions_of(alloc, &parts)?;
    let mut mapper = Mapper::new(alloc)?;
    let mut anchors = Vec::new(alloc);
    let mut rest = parts.as_slice();
    while let [part, next @ ..] = rest {
        push_part(alloc, &mut anchors, &mut mapper, &definitions, part)?;
        rest = next;
    }
    Ok(anchors)
}

/// The names in a text to which links go, in order: each `id` of a tag of html, and each `name` of a tag `a`. Those in tables are left out. It reads
/// the text by itself.
///
/// # Errors
///
/// Out of memory is the only error.
pub fn read_anchors(alloc: Global, source: &str) -> Result<Vec<Anchor>, AllocError>
    ensures { IfOk result (λ anchors. map anchor_said anchors.items ≡ markdown_anchors source.now) }
{
    unmarked_anchors(alloc, behind_mark(source))
}
