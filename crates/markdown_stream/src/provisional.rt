//! Definitions that count in a leaf before they come: `[text][label]` and `[label][]` are links by their shape.

ghost use Rattle.std.specs.Prelude.{◌≡◌, ◌==◌, ◌∷◌, false, drop, IfOk, OnOk, map, option_map};
ghost use Rattle.std.specs.List.{list_all};
ghost use Rattle.std.specs.Char.{is_ascii_digit};
ghost use Rattle.markdown_brackets.specs.Labels.{normal};
ghost use Rattle.markdown_brackets.specs.Targets.{full_label_len};
ghost use Rattle.markdown_leaves.specs.Parts.{part_of};
ghost use Rattle.markdown_lines.specs.LinksOf.{defined_of};
ghost use Rattle.markdown_marks.specs.Remaining.{remaining};
ghost use Rattle.markdown_stream.specs.Provisional.{is_word, inside, named, named_by, label_by, labels_from, labels_named, may_name, with_label, with_labels, provided_or, leaf_provided, part_provided};
ghost use Rattle.markdown_stream.specs.Openings.{opening_of, openings_of};

use markdown_brackets::labels::normal;
use markdown_brackets::targets::{collapsed_len, full_label_len};
use markdown_leaves::defining::joined;
use markdown_leaves::{Kind, Part};
use markdown_lines::links::Definitions;
use markdown_marks::bytes::first;
use markdown_marks::rest::Rest;
use std::alloc::{AllocError, Global};

// A bracket that is open.
#[derive(Clone, Copy)]
struct Bracket<'t> {
    // What stands behind it.
    behind: &'t [u8],
    // Whether it may begin a link by its shape.
    free: bool,
}

// Whether a bracket right behind this byte begins no link by its shape.
fn is_word(b: u8) -> bool
    ensures { result ≡ is_word b }
{
    b.is_ascii_alphanumeric() || b == b'_' || b == b')' || b == b']'
}

// Whether these bytes are digits alone.
fn is_number(bytes: &[u8]) -> bool
    ensures { result ≡ list_all is_ascii_digit bytes.now }
{
    bytes.iter().all(|b| b.is_ascii_digit())
}

// Whether a closing bracket stands before an opening one. Without that a text names no label by its shape.
#[tactic(auto, unfolding(crate::specs::Provisional::may_name))]
fn may_name(text: &[u8]) -> bool
    ensures { result ≡ may_name text.now }
{
    let mut rest = text;
    while let [b, next @ ..] = rest {
        if *b == b']' && first(next) == b'[' {
            return true;
        }
        rest = next;
    }
    false
}

// Adds a label that leads nowhere for now, if it isn't defined.
fn push_label(alloc: Global, definitions: &mut Definitions, label: &[u8]) -> Result<(), AllocError>
    ensures { OnOk result (defined_of definitions.new ≡ with_label (defined_of definitions.old) (normal label.now)) }
{
    match normal(alloc, label)? {
        None => Ok(()),
        Some(label) => {
            if definitions.labels.insert(label)? {
                definitions.addresses.push(String::new(alloc))?;
            }
            Ok(())
        }
    }
}

// Adds the label that stands in brackets of its own in front, or what is between the first two where these hold nothing.
#[tactic(auto, unfolding(crate::specs::Provisional::with_labels))]
fn push_label_by(
    alloc: Global,
    definitions: &mut Definitions,
    between: &[u8],
    rest: &[u8],
) -> Result<(), AllocError>
    ensures { OnOk result (defined_of definitions.new ≡ with_labels (defined_of definitions.old) (label_by (full_label_len rest.now) between.now rest.now)) }
{
    if let Some(len) = full_label_len(rest) {
        return push_label(alloc, definitions, &rest[1..1 + len]);
    }
    if collapsed_len(rest) == 2 {
        push_label(alloc, definitions, between)
    } else {
        Ok(())
    }
}

// Adds the label that a closing bracket names, by what is between the brackets and what follows.
#[tactic(auto, unfolding(crate::specs::Provisional::with_labels))]
fn push_named(
    alloc: Global,
    definitions: &mut Definitions,
    free: bool,
    between: &[u8],
    rest: &[u8],
) -> Result<(), AllocError>
    ensures { OnOk result (defined_of definitions.new ≡ with_labels (defined_of definitions.old) (named_by free between.now rest.now)) }
{
    if free && !is_number(between) {
        push_label_by(alloc, definitions, between, rest)
    } else {
        Ok(())
    }
}

// What stands between an open bracket and the closing one that this rest follows.
fn inside<'t>(bracket: Bracket<'t>, rest: &[u8]) -> &'t [u8]
    ensures { result.now ≡ inside (opening_of bracket.entry) rest.now }
{
    let all = bracket.behind;
    &all[..all.len().saturating_sub(rest.len()).saturating_sub(1)]
}

// A closing bracket comes: the nearest that is open is so no more, and the label that they name is added.
fn close(
    alloc: Global,
    definitions: &mut Definitions,
    opens: &mut Vec<Bracket<'_>>,
    next: &[u8],
) -> Result<(), AllocError>
    ensures labels { OnOk result (defined_of definitions.new ≡ with_labels (defined_of definitions.old) (named (openings_of opens.old.items) next.now)) }
    ensures opens { openings_of opens.new.items ≡ drop 1 (openings_of opens.old.items) }
{
    match opens.pop() {
        None => Ok(()),
        Some(bracket) => {
            let between = inside(bracket, next);
            push_named(alloc, definitions, bracket.free, between, next)
        }
    }
}

// A byte comes that no backslash is in front of.
fn read_byte<'t>(
    alloc: Global,
    definitions: &mut Definitions,
    opens: &mut Vec<Bracket<'t>>,
    before: u8,
    b: u8,
    next: &'t [u8],
) -> Result<(), AllocError>
    ensures { OnOk result (with_labels (defined_of definitions.new) (labels_from (openings_of opens.new.items) b (b == 92) next.now) ≡ with_labels (defined_of definitions.old) (labels_from (openings_of opens.old.items) before false (b ∷ next.now))) }
{
    if b == b'[' {
        let free = !is_word(before);
        opens.push(Bracket { behind: next, free })?;
        Ok(())
    } else if b == b']' {
        close(alloc, definitions, opens, next)
    } else {
        Ok(())
    }
}

// Adds the labels that a text names by their shape.
fn push_labels(alloc: Global, definitions: &mut Definitions, text: &[u8]) -> Result<(), AllocError>
    ensures { OnOk result (defined_of definitions.new ≡ with_labels (defined_of definitions.old) (labels_named text.now)) }
{
    let mut opens = Vec::new(alloc);
    let mut before = 0;
    let mut escaped = false;
    let mut rest = text;
    while let [b, next @ ..] = rest {
        if escaped {
            escaped = false;
        } else {
            read_byte(alloc, definitions, &mut opens, before, *b, next)?;
            escaped = *b == b'\\';
        }
        before = *b;
        rest = next;
    }
    Ok(())
}

// The same definitions, which are owned.
fn copied(alloc: Global, definitions: &Definitions) -> Result<Definitions, AllocError>
    ensures { IfOk result (λ copy. defined_of copy ≡ defined_of definitions.now) }
{
    let mut addresses = Vec::new(alloc);
    for address in &definitions.addresses {
        addresses.push(String::from_str(alloc, address.as_str())?)?;
    }
    Ok(Definitions {
        labels: definitions.labels.copied()?,
        addresses,
    })
}

// The definitions for a leaf of this text; none where those that there are suffice.
fn text_provided(
    alloc: Global,
    definitions: &Definitions,
    text: &[u8],
) -> Result<Option<Definitions>, AllocError>
    ensures { IfOk result (λ provided. provided_or (option_map defined_of provided) (defined_of definitions.now) ≡ with_labels (defined_of definitions.now) (labels_named text.now)) }
{
    if !may_name(text) {
        return Ok(None);
    }
    let mut provided = copied(alloc, definitions)?;
    push_labels(alloc, &mut provided, text)?;
    Ok(Some(provided))
}

// The same for a leaf of this kind.
fn leaf_provided(
    alloc: Global,
    definitions: &Definitions,
    kind: Kind,
    lines: &[Rest<'_>],
) -> Result<Option<Definitions>, AllocError>
    ensures { IfOk result (λ provided. provided_or (option_map defined_of provided) (defined_of definitions.now) ≡ leaf_provided kind (defined_of definitions.now) (map remaining lines.now)) }
{
    match kind {
        Kind::Paragraph | Kind::Heading(_) | Kind::Table(_) => {
            let text = joined(alloc, lines)?;
            text_provided(alloc, definitions, text.as_slice())
        }
        Kind::Nothing
        | Kind::Indented
        | Kind::Fenced
        | Kind::Html
        | Kind::Rule
        | Kind::Definitions => Ok(None),
    }
}

/// The definitions by which a part is shown: those that came up to it, and for now those that its words name by their shape. A label of these
/// leads nowhere. None where the part names none.
///
/// # Errors
///
/// Out of memory is the only error.
pub(crate) fn part_provided(
    alloc: Global,
    definitions: &Definitions,
    part: &Part<'_>,
) -> Result<Option<Definitions>, AllocError>
    ensures { IfOk result (λ provided. provided_or (option_map defined_of provided) (defined_of definitions.now) ≡ part_provided (defined_of definitions.now) (part_of part.now)) }
{
    match part {
        Part::Block(block) => leaf_provided(alloc, definitions, block.kind, &block.lines),
        Part::Begins(_, _) | Part::Ends => Ok(None),
    }
}
