//! What a line does to the leaves.

ghost use Rattle.std.specs.Prelude.{◌≡◌, ◌==◌, ◌&&◌, not, [], ◌∷◌, ◌++◌, OnOk, OnErr, length, if◌then◌else◌};
ghost use Rattle.markdown_marks.specs.Bytes.{first};
ghost use Rattle.markdown_html.specs.Starts.{html_start};
ghost use Rattle.markdown_marks.specs.Remaining.{remaining};
ghost use Rattle.markdown_marks.specs.Tables.{delimited_columns};
ghost use Rattle.markdown_blocks.specs.Leaves.{is_paragraph, is_table, joining_or_row, words_deed, cells_after, is_bare, closes_fence, ends_by_blank, html_going, or_underline, going_on, margin, joining_of, underlines, only_defines, defining_after, joins, beginning, code_start, rule_start, underline_start, mark_start, leaf_start, joins_or, deed_of, leaf_after};

use markdown_html::{Ending, ends_html, html_start};
use markdown_marks::bytes::{first, is_blank, is_run_alone, without_blanks};
use markdown_marks::definitions::are_definitions;
use markdown_marks::marks::{fence_start, heading_level, is_rule, underline_level};
use markdown_marks::rest::Rest;
use markdown_marks::tables::{cell_count, delimited_columns};
use std::alloc::AllocError;

/// The leaf that is open in the last container.
#[derive(Debug, Clone, Copy, PartialEq, Eq)]
pub enum Leaf {
    /// There is none.
    Nothing,
    /// There is none, in an item whose first line was blank and that has nothing yet.
    Bare,
    /// A paragraph, which may turn out to be a heading, definitions of links, or a table's head.
    Paragraph,
    /// Code behind four blank columns.
    Indented,
    /// Code between fences.
    Fenced {
        /// The first fence's sign: a backquote or a tilde.
        sign: u8,
        /// How many times the sign is repeated; the last fence has at least as many.
        length: usize,
        /// The blank columns before the first fence, three at most. Each line of code loses so many.
        indent: usize,
    },
    /// A block of html, and what ends it.
    Html(Ending),
    /// A table, below its row of delimiters.
    Table,
}

/// What a line does to the leaves. The leaf that was open ends before it, but for `GoesOn`, `Closes`, `Underlines` and `Tabulates`.
#[derive(Debug, Clone, Copy, PartialEq, Eq)]
pub enum Deed {
    /// A blank line, or an item that begins with nothing behind its marker.
    Blank,
    /// A leaf begins. The text is its first line, or what stands behind a fence.
    Begins(Leaf),
    /// The text is a block of html of one line.
    Html,
    /// The text is the next line of the open leaf.
    GoesOn,
    /// A fence ends the open leaf.
    Closes,
    /// The open paragraph was a heading of this level, 1 or 2, and ends.
    Underlines(usize),
    /// The last line of the open paragraph was a table's head, of so many columns, and this is the row of delimiters below it.
    Tabulates(usize),
    /// The text is a heading of this level, 1 to 6, with the signs that may close it.
    Heading(usize),
    /// A thematic break.
    Rule,
}

/// Whether a line may be the next one of the open paragraph, and whether all containers go on in it.
#[derive(Debug, Clone, Copy, PartialEq, Eq)]
pub(crate) enum Joining {
    Apart,
    Lazily,
    Fully,
    /// It may be the next row of a table.
    InTable,
}

/// Whether the open leaf takes a line unseen.
#[derive(Debug, Clone, Copy, PartialEq, Eq)]
pub(crate) enum Going {
    No,
    On,
    /// It takes the line, and ends.
    Last,
    /// The line ends it, and is no part of its text.
    Ends,
}

/// What the rest of a line begins as.
#[derive(Debug, Clone, Copy, PartialEq, Eq)]
pub(crate) enum Start {
    Blank,
    Code,
    Heading(usize),
    Fence {
        sign: u8,
        length: usize,
        indent: usize,
    },
    /// Html, what ends it, and whether the line has that.
    Html(Ending, bool),
    Underline(usize),
    Rule,
    Words,
}

/// What the rest of a line begins as, and the text that it has then.
#[derive(Debug, Clone, Copy)]
pub(crate) struct Begun<'s> {
    pub(crate) start: Start,
    pub(crate) text: Rest<'s>,
}

fn begins<'s>(start: Start, text: Rest<'s>) -> Begun<'s>
    ensures { beginning result ≡ record { start = start; text = remaining text.entry } }
{
    Begun { start, text }
}

// ---- the open leaf

pub(crate) fn is_paragraph(leaf: Leaf) -> bool
    ensures { result ≡ is_paragraph leaf }
{
    match leaf {
        Leaf::Paragraph => true,
        Leaf::Nothing
        | Leaf::Bare
        | Leaf::Indented
        | Leaf::Fenced { .. }
        | Leaf::Html(_)
        | Leaf::Table => false,
    }
}

pub(crate) fn is_table(leaf: Leaf) -> bool
    ensures { result ≡ is_table leaf }
{
    match leaf {
        Leaf::Table => true,
        Leaf::Nothing
        | Leaf::Bare
        | Leaf::Paragraph
        | Leaf::Indented
        | Leaf::Fenced { .. }
        | Leaf::Html(_) => false,
    }
}

pub(crate) fn is_bare(leaf: Leaf) -> bool
    ensures { result ≡ is_bare leaf }
{
    match leaf {
        Leaf::Bare => true,
        Leaf::Nothing
        | Leaf::Paragraph
        | Leaf::Indented
        | Leaf::Fenced { .. }
        | Leaf::Html(_)
        | Leaf::Table => false,
    }
}

// Whether the line ends a fence.
fn closes_fence(sign: u8, length: usize, rest: Rest<'_>) -> bool
    ensures { result ≡ closes_fence sign length (remaining rest.entry) }
{
    let (columns, after) = rest.indent(4);
    columns < 4 && is_run_alone(after.bytes, sign, length)
}

fn ends_by_blank(ending: Ending) -> bool
    ensures { result ≡ ends_by_blank ending }
{
    match ending {
        Ending::BlankLine => true,
        Ending::RawTag
        | Ending::Comment
        | Ending::Instruction
        | Ending::Declaration
        | Ending::Cdata => false,
    }
}

// Whether a block of html takes a line.
fn html_going(ending: Ending, rest: Rest<'_>) -> Going
    ensures { result ≡ html_going ending (remaining rest.entry) }
{
    if ends_by_blank(ending) {
        if is_blank(rest.bytes) {
            Going::No
        } else {
            Going::On
        }
    } else if ends_html(ending, rest.bytes) {
        Going::Last
    } else {
        Going::On
    }
}

/// Whether the open leaf takes a line, whatever the line begins with.
#[tactic(auto, unfolding(crate::specs::Leaves::going_on))]
pub(crate) fn going_on(leaf: Leaf, rest: Rest<'_>) -> Going
    ensures { result ≡ going_on leaf (remaining rest.entry) }
{
    match leaf {
        Leaf::Fenced { sign, length, .. } => {
            if closes_fence(sign, length, rest) {
                Going::Ends
            } else {
                Going::On
            }
        }
        Leaf::Indented => {
            let (columns, _) = rest.indent(4);
            if is_blank(rest.bytes) || columns == 4 {
                Going::On
            } else {
                Going::No
            }
        }
        Leaf::Html(ending) => html_going(ending, rest),
        Leaf::Nothing | Leaf::Bare | Leaf::Paragraph | Leaf::Table => Going::No,
    }
}

/// The columns in front of a line that are no part of the leaf's text, where they are blank.
pub(crate) fn margin(leaf: Leaf) -> usize
    ensures { result ≡ margin leaf }
{
    match leaf {
        Leaf::Fenced { indent, .. } => indent,
        Leaf::Indented => 4,
        Leaf::Nothing | Leaf::Bare | Leaf::Paragraph | Leaf::Html(_) | Leaf::Table => 0,
    }
}

// ---- what begins

/// Whether a line may be a paragraph's next one, and whether all containers go on in it.
pub(crate) fn joining_of(may_join: bool, all: bool) -> Joining
    ensures { result ≡ joining_of may_join all }
{
    if !may_join {
        Joining::Apart
    } else if all {
        Joining::Fully
    } else {
        Joining::Lazily
    }
}

/// A line may be a table's next one only where all containers go on.
pub(crate) fn joining_or_row(row: bool, may_join: bool, all: bool) -> Joining
    ensures { result ≡ joining_or_row row may_join all }
{
    if row {
        Joining::InTable
    } else {
        joining_of(may_join, all)
    }
}

// Whether this line would underline a paragraph.
fn underlines(rest: Rest<'_>) -> bool
    ensures { result ≡ underlines (remaining rest.entry) }
{
    let (columns, after) = rest.indent(4);
    columns < 4 && underline_level(after.bytes).is_some()
}

/// Whether the line would underline a paragraph of definitions alone. This is its text so far, if it begins with a bracket.
pub(crate) fn only_defines(defining: &[u8], all: bool, rest: Rest<'_>) -> bool
    ensures { result ≡ only_defines defining.now all (remaining rest.entry) }
{
    if defining.is_empty() || !all {
        return false;
    }
    underlines(rest) && are_definitions(defining)
}

fn joins(joining: Joining) -> bool
    ensures { result ≡ joins joining }
{
    match joining {
        Joining::Apart | Joining::InTable => false,
        Joining::Lazily | Joining::Fully => true,
    }
}

// A line with four columns in front.
fn code_start<'s>(joining: Joining, rest: Rest<'s>) -> Begun<'s>
    ensures { beginning result ≡ code_start joining (remaining rest.entry) }
{
    if joins(joining) {
        let text = Rest {
            column: rest.column,
            pending: 0,
            bytes: without_blanks(rest.bytes),
        };
        return begins(Start::Code, text);
    }
    begins(Start::Code, rest.take_columns(4))
}

// A thematic break, or else text.
fn rule_start<'s>(rest: Rest<'s>) -> Begun<'s>
    ensures { beginning result ≡ rule_start (remaining rest.entry) }
{
    if is_rule(rest.bytes) {
        begins(Start::Rule, rest)
    } else {
        begins(Start::Words, rest)
    }
}

// The line under a paragraph, or what else it is.
fn underline_start<'s>(joining: Joining, rest: Rest<'s>) -> Begun<'s>
    ensures { beginning result ≡ underline_start joining (remaining rest.entry) }
{
    match joining {
        Joining::Fully => match underline_level(rest.bytes) {
            Some(level) => begins(Start::Underline(level), rest),
            None => rule_start(rest),
        },
        Joining::Apart | Joining::Lazily | Joining::InTable => rule_start(rest),
    }
}

// A block of html, or what else it is.
fn html_or_underline<'s>(joining: Joining, uncut: Rest<'s>, rest: Rest<'s>) -> Begun<'s>
    ensures { beginning result ≡ or_underline (html_start (joins joining) (remaining rest.entry).bytes) joining (remaining uncut.entry) (remaining rest.entry) }
{
    match html_start(joins(joining), rest.bytes) {
        Some(ending) => begins(Start::Html(ending, ends_html(ending, rest.bytes)), uncut),
        None => underline_start(joining, rest),
    }
}

// What a rest begins as after at most three columns.
#[tactic(auto, unfolding(crate::specs::Leaves::mark_start))]
fn mark_start<'s>(joining: Joining, indent: usize, uncut: Rest<'s>, rest: Rest<'s>) -> Begun<'s>
    ensures { beginning result ≡ mark_start joining indent (remaining uncut.entry) (remaining rest.entry) }
{
    match heading_level(rest.bytes) {
        Some(level) => begins(Start::Heading(level), rest.skip(level)),
        None => match fence_start(rest.bytes) {
            Some(fence) => begins(
                Start::Fence {
                    sign: fence.sign,
                    length: fence.length,
                    indent,
                },
                rest.skip(fence.length),
            ),
            None => html_or_underline(joining, uncut, rest),
        },
    }
}

/// What the rest of a line begins as.
#[tactic(auto, unfolding(crate::specs::Leaves::leaf_start))]
pub(crate) fn leaf_start<'s>(joining: Joining, rest: Rest<'s>) -> Begun<'s>
    ensures { beginning result ≡ leaf_start joining (remaining rest.entry) }
{
    if is_blank(rest.bytes) {
        return begins(Start::Blank, rest);
    }
    let (columns, after) = rest.indent(4);
    if columns == 4 {
        return code_start(joining, rest);
    }
    mark_start(joining, columns, rest, after)
}

// ---- what is done

fn joins_or(joining: Joining, leaf: Leaf) -> Deed
    ensures { result ≡ joins_or joining leaf }
{
    if joins(joining) {
        Deed::GoesOn
    } else {
        Deed::Begins(leaf)
    }
}

fn html_deed(ending: Ending, ends: bool) -> Deed
    ensures { result ≡ (if ends then Deed.Html else Deed.Begins (Leaf.Html ending)) }
{
    if ends {
        Deed::Html
    } else {
        Deed::Begins(Leaf::Html(ending))
    }
}

// Whether the line is the row below a head of so many cells.
fn delimits(cells: usize, text: &[u8]) -> bool
    ensures { result ≡ (not (cells == 0) && (delimited_columns text.now == cells)) }
{
    cells != 0 && delimited_columns(text) == cells
}

fn words_deed(joining: Joining, cells: usize, text: Rest<'_>) -> Deed
    ensures { result ≡ words_deed joining cells (remaining text.entry) }
{
    match joining {
        Joining::Apart => Deed::Begins(Leaf::Paragraph),
        Joining::Lazily | Joining::InTable => Deed::GoesOn,
        Joining::Fully => {
            if delimits(cells, text.bytes) {
                Deed::Tabulates(cells)
            } else {
                Deed::GoesOn
            }
        }
    }
}

/// What a line with this beginning does. The last line of the open paragraph has so many cells.
pub(crate) fn deed_of(joining: Joining, cells: usize, begun: Begun<'_>) -> Deed
    ensures { result ≡ deed_of joining cells (beginning begun.entry) }
{
    match begun.start {
        Start::Blank => Deed::Blank,
        Start::Code => joins_or(joining, Leaf::Indented),
        Start::Heading(level) => Deed::Heading(level),
        Start::Fence {
            sign,
            length,
            indent,
        } => Deed::Begins(Leaf::Fenced {
            sign,
            length,
            indent,
        }),
        Start::Html(ending, ends) => html_deed(ending, ends),
        Start::Underline(level) => Deed::Underlines(level),
        Start::Rule => Deed::Rule,
        Start::Words => words_deed(joining, cells, begun.text),
    }
}

/// The leaf that is open after it; bare where the last container is an item that began in this line.
pub(crate) fn leaf_after(bare: bool, leaf: Leaf, deed: Deed) -> Leaf
    ensures { result ≡ leaf_after bare leaf deed }
{
    match deed {
        Deed::Blank => { if bare { Leaf::Bare } else { Leaf::Nothing } }
        Deed::Begins(next) => next,
        Deed::GoesOn => leaf,
        Deed::Tabulates(_) => Leaf::Table,
        Deed::Html | Deed::Closes | Deed::Underlines(_) | Deed::Heading(_) | Deed::Rule => {
            Leaf::Nothing
        },
    }
}

// A leaf begins with this text.
fn begin_defining(defining: &mut Vec<u8>, leaf: Leaf, text: &[u8]) -> Result<(), AllocError>
    ensures ok { OnOk result (defining.new.items ≡ (if is_paragraph leaf && (first text.now == 91) then text.now else [])) }
    ensures err { OnErr result (defining.new.items ≡ defining.old.items) }
{
    if is_paragraph(leaf) && first(text) == b'[' {
        *defining = Vec::from_slice(*defining.allocator(), text)?;
    } else {
        defining.clear();
    }
    Ok(())
}

// The leaf goes on with this text.
fn go_on_defining(defining: &mut Vec<u8>, text: &[u8]) -> Result<(), AllocError>
    ensures ok { OnOk result (defining.new.items ≡ (if length defining.old.items == 0 then [] else defining.old.items ++ 10 ∷ text.now)) }
    ensures err { OnErr result (defining.new.items ≡ defining.old.items) }
{
    if defining.as_slice().is_empty() {
        return Ok(());
    }
    defining.reserve(text.len() + 1)?;
    defining.push(b'\n')?;
    defining.extend_from_slice(text)?;
    Ok(())
}

/// Keeps the text of a paragraph that may be definitions alone.
///
/// # Errors
///
/// Out of memory. The text is as it was then.
pub(crate) fn keep_defining(
    defining: &mut Vec<u8>,
    deed: Deed,
    text: Rest<'_>,
) -> Result<(), AllocError>
    ensures ok { OnOk result (defining.new.items ≡ defining_after deed defining.old.items (remaining text.entry)) }
    ensures err { OnErr result (defining.new.items ≡ defining.old.items) }
{
    match deed {
        Deed::Begins(leaf) => begin_defining(defining, leaf, text.bytes),
        Deed::GoesOn => go_on_defining(defining, text.bytes),
        Deed::Blank
        | Deed::Html
        | Deed::Closes
        | Deed::Underlines(_)
        | Deed::Tabulates(_)
        | Deed::Heading(_)
        | Deed::Rule => {
            defining.clear();
            Ok(())
        }
    }
}

/// How many cells the last line of the open paragraph has. A row of delimiters below it needs as many. This is what the line left open, and its text.
pub(crate) fn cells_after(leaf: Leaf, text: Rest<'_>) -> usize
    ensures { result ≡ cells_after leaf (remaining text.entry) }
{
    if is_paragraph(leaf) {
        cell_count(text.bytes)
    } else {
        0
    }
}
