//! The columns in front of lines, by kind and mode.

ghost use Rattle.std.specs.Prelude.{◌≡◌, ◌+◌, ◌<◌, ◌^◌};
ghost use Rattle.mad_md.specs.Flagged.{flagged_text};
ghost use Rattle.mad_measure.specs.TextColumns.{width_of};
ghost use Rattle.mad_wrap.specs.WrapLines.{capped};
ghost use Rattle.mad_format.specs.Indents.{follow_up, indent, later_indent};

use crate::line_skin::LineSkin;
use mad_md::Compound;
use mad_measure::columns;
use mad_style::{CompositeKind, ListItemsIndentationMode, ordered_item_indent};

/// The columns in front of the first line of a composite of this kind, and in front of its other lines.
///
/// These are the columns of bullets, numbers and quote marks with their spaces. On later lines an item has as many blanks in block mode, and
/// more where items hang. Where only the first line is indented it has none.
pub fn composite_kind_widths<S: LineSkin>(kind: CompositeKind, skin: &S) -> (usize, usize)
    ensures first { result.0 ≡ indent (S.rules skin.now).list_items_indentation_mode kind }
    ensures other { result.1 ≡ indent (S.rules skin.now).list_items_indentation_mode (follow_up kind) }
{
    let mode = skin.items_indentation();
    (indent_of(kind, mode), indent_of(follow_up(kind), mode))
}

/// The columns of a line of this kind: its indent and its compounds, `usize::MAX` where there are more.
pub fn composite_columns(
    mode: ListItemsIndentationMode,
    kind: CompositeKind,
    compounds: &[Compound],
) -> usize
    ensures { result ≡ capped (indent mode kind + width_of (flagged_text compounds.now)) }
{
    let mut length = indent_of(kind, mode);
    for compound in compounds {
        length = length.saturating_add(columns(compound.src));
    }
    length
}

/// The kind of the lines after the first: of an item its own follow-up, any other kind stays.
pub fn follow_up(kind: CompositeKind) -> CompositeKind
    ensures { result ≡ follow_up kind }
{
    match kind {
        CompositeKind::ListItem(depth) => CompositeKind::ListItemFollowUp(depth),
        CompositeKind::OrderedListItem { level, index } => {
            CompositeKind::OrderedListItemFollowUp { level, index }
        }
        other => other,
    }
}

/// The columns in front of a line of this kind.
pub fn indent_of(kind: CompositeKind, mode: ListItemsIndentationMode) -> usize
    ensures { result ≡ indent mode kind }
{
    match kind {
        CompositeKind::ListItem(depth) => 2 + depth as usize,
        CompositeKind::ListItemFollowUp(depth) => later_indent(mode, 2 + depth as usize),
        CompositeKind::OrderedListItem { level, index } => ordered_item_indent(level, index),
        CompositeKind::OrderedListItemFollowUp { level, index } => {
            later_indent(mode, ordered_item_indent(level, index))
        }
        CompositeKind::Quote => 2,
        CompositeKind::Paragraph | CompositeKind::Header(_) | CompositeKind::Code => 0,
    }
}

// What a mode makes of an item's indent on the lines that follow.
fn later_indent(mode: ListItemsIndentationMode, indent: usize) -> usize
    requires { indent < 2 ^ 16 }
    ensures { result ≡ later_indent mode indent }
{
    match mode {
        ListItemsIndentationMode::FirstLineOnly => 0,
        ListItemsIndentationMode::Block => indent,
        ListItemsIndentationMode::Hanging(extra) => indent + extra as usize,
    }
}
