//! The names that tags give to their places, to which links go.

ghost use Rattle.std.specs.Prelude.{◌≡◌, ◌<◌, ◌++◌, IfOk, OnOk, drop, map, string_bytes, length};
ghost use Rattle.markdown_spans.specs.Attributes.{anchor};
ghost use Rattle.markdown_pieces.specs.Places.{AreCut};
ghost use Rattle.markdown_lines.specs.LinksOf.{defined_of};
ghost use Rattle.markdown_lines.specs.Names.{may_be_tag, name_by, piece_names, names_from, leaf_names, html_names};

use crate::leaf::shown_text;
use crate::links::Definitions;
use markdown_html_text::pieces::html_pieces;
use markdown_pieces::cut::cut_text;
use markdown_pieces::pieces::{Kind, Piece};
use markdown_spans::attributes::{Value, anchor, value_text};
use markdown_spans::words::{bytes_from, bytes_up_to};
use std::alloc::{AllocError, Global};

// Whether a piece of this kind may be a tag.
fn may_be_tag(kind: &Kind) -> bool
    ensures { result ≡ may_be_tag kind.now }
{
    matches!(kind, Kind::Html(_) | Kind::Soft | Kind::Hard)
}

// Adds the name that a tag has, if it has one.
fn push_name(
    alloc: Global,
    names: &mut Vec<String>,
    tag: &[u8],
    value: Option<Value>,
) -> Result<(), AllocError>
    ensures { OnOk result (map string_bytes names.new.items ≡ map string_bytes names.old.items ++ name_by tag.now value) }
{
    match value {
        None => Ok(()),
        Some(value) => {
            let bytes = value_text(alloc, tag, value)?;
            let text = String::from_utf8_lossy(alloc, &bytes)?;
            let name = shown_text(alloc, text.as_str())?;
            names.push(name)?;
            Ok(())
        }
    }
}

// Adds the name that a piece at a place gives.
fn push_piece(
    alloc: Global,
    names: &mut Vec<String>,
    text: &[u8],
    at: usize,
    piece: &Piece,
) -> Result<(), AllocError>
    requires { at < length text.now }
    ensures { OnOk result (map string_bytes names.new.items ≡ map string_bytes names.old.items ++ piece_names text.now at piece.now) }
{
    if !may_be_tag(&piece.kind) || text[at] != b'<' {
        return Ok(());
    }
    let tag = bytes_from(text, at + 1);
    push_name(alloc, names, tag, anchor(bytes_up_to(tag, piece.more)))
}

// The names that pieces of a text give.
fn names_of(alloc: Global, text: &str, pieces: &[Piece]) -> Result<Vec<String>, AllocError>
    requires { AreCut text.now 0 pieces.now }
    ensures { IfOk result (λ names. map string_bytes names.items ≡ names_from text.now 0 pieces.now) }
{
    let mut names = Vec::new(alloc);
    let mut at = 0;
    for index in 0..pieces.len() {
        let piece = pieces[index];
        push_piece(alloc, &mut names, text.as_bytes(), at, &piece)?;
        at += piece.more + 1;
    }
    Ok(names)
}

/// The names in a leaf with this text, in order: the `id` of a tag, or the `name` of a tag `a`.
///
/// # Errors
///
/// Out of memory is the only error.
pub fn leaf_names(
    alloc: Global,
    definitions: &Definitions,
    text: &str,
) -> Result<Vec<String>, AllocError>
    ensures { IfOk result (λ names. map string_bytes names.items ≡ leaf_names (defined_of definitions.now).labels text.now) }
{
    let cut = cut_text(alloc, &definitions.labels, text)?;
    names_of(alloc, text, &cut.pieces)
}

/// Those in a leaf of html.
///
/// # Errors
///
/// Out of memory is the only error.
pub fn html_names(alloc: Global, text: &str) -> Result<Vec<String>, AllocError>
    ensures { IfOk result (λ names. map string_bytes names.items ≡ html_names text.now) }
{
    let pieces = html_pieces(alloc, text)?;
    names_of(alloc, text, &pieces)
}
