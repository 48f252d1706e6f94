//! What is shown of one piece.

ghost use Rattle.std.specs.Prelude.{◌≡◌, ◌+◌, ◌<◌, ◌++◌, IfOk, OnOk, length, map, string_bytes};
ghost use Rattle.std.specs.Str.{IsCharBoundary};
ghost use Rattle.markdown_spans.specs.Code.{unpadded};
ghost use Rattle.markdown_pieces.specs.Places.{IsInside};
ghost use Rattle.markdown_inlines.specs.Parts.{sign_char, shown_text, character_shown, part, alternative_text, source_name, html_shown, opening_shown, closing_shown, characters, target_name, name_shown, piece_shown};
ghost use Rattle.markdown_inlines.specs.Styled.{shown_with, spelled_of, IsStyled};

use crate::links::Over;
use crate::looks::Look;
use crate::printable::shown_char;
use crate::styled::Styled;
use markdown_brackets::brackets::Link;
use markdown_brackets::targets::Target;
use markdown_emphasis::Sign;
use markdown_link_parts::texts::{file_name, file_part};
use markdown_pieces::pieces::{Kind, Piece};
use markdown_spans::attributes::{Html, Value, value_text};
use markdown_spans::code::{Code, is_padded};
use markdown_spans::words::{bytes_from, bytes_up_to};
use std::alloc::{AllocError, Global};

fn sign_char(sign: Sign) -> char
    ensures { result ≡ sign_char sign }
{
    match sign {
        Sign::Star => '*',
        Sign::Underscore => '_',
        Sign::Tilde => '~',
    }
}

// The text of a code span, without a space at both ends that doesn't belong to it.
fn unpadded(text: &str) -> &str
    ensures { result.now ≡ unpadded text.entry.now }
{
    if is_padded(text.as_bytes()) && text.len() >= 2 {
        &text[1..text.len() - 1]
    } else {
        text
    }
}

fn push_plain(
    styled: &mut Styled,
    text: &str,
    at: usize,
    more: usize,
    look: &Look,
) -> Result<(), AllocError>
    requires styled { IsStyled styled.old }
    requires within { at + more < length text.now }
    requires begin { IsCharBoundary text.now at }
    requires end { IsCharBoundary text.now (at + (more + 1)) }
    ensures pushed { OnOk result (spelled_of styled.new ≡ spelled_of styled.old ++ map (shown_with look.now) (shown_text (part text.now at (more + 1)))) }
    ensures styled { OnOk result (IsStyled styled.new) }
{
    let end = at + (more + 1);
    styled.push_text(&text[at..end], look)?;
    Ok(())
}

fn push_code(
    styled: &mut Styled,
    text: &str,
    at: usize,
    code: &Code,
    look: &Look,
) -> Result<(), AllocError>
    requires styled { IsStyled styled.old }
    requires begin { IsCharBoundary text.now (at + code.now.marks) }
    requires end { IsCharBoundary text.now (at + code.now.marks + code.now.len) }
    ensures pushed { OnOk result (spelled_of styled.new ≡ spelled_of styled.old ++ map (shown_with look.now) (shown_text (unpadded (part text.now (at + code.now.marks) code.now.len)))) }
    ensures styled { OnOk result (IsStyled styled.new) }
{
    let begin = at + code.marks;
    let end = begin + code.len;
    styled.push_text(unpadded(&text[begin..end]), look)?;
    Ok(())
}

// An address, without its brackets.
fn push_address(
    styled: &mut Styled,
    text: &str,
    at: usize,
    len: usize,
    look: &Look,
) -> Result<(), AllocError>
    requires styled { IsStyled styled.old }
    requires begin { IsCharBoundary text.now (at + 1) }
    requires end { IsCharBoundary text.now (at + 1 + len) }
    ensures pushed { OnOk result (spelled_of styled.new ≡ spelled_of styled.old ++ map (shown_with look.now) (shown_text (part text.now (at + 1) len))) }
    ensures styled { OnOk result (IsStyled styled.new) }
{
    let begin = at + 1;
    let end = begin + len;
    styled.push_text(&text[begin..end], look)?;
    Ok(())
}

// One character or two.
fn push_character(
    styled: &mut Styled,
    c: char,
    second: Option<char>,
    look: &Look,
) -> Result<(), AllocError>
    requires styled { IsStyled styled.old }
    ensures pushed { OnOk result (spelled_of styled.new ≡ spelled_of styled.old ++ map (shown_with look.now) (character_shown c second)) }
    ensures styled { OnOk result (IsStyled styled.new) }
{
    match second {
        None => {
            styled.push(shown_char(c), look)?;
            Ok(())
        }
        Some(d) => {
            styled.push(shown_char(c), look)?;
            styled.push(shown_char(d), look)?;
            Ok(())
        }
    }
}

// The alternative text of an image.
fn alternative_text(alloc: Global, tag: &[u8], value: Value) -> Result<String, AllocError>
    ensures { IfOk result (λ shown. string_bytes shown ≡ alternative_text tag.now value) }
{
    let text = value_text(alloc, tag, value)?;
    let shown = String::from_utf8_lossy(alloc, &text)?;
    Ok(shown)
}

fn push_alternative(
    alloc: Global,
    styled: &mut Styled,
    tag: &[u8],
    value: Value,
    look: &Look,
) -> Result<(), AllocError>
    requires styled { IsStyled styled.old }
    ensures pushed { OnOk result (spelled_of styled.new ≡ spelled_of styled.old ++ map (shown_with look.now) (shown_text (alternative_text tag.now value))) }
    ensures styled { OnOk result (IsStyled styled.new) }
{
    let shown = alternative_text(alloc, tag, value)?;
    styled.push_text(shown.as_str(), look)?;
    Ok(())
}

// The name of an image's file.
fn source_name(alloc: Global, tag: &[u8], value: Value) -> Result<String, AllocError>
    ensures { IfOk result (λ name. string_bytes name ≡ source_name tag.now value) }
{
    let address = value_text(alloc, tag, value)?;
    let name = String::from_utf8_lossy(alloc, file_part(&address))?;
    Ok(name)
}

fn push_source(
    alloc: Global,
    styled: &mut Styled,
    tag: &[u8],
    value: Value,
    look: &Look,
) -> Result<(), AllocError>
    requires styled { IsStyled styled.old }
    ensures pushed { OnOk result (spelled_of styled.new ≡ spelled_of styled.old ++ map (shown_with look.now) (shown_text (source_name tag.now value))) }
    ensures styled { OnOk result (IsStyled styled.new) }
{
    let name = source_name(alloc, tag, value)?;
    styled.push_text(name.as_str(), look)?;
    Ok(())
}

// Raw html at a place: nothing, the end of a line, what an image says, or the name of its file.
fn push_html(
    alloc: Global,
    styled: &mut Styled,
    text: &str,
    at: usize,
    html: Html,
    look: &Look,
) -> Result<(), AllocError>
    requires styled { IsStyled styled.old }
    requires within { at < length text.now }
    ensures pushed { OnOk result (spelled_of styled.new ≡ spelled_of styled.old ++ map (shown_with look.now) (html_shown html text.now at)) }
    ensures styled { OnOk result (IsStyled styled.new) }
{
    match html {
        Html::Nothing | Html::On(_) | Html::Off(_) | Html::Link(_) | Html::LinkEnd => Ok(()),
        Html::Break => {
            styled.push('\n', look)?;
            Ok(())
        }
        Html::Alternative(value) => {
            let tag = bytes_from(text.as_bytes(), at + 1);
            push_alternative(alloc, styled, tag, value, look)?;
            Ok(())
        }
        Html::Source(value) => {
            let tag = bytes_from(text.as_bytes(), at + 1);
            push_source(alloc, styled, tag, value, look)?;
            Ok(())
        }
    }
}

fn push_opening(
    styled: &mut Styled,
    image: bool,
    opens: bool,
    look: &Look,
) -> Result<(), AllocError>
    requires styled { IsStyled styled.old }
    ensures pushed { OnOk result (spelled_of styled.new ≡ spelled_of styled.old ++ map (shown_with look.now) (opening_shown image opens)) }
    ensures styled { OnOk result (IsStyled styled.new) }
{
    if opens {
        return Ok(());
    }
    if image {
        styled.push('!', look)?;
        styled.push('[', look)?;
        return Ok(());
    }
    styled.push('[', look)?;
    Ok(())
}

fn push_closing(styled: &mut Styled, link: Option<Link>, look: &Look) -> Result<(), AllocError>
    requires styled { IsStyled styled.old }
    ensures pushed { OnOk result (spelled_of styled.new ≡ spelled_of styled.old ++ map (shown_with look.now) (closing_shown link)) }
    ensures styled { OnOk result (IsStyled styled.new) }
{
    match link {
        Some(_) => Ok(()),
        None => {
            styled.push(']', look)?;
            Ok(())
        }
    }
}

fn part(text: &[u8], at: usize, len: usize) -> &[u8]
    ensures { result.now ≡ part text.now at len }
{
    bytes_up_to(bytes_from(text, at), len)
}

// The name of the file to which a target leads that stands at a place; none of a definition.
fn target_name(alloc: Global, target: &Target, text: &[u8], at: usize) -> Result<String, AllocError>
    ensures { IfOk result (λ name. string_bytes name ≡ target_name target.now text.now at) }
{
    match target.definition {
        Some(_) => Ok(String::new(alloc)),
        None => file_name(alloc, part(text, at, target.len)),
    }
}

// The name of the file of an image that is closed at a place and has nothing between its brackets.
fn push_name(
    alloc: Global,
    styled: &mut Styled,
    text: &str,
    at: usize,
    kind: &Kind,
    silent: bool,
    look: &Look,
) -> Result<(), AllocError>
    requires styled { IsStyled styled.old }
    requires within { at < length text.now }
    ensures pushed { OnOk result (spelled_of styled.new ≡ spelled_of styled.old ++ map (shown_with look.now) (name_shown silent kind.now text.now at)) }
    ensures styled { OnOk result (IsStyled styled.new) }
{
    if !silent {
        return Ok(());
    }
    match kind {
        Kind::Closing(Some(link)) => {
            let name = target_name(alloc, &link.target, text.as_bytes(), at + 1)?;
            styled.push_text(name.as_str(), look)?;
            Ok(())
        }
        _ => Ok(()),
    }
}

// What a piece says itself, of which so many marks are left, and which is the opening bracket of a link or isn't.
fn push_own(
    alloc: Global,
    styled: &mut Styled,
    text: &str,
    at: usize,
    piece: &Piece,
    left: usize,
    opens: bool,
    look: &Look,
) -> Result<(), AllocError>
    requires styled { IsStyled styled.old }
    requires within { at + piece.now.more < length text.now }
    requires begin { IsCharBoundary text.now at }
    requires end { IsCharBoundary text.now (at + (piece.now.more + 1)) }
    requires inside { IsInside text.now at piece.now.kind }
    ensures pushed { OnOk result (spelled_of styled.new ≡ spelled_of styled.old ++ map (shown_with look.now) (characters text.now at piece.now left opens)) }
    ensures styled { OnOk result (IsStyled styled.new) }
{
    match piece.kind {
        Kind::Plain => push_plain(styled, text, at, piece.more, look)?,
        Kind::Shown(c, second) => push_character(styled, c, second, look)?,
        Kind::Code(code) => push_code(styled, text, at, &code, look)?,
        Kind::Address(len, _) => push_address(styled, text, at, len, look)?,
        Kind::Bare(_) => push_plain(styled, text, at, piece.more, look)?,
        Kind::Html(html) => push_html(alloc, styled, text, at, html, look)?,
        Kind::Soft => styled.push(' ', look)?,
        Kind::Hard => styled.push('\n', look)?,
        Kind::Run(run) => styled.push_times(sign_char(run.sign), left, look)?,
        Kind::Opening(image) => push_opening(styled, image, opens, look)?,
        Kind::Closing(link) => push_closing(styled, link, look)?,
    }
    Ok(())
}

/// What is shown of a piece, of which so many marks are left. An image with nothing between its brackets shows the name of its file, if its
/// destination stands behind it.
///
/// # Errors
///
/// Out of memory is the only error.
#[tactic(auto, using(crate::proofs::ShownLemmas::one_more))]
pub fn push_piece(
    alloc: Global,
    styled: &mut Styled,
    text: &str,
    at: usize,
    piece: &Piece,
    left: usize,
    over: &Over,
    look: &Look,
) -> Result<(), AllocError>
    requires styled { IsStyled styled.old }
    requires within { at + piece.now.more < length text.now }
    requires begin { IsCharBoundary text.now at }
    requires end { IsCharBoundary text.now (at + (piece.now.more + 1)) }
    requires inside { IsInside text.now at piece.now.kind }
    ensures pushed { OnOk result (spelled_of styled.new ≡ spelled_of styled.old ++ map (shown_with look.now) (piece_shown text.now at piece.now left over.now)) }
    ensures styled { OnOk result (IsStyled styled.new) }
{
    push_own(alloc, styled, text, at, piece, left, over.opens, look)?;
    push_name(alloc, styled, text, at, &piece.kind, over.silent, look)
}
