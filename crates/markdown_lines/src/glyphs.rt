//! Characters of a leaf, each with its flags.

ghost use Rattle.std.specs.Prelude.{◌≡◌, ◌++◌, ◌∷◌, [], IfOk, OnOk, map, chars, reverse};
ghost use Rattle.markdown_inlines.specs.Styled.{shown_with, spelled_of, IsStyled};
ghost use Rattle.markdown_lines.specs.Glyphs.{glyph_of, is_edge, shown_in, is_same_run, without_front, without_back, trimmed, space, spaced_from};

use crate::places::{RunFlags, is_same_flags, is_same_number};
use markdown_inlines::looks::Look;
use markdown_inlines::styled::Styled;
use std::alloc::{AllocError, Global};

/// A character that is shown, and how.
#[derive(Debug, Clone, Copy, PartialEq, Eq)]
pub struct Glyph {
    pub c: char,
    pub flags: RunFlags,
    /// The number of the link that it belongs to, among those of its leaf.
    pub link: Option<usize>,
    /// The number of the picture that says it, among those of its leaf.
    pub picture: Option<usize>,
}

// The character as it is shown: in a picture a space for a break.
fn shown_in(picture: bool, c: char) -> char
    ensures { result ≡ shown_in picture c }
{
    if picture && c == '\n' { ' ' } else { c }
}

// A character of this look, bold where all are. Where it belongs to a link, it has that flag and the link's number; where a picture says it, that of
// the picture and its number.
pub(crate) fn glyph_of(bold: bool, look: &Look, c: char) -> Glyph
    ensures { result ≡ glyph_of bold (shown_with look.now c) }
{
    Glyph {
        c: shown_in(look.picture.is_some(), c),
        flags: RunFlags {
            bold: bold || look.bold,
            italic: look.italic,
            code: look.code,
            strikeout: look.strikeout,
            link: look.link.is_some(),
            picture: look.picture.is_some(),
            picture_sign: false,
        },
        link: look.link,
        picture: look.picture,
    }
}

// Adds the characters of a run, the last one first.
fn push_back(glyphs: &mut Vec<Glyph>, bold: bool, look: &Look, text: &str) -> Result<(), AllocError>
    ensures { OnOk result (reverse glyphs.new.items ≡ map (glyph_of bold) (map (shown_with look.now) (chars text.now)) ++ reverse glyphs.old.items) }
{
    let mut rest = text.chars();
    while let Some(c) = rest.next_back() {
        // What is before it is a text too.
        let _before = rest.as_str();
        glyphs.push(glyph_of(bold, look, c))?;
    }
    Ok(())
}

/// The characters of a text of runs.
pub fn glyphs_of(alloc: Global, bold: bool, styled: &Styled) -> Result<Vec<Glyph>, AllocError>
    requires { IsStyled styled.now }
    ensures { IfOk result (λ glyphs. glyphs.items ≡ map (glyph_of bold) (spelled_of styled.now)) }
{
    let mut glyphs = Vec::with_capacity(alloc, styled.text.len())?;
    let mut text = styled.text.as_str();
    let mut count = styled.runs.as_slice().len();
    while count > 0 {
        count -= 1;
        let run = styled.runs[count];
        push_back(&mut glyphs, bold, &run.look, &text[run.start..])?;
        text = &text[..run.start];
    }
    glyphs.reverse();
    Ok(glyphs)
}

// Whether both characters have the same flags, belong to the same link or to none, and are said by the same picture or by none.
pub(crate) fn is_same_run(a: Glyph, b: Glyph) -> bool
    ensures { result ≡ is_same_run a b }
{
    is_same_flags(a.flags, b.flags)
        && is_same_number(a.link, b.link)
        && is_same_number(a.picture, b.picture)
}

// Whether it isn't shown at the ends of a row: a break, and a space but in code.
fn is_edge(glyph: Glyph) -> bool
    ensures { result ≡ is_edge glyph }
{
    glyph.c == '\n' || (glyph.c == ' ' && !glyph.flags.code)
}

#[tactic(auto, unfolding(crate::specs::Glyphs::without_front))]
fn without_front(glyphs: &[Glyph]) -> &[Glyph]
    ensures { result.now ≡ without_front glyphs.entry.now }
{
    let mut rest = glyphs;
    while let [glyph, next @ ..] = rest {
        if !is_edge(*glyph) {
            return rest;
        }
        rest = next;
    }
    rest
}

fn without_back(glyphs: &[Glyph]) -> &[Glyph]
    ensures { result.now ≡ without_back glyphs.entry.now }
{
    let mut len = glyphs.len();
    while len > 0 && is_edge(glyphs[len - 1]) {
        len -= 1;
    }
    &glyphs[..len]
}

/// Without the breaks and spaces at the ends.
pub fn trimmed(glyphs: &[Glyph]) -> &[Glyph]
    ensures { result.now ≡ trimmed glyphs.entry.now }
{
    without_back(without_front(glyphs))
}

fn space(bold: bool) -> Glyph
    ensures { result ≡ space bold }
{
    Glyph {
        c: ' ',
        flags: RunFlags {
            bold,
            ..RunFlags::NONE
        },
        link: None,
        picture: None,
    }
}

// Adds a row without the spaces at its ends.
fn push_trimmed(glyphs: &mut Vec<Glyph>, row: &[Glyph]) -> Result<(), AllocError>
    ensures { OnOk result (glyphs.new.items ≡ glyphs.old.items ++ trimmed row.now) }
{
    glyphs.extend_from_slice(trimmed(row))?;
    Ok(())
}

/// The characters of rows as one row: a space for each break.
#[tactic(auto, unfolding(crate::specs::Glyphs::spaced_from))]
pub fn spaced(alloc: Global, bold: bool, glyphs: &[Glyph]) -> Result<Vec<Glyph>, AllocError>
    ensures { IfOk result (λ spaced. spaced.items ≡ spaced_from bold [] [] glyphs.now) }
{
    let mut shown = Vec::with_capacity(alloc, glyphs.len())?;
    let mut row = Vec::with_capacity(alloc, glyphs.len())?;
    let mut rest = glyphs;
    while let [glyph, next @ ..] = rest {
        rest = next;
        if glyph.c == '\n' {
            push_trimmed(&mut shown, row.as_slice())?;
            shown.push(space(bold))?;
            row.clear();
            continue;
        }
        row.push(*glyph)?;
    }
    push_trimmed(&mut shown, row.as_slice())?;
    Ok(shown)
}
