//! Wraps of one composite, and starts of their lines.

ghost use Rattle.mad_format.specs.Wraps.{IsMeasured};

use crate::pictures::push_compounds;
use crate::skins::{TestSkin, skin_with, unstyled_skin, word_skin};
use crate::words::{mode, number, numbers, style};
use mad_format::{
    FmtComposite, LineSkin, WrapBound, check_wrap_bound, hard_wrap_composite, wrap_bound,
};
use mad_md::Composite;
use mad_term::Error;
use std::alloc::Global;
use std::fmt::Write;

/// The lines of a text with inline marks, of a kind and in a mode of items.
pub fn wrap(alloc: Global, picture: &mut String, words: &str, text: &str) -> Result<(), Error> {
    let mut words = words.split_whitespace();
    let width = number(&mut words);
    let style = style(&mut words);
    let skin = skin_with(0, 0, mode(&mut words));
    let compounds = Composite::from_inline(alloc, text)?.compounds;
    push_both(alloc, picture, Composite { style, compounds }, width, &skin)
}

/// The lines of a text with inline marks, words whole, of a kind and in a mode of items.
pub fn words(alloc: Global, picture: &mut String, words: &str, text: &str) -> Result<(), Error> {
    let mut words = words.split_whitespace();
    let width = number(&mut words);
    let style = style(&mut words);
    let skin = word_skin(mode(&mut words));
    let compounds = Composite::from_inline(alloc, text)?.compounds;
    let composite = FmtComposite::from(Composite { style, compounds }, &skin);
    push_wrap(alloc, picture, &composite, width, &skin)
}

// The lines that a composite is wrapped into, and where those of its bound start.
fn push_both(
    alloc: Global,
    picture: &mut String,
    read: Composite,
    width: usize,
    skin: &TestSkin,
) -> Result<(), Error> {
    let composite = FmtComposite::from(read, skin);
    push_wrap(alloc, picture, &composite, width, skin)?;
    push_bound(alloc, picture, &composite, width, skin)
}

fn push_wrap<S: LineSkin>(
    alloc: Global,
    picture: &mut String,
    composite: &FmtComposite,
    width: usize,
    skin: &S,
) -> Result<(), Error>
    requires { IsMeasured (S.rules skin.now) composite.now }
{
    if composite.visible_length <= width {
        return Ok(picture.push_str("fits\n")?);
    }
    for line in &hard_wrap_composite(alloc, composite, width, skin)? {
        push_compounds(picture, &line.try_clone(alloc)?)?;
    }
    Ok(())
}

fn push_bound(
    alloc: Global,
    picture: &mut String,
    composite: &FmtComposite,
    width: usize,
    skin: &TestSkin,
) -> Result<(), Error> {
    let bound = wrap_bound(alloc, composite, width, skin)?;
    Ok(write!(picture, "starts {:?}", bound.starts)?)
}

/// Whether starts of lines pass the check of a paragraph with inline marks: the width, and the starts.
pub fn check(alloc: Global, picture: &mut String, words: &str, text: &str) -> Result<(), Error> {
    let mut words = words.split_whitespace();
    let width = number(&mut words);
    let starts = numbers(alloc, words)?;
    let read = Composite::from_inline(alloc, text)?;
    let skin = unstyled_skin();
    let composite = FmtComposite::from(read, &skin);
    let passes = check_wrap_bound(&composite, width, &skin, &WrapBound { starts })?;
    Ok(write!(picture, "{passes}")?)
}
