//! Markdown views: pictures, and what goes out of them.

ghost use Rattle.std.specs.Prelude.{IfOk};
ghost use Rattle.std.specs.List.{AllByRecursion};
ghost use Rattle.termimad.specs.Areas.{IsWithinLimits};
ghost use Rattle.termimad.specs.MadViews.{area_of};

use crate::screens::picture;
use crate::texts::taken;
use std::alloc::{AllocError, Global};
use termimad::{Area, CutOut, Error, MadSkin, MadView, draw_views};
use test_rows::devices::Writing;
use test_skins::{Asked, Refusal, area_from, numbers_of};

// More than any row here writes.
const ROOM: usize = 2000;

/// The picture of a view whose field `scroll` is the last number: beside its scroll bar, if it has one.
pub fn pictured(asked: &Asked) -> Result<String, Refusal> {
    let mut out = CutOut::new(asked.alloc, ROOM, ROOM, false)?;
    write(asked, &mut out)?;
    picture(asked.alloc, &asked.area(), out.taken())
}

/// Writes a view whose field `scroll` is the last number.
pub fn write(asked: &Asked, out: &mut CutOut) -> Result<(), Error> {
    let view = view_of(asked.alloc, asked.numbers, asked.skin, asked.text)?;
    view.write_on(out)
}

/// What goes out of a view whose field `scroll` is the last number, to a device whose flush fails.
pub fn written(asked: &Asked) -> Result<String, Refusal> {
    let view = view_of(asked.alloc, asked.numbers, asked.skin, asked.text)?;
    let mut out = CutOut::new(asked.alloc, ROOM, ROOM, true)?;
    view.write(&mut out)?;
    Ok(taken(asked.alloc, &out)?)
}

/// The picture of two views. Their numbers have a bar between them, and their texts a line `===`.
pub fn two_pictured(alloc: Global, words: &str, text: &str) -> Result<String, Refusal> {
    let out = drawn(alloc, &two_views(alloc, words, text)?)?;
    picture(alloc, &Area::new(0, 0, 0, 0), out.taken())
}

/// What goes out of two views.
pub fn two_written(alloc: Global, words: &str, text: &str) -> Result<String, Refusal> {
    let out = drawn(alloc, &two_views(alloc, words, text)?)?;
    Ok(taken(alloc, &out)?)
}

/// Whether devices that fail get what they should of two views.
pub fn two_tried(alloc: Global, words: &str, text: &str) -> Result<String, Refusal> {
    Ok(test_rows::devices::tried(alloc, &TwoViews { words, text })?)
}

#[derive(Drop)]
struct TwoViews<'a> {
    words: &'a str,
    text: &'a str,
}

impl Writing for TwoViews<'_> {
    fn write(&self, alloc: Global, out: &mut CutOut) -> Result<(), Error> {
        let views = two_views(alloc, self.words, self.text)?;
        draw_views(alloc, out, &views)
    }
}

fn drawn(alloc: Global, views: &[MadView]) -> Result<CutOut, Refusal>
    requires { AllByRecursion (λ view. IsWithinLimits (area_of view)) views.now }
{
    let mut out = CutOut::new(alloc, ROOM, ROOM, false)?;
    draw_views(alloc, &mut out, views)?;
    Ok(out)
}

fn two_views(alloc: Global, words: &str, text: &str) -> Result<[MadView; 2], AllocError>
    ensures { IfOk result (λ views. AllByRecursion (λ view. IsWithinLimits (area_of view)) views) }
{
    let (area, other_area) = two_areas(words);
    let (text, other_text) = two_texts(text);
    let (numbers, _) = numbers_of(area);
    let (other_numbers, _) = numbers_of(other_area);
    let skin = MadSkin::no_style();
    let view = view_of(alloc, numbers, skin, text)?;
    let other = view_of(alloc, other_numbers, skin, other_text)?;
    Ok([view, other])
}

// The numbers of both areas.
fn two_areas(words: &str) -> (&str, &str) {
    match words.split_once('|') {
        Some(areas) => areas,
        None => (words, ""),
    }
}

// Both texts, which have a line `===` between them.
fn two_texts(text: &str) -> (&str, &str) {
    match text.split_once("===\n") {
        Some((text, other)) => (text.strip_suffix('\n').unwrap_or(text), other),
        None => (text, ""),
    }
}

fn view_of(
    alloc: Global,
    numbers: [usize; 5],
    skin: MadSkin,
    text: &str,
) -> Result<MadView, AllocError>
    ensures { IfOk result (λ view. IsWithinLimits (area_of view)) }
{
    let text = String::from_str(alloc, text)?;
    let mut view = MadView::from(text, area_from(numbers), skin);
    view.scroll = numbers[4];
    Ok(view)
}
