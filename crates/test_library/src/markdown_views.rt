//! Views of Markdown as people write it: pictures, and what they answer to scrolls, keys and other areas.

use crate::moves::{key_of, push_step, push_thumb};
use crate::screens::picture;
use std::alloc::AllocError;
use termimad::{Area, CutOut, DressedMarkdown, Error, Markdown, MarkdownView, PageSkin};
use test_skins::{Asked, Refusal};

// More than any row here writes.
const ROOM: usize = 4000;

/// The picture of a view that is asked to scroll to the last number.
pub fn pictured(asked: &Asked) -> Result<String, Refusal> {
    let mut out = CutOut::new(asked.alloc, ROOM, ROOM, false)?;
    write(asked, &mut out)?;
    picture(asked.alloc, &asked.area(), out.taken())
}

/// Writes a view that is asked to scroll to the last number.
pub fn write(asked: &Asked, out: &mut CutOut) -> Result<(), Error> {
    let skin = PageSkin::of(&asked.skin);
    let markdown = read(asked, &skin)?;
    let mut view = MarkdownView::from(asked.alloc, &markdown, asked.area(), &skin)?;
    view.set_scroll(asked.numbers[4]);
    view.write_on(out)
}

/// What a view answers to each step, if that has an answer; then its scroll, and the rows of its thumb.
pub fn moved(asked: &Asked, steps: &str) -> Result<String, Refusal> {
    let skin = PageSkin::of(&asked.skin);
    let markdown = read(asked, &skin)?;
    let mut view = MarkdownView::from(asked.alloc, &markdown, asked.area(), &skin)?;
    let mut told = String::new(asked.alloc);
    for step in steps.split(' ') {
        let answer = move_view(&mut view, step)?;
        push_step(&mut told, step, answer)?;
        write!(told, "scroll {}, ", view.scroll())?;
        push_thumb(&mut told, view.scrollbar())?;
    }
    Ok(told)
}

// The text, read for a skin.
fn read(asked: &Asked, skin: &PageSkin) -> Result<DressedMarkdown, AllocError> {
    let read = Markdown::read(asked.alloc, asked.text)?;
    DressedMarkdown::new(asked.alloc, read, skin.marks())
}

fn move_view(view: &mut MarkdownView, step: &str) -> Result<Option<bool>, AllocError> {
    let (name, value) = step.split_once('=').unwrap_or((step, ""));
    match name {
        "line_up" => return Ok(Some(view.line_up())),
        "line_down" => return Ok(Some(view.line_down())),
        "page_up" => return Ok(Some(view.page_up())),
        "page_down" => return Ok(Some(view.page_down())),
        "set" => {
            view.set_scroll(value.parse().unwrap_or(0));
        }
        "lines" => view.try_scroll_lines(value.parse().unwrap_or(0)),
        "pages" => view.try_scroll_pages(value.parse().unwrap_or(0)),
        "resize" => {
            let (width, height) = value.split_once('x').unwrap_or((value, ""));
            let (width, height) = (width.parse().unwrap_or(0), height.parse().unwrap_or(0));
            view.resize(&Area::new(0, 0, width, height))?;
        }
        _ => return Ok(Some(view.apply_key_event(key_of(step)))),
    }
    Ok(None)
}
