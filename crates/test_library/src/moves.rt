//! What views answer to scrolls and keys.
//!
//! A call has its area's numbers and steps. `line_up`, `line_down`, `page_up` and `page_down` are calls, and so are `set=SCROLL`,
//! `lines=COUNT`, `pages=NUM/DEN` and `resize=WIDTHxHEIGHT`. `scroll=SCROLL` sets the field. All other steps are keys, as `PageDown` or
//! `Shift-Down`.

use crate::markdown_views;
use std::alloc::{AllocError, Global};
use termimad::{
    Area, KeyCode, KeyCombination, KeyEvent, KeyModifiers, MadView, TextView, compute_scrollbar,
};
use test_skins::{Asked, Refusal, numbers_of, skin_of};

/// What a view answers to each step, if that has an answer; then its scroll, and the rows of its thumb.
pub fn of_text_view(alloc: Global, words: &str, text: &str) -> Result<String, Refusal> {
    let (asked, steps) = asked_of(alloc, words, text)?;
    let area = asked.area();
    let text = asked.skin.area_text(alloc, asked.text, &area)?;
    let mut view = TextView::from(&area, &text);
    let mut told = String::new(alloc);
    for step in steps.split(' ') {
        let answer = move_text_view(&mut view, step);
        push_step(&mut told, step, answer)?;
        write!(told, "scroll {}, ", view.scroll)?;
        push_thumb(&mut told, view.scrollbar())?;
    }
    Ok(told)
}

/// What a Markdown view answers to each step, if that has an answer; then its scroll.
pub fn of_mad_view(alloc: Global, words: &str, text: &str) -> Result<String, Refusal> {
    let (asked, steps) = asked_of(alloc, words, text)?;
    let area = asked.area();
    let mut view = MadView::from(String::from_str(alloc, text)?, area, asked.skin);
    let mut told = String::new(alloc);
    for step in steps.split(' ') {
        let scroll = view.scroll;
        let moved = move_mad_view(&mut view, step);
        if moved.is_err() && view.scroll != scroll {
            return Ok(String::from_str(alloc, "changed by a refusal")?);
        }
        let answer = moved?;
        push_step(&mut told, step, answer)?;
        write!(told, "scroll {}\n", view.scroll)?;
    }
    Ok(told)
}

/// What a view of Markdown as people write it answers to each step, if that has an answer; then its scroll, and the rows of its thumb.
pub fn of_markdown_view(alloc: Global, words: &str, text: &str) -> Result<String, Refusal> {
    let (asked, steps) = asked_of(alloc, words, text)?;
    markdown_views::moved(&asked, steps)
}

/// The rows of a thumb: of a scroll, the content's lines, the track's rows and its first row.
pub fn thumb(alloc: Global, words: &str) -> Result<String, Refusal> {
    let [scroll, lines, rows, top, _] = numbers_of(words).0;
    let mut told = String::new(alloc);
    push_thumb(&mut told, compute_scrollbar(scroll, lines, rows, top))?;
    Ok(told)
}

fn asked_of<'a>(
    alloc: Global,
    words: &'a str,
    text: &'a str,
) -> Result<(Asked<'a>, &'a str), Refusal> {
    let (numbers, steps) = numbers_of(words);
    let skin = skin_of(alloc, "")?;
    let asked = Asked {
        alloc,
        skin,
        numbers,
        text,
    };
    Ok((asked, steps))
}

/// Says a step, and what it was answered.
pub fn push_step(told: &mut String, step: &str, answer: Option<bool>) -> Result<(), AllocError> {
    match answer {
        Some(answer) => write!(told, "{step}: {answer}, "),
        None => write!(told, "{step}: "),
    }
}

/// Says the rows of a thumb.
pub fn push_thumb(told: &mut String, thumb: Option<(usize, usize)>) -> Result<(), AllocError> {
    match thumb {
        Some((first, last)) => write!(told, "thumb {first} to {last}\n"),
        None => write!(told, "no bar\n"),
    }
}

fn move_text_view(view: &mut TextView, step: &str) -> Option<bool> {
    let (name, value) = step.split_once('=').unwrap_or((step, ""));
    match name {
        "line_up" => Some(view.line_up()),
        "line_down" => Some(view.line_down()),
        "page_up" => Some(view.page_up()),
        "page_down" => Some(view.page_down()),
        "set" => {
            view.set_scroll(value.parse().unwrap_or(0));
            None
        }
        "scroll" => {
            view.scroll = value.parse().unwrap_or(0);
            None
        }
        "lines" => {
            view.try_scroll_lines(value.parse().unwrap_or(0));
            None
        }
        "pages" => {
            let (num, den) = value.split_once('/').unwrap_or((value, "1"));
            let den: u64 = den.parse().unwrap_or(1);
            view.try_scroll_pages(num.parse().unwrap_or(0), den.max(1));
            None
        }
        _ => Some(view.apply_key_event(key_of(step))),
    }
}

fn move_mad_view(view: &mut MadView, step: &str) -> Result<Option<bool>, AllocError> {
    let (name, value) = step.split_once('=').unwrap_or((step, ""));
    match name {
        "scroll" => view.scroll = value.parse().unwrap_or(0),
        "lines" => view.try_scroll_lines(value.parse().unwrap_or(0))?,
        "pages" => view.try_scroll_pages(value.parse().unwrap_or(0))?,
        "resize" => {
            let (width, height) = value.split_once('x').unwrap_or((value, ""));
            let (width, height) = (width.parse().unwrap_or(0), height.parse().unwrap_or(0));
            view.resize(&Area::new(0, 0, width, height));
        }
        _ => {
            let key = KeyCombination::from(key_of(step));
            return Ok(Some(view.apply_key_combination(key)?));
        }
    }
    Ok(None)
}

/// The key of a word: a modifier and a hyphen may be in front.
pub fn key_of(word: &str) -> KeyEvent {
    let (modifier, name) = word.split_once('-').unwrap_or(("", word));
    let modifiers = match modifier {
        "Shift" => KeyModifiers::SHIFT,
        "Control" => KeyModifiers::CONTROL,
        "Alt" => KeyModifiers::ALT,
        _ => KeyModifiers::NONE,
    };
    let code = match name {
        "Up" => KeyCode::Up,
        "Down" => KeyCode::Down,
        "PageUp" => KeyCode::PageUp,
        "PageDown" => KeyCode::PageDown,
        "Home" => KeyCode::Home,
        "End" => KeyCode::End,
        _ => KeyCode::Char('j'),
    };
    KeyEvent { code, modifiers }
}
