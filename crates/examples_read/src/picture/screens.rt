//! Screens that show a file of Markdown: all of it, and a pager on it.

use std::alloc::Global;
use termimad::pages::{draw_page, lay_markdown};
use termimad::screen::Screen;
use termimad::{Area, DressedMarkdown, Error, Markdown, PageSkin, ScriptSource, TestTerminal};
use termimad_page_run::{Files, Grammar, Sheet, run};

const COLUMNS: u16 = 72;

// The rows of a pager's screen.
const PAGE_ROWS: u16 = 12;

// What is typed to the pager: a search.
const KEYS: &[u8] = b"/disk\r";

/// A screen that shows a whole text in a skin.
pub fn text_screen(alloc: Global, text: &str, page_skin: &PageSkin) -> Result<Screen, Error> {
    let skin = page_skin.row_skin();
    let read = Markdown::read(alloc, text)?;
    let markdown = DressedMarkdown::new(alloc, read, page_skin.marks())?;
    let rows = lay_markdown(alloc, &markdown, &skin, Some(COLUMNS as usize))?;
    let rows = u16::try_from(rows.len()).unwrap_or(u16::MAX);
    let area = Area::new(0, 0, COLUMNS, rows);
    let mut terminal = TestTerminal::new(alloc, COLUMNS, rows);
    draw_page(alloc, &mut terminal, &skin, markdown.page(alloc)?, &area)?;
    Ok(terminal.shown(alloc)?)
}

/// A screen that shows a pager on a text in a skin, after some keys.
pub fn page_screen<'s>(alloc: Global, text: &'s str, skin: &'s PageSkin) -> Result<Screen, Error> {
    let sheet = Sheet {
        name: "readme.md",
        text,
        grammar: Grammar::Markdown,
        skin,
        columns: COLUMNS,
        rows: PAGE_ROWS,
        start: 0,
        target: None,
        files: Files::NONE,
    };
    let mut terminal = TestTerminal::new(alloc, COLUMNS, PAGE_ROWS);
    run(
        alloc,
        &sheet,
        &mut ScriptSource::new(KEYS, false),
        &mut terminal,
    )?;
    Ok(terminal.shown(alloc)?)
}
