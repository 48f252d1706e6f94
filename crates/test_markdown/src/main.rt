//! Tests of the reader of Markdown, as worked rows and as a model has them.
//!
//! The rows are in the files of `data/`. A row's call says what answers it:
//!
//! 1. [`blocks`]: `blocks`, the containers and leaves of a text.
//! 2. [`lines`]: `lines`, what each line of a text does.
//! 3. [`inlines`]: `inlines`, the inlines of a text.
//! 4. [`pieces`]: `pieces`, the inlines of a text's leaves.
//! 5. [`shown`]: `sections`, the sections that are shown of a text; `links`, its links; `marks`, those of the characters that belong to links;
//!    `anchors`, the names that links go to.
//! 6. [`events`]: `events`, what begins and ends of a text's blocks; `walk`, the inlines of its paragraphs and headings as events.
//! 7. [`pages`]: `page W`, the rows of a text at a width; `page none`, without one. `boxes W`, the same where code has a background,
//!    `ascii W`, where bullets are ASCII, and `plain W`, the page without styles. `linked W`: that page with its links.
//!
//! In a text `▪` is a byte order mark.
//!
//! As `--told CALL FILE` it answers the call of each text of a file, with a byte 1 before each answer. The same stands between two texts. So
//! `tools/commonmark` and `tools/markdown_files` ask it.
#![tactic(auto)]

mod blocks;
mod events;
mod inlines;
mod lines;
mod pages;
mod pieces;
mod shown;

use std::alloc::{AllocError, Global};
use std::{env, fs, io};
use test_rows::Calls;

struct MarkdownCalls;

impl Calls for MarkdownCalls {
    fn answer(&self, alloc: Global, call: &str, text: &str) -> Result<String, AllocError> {
        let text: String = text.chars().map(meant).collect(alloc)?;
        let text = text.as_str();
        match call {
            "lines" => lines::picture_of(alloc, text),
            "blocks" => blocks::picture_of(alloc, text),
            "events" => events::draw_events(alloc, text),
            "walk" => events::draw_walk(alloc, text),
            "pieces" => pieces::draw_leaves(alloc, text),
            "links" => shown::draw_links(alloc, text),
            "anchors" => shown::draw_anchors(alloc, text),
            "sections" => shown::draw_sections(alloc, text),
            "marks" => shown::draw_marks(alloc, text),
            _ => answer_at(alloc, call, text),
        }
    }
}

// The call of a page, or of inlines.
fn answer_at(alloc: Global, call: &str, text: &str) -> Result<String, AllocError> {
    match call.split_once(' ') {
        Some(("page", width)) => pages::draw_page(alloc, width, text),
        Some(("plain", width)) => pages::draw_plain(alloc, width, text),
        Some(("boxes", width)) => pages::draw_boxes(alloc, width, text),
        Some(("ascii", width)) => pages::draw_ascii(alloc, width, text),
        Some(("linked", width)) => pages::draw_linked(alloc, width, text),
        _ => inlines::draw_inlines(alloc, call, text),
    }
}

// The character that a sign means.
fn meant(sign: char) -> char {
    match sign {
        '▪' => '\u{feff}',
        _ => sign,
    }
}

fn tell(rt: &HostRuntime, call: &str, file: &str) -> io::Result<()> {
    let texts = fs::read_to_string(rt, file)?;
    for text in texts.as_str().split('\u{1}') {
        let answer = MarkdownCalls.answer(rt.alloc(), call, text)?;
        print!(rt; "\u{1}{answer}")?;
    }
    Ok(())
}

fn main(rt: HostRuntime) -> io::Result<()> {
    let words: Vec<String> = env::args(&rt)?.skip(1).collect(rt.alloc())?;
    match words.as_slice() {
        [told, call, file] if told.as_str() == "--told" => tell(&rt, call.as_str(), file.as_str()),
        _ => test_rows::run(&rt, &MarkdownCalls),
    }
}
