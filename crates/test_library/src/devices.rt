//! Devices that fail, on which each call that writes is tried.

use crate::{mad_views, markdown_views, screens, texts, untrusted};
use std::alloc::Global;
use termimad::{CutOut, Error};
use test_rows::devices::Writing;
use test_skins::{Asked, Refusal, numbers_of, skin_of};

/// Whether devices that fail get what they should of what a call writes.
pub fn tried(alloc: Global, call: &str, text: &str) -> Result<String, Refusal> {
    let (name, words) = call.split_once(' ').unwrap_or((call, ""));
    match name {
        "two_views" | "two_views_written" => mad_views::two_tried(alloc, words, text),
        "untrusted" | "printable" => {
            let text = untrusted::text_of(alloc, name == "printable", text)?;
            let (name, words) = words.split_once(' ').unwrap_or((words, ""));
            tried_in_skin(alloc, name, words, text.as_str())
        }
        _ => tried_in_skin(alloc, name, words, text),
    }
}

fn tried_in_skin(alloc: Global, name: &str, words: &str, text: &str) -> Result<String, Refusal> {
    if !writes(name) {
        return Ok(String::from_str(alloc, "no device")?);
    }
    let (numbers, word) = numbers_of(words);
    let skin = skin_of(alloc, word)?;
    let asked = Asked {
        alloc,
        skin,
        numbers,
        text,
    };
    Ok(test_rows::devices::tried(
        alloc,
        &Named {
            name,
            asked: &asked,
        },
    )?)
}

#[derive(Drop)]
struct Named<'r, 'a> {
    name: &'r str,
    asked: &'r Asked<'a>,
}

impl Writing for Named<'_, '_> {
    fn write(&self, _alloc: Global, out: &mut CutOut) -> Result<(), Error> {
        match self.name {
            "area" | "view" | "scrolled" | "marks" | "beside_bar" => {
                screens::write(self.asked, self.name, out)
            }
            "mad_view" | "mad_view_written" => mad_views::write(self.asked, out),
            "markdown_view" => markdown_views::write(self.asked, out),
            "flushed_view" => texts::write_view(self.asked, out),
            name => texts::write(self.asked, name, out),
        }
    }
}

// Whether a call writes, and no more than a few rows.
fn writes(name: &str) -> bool {
    !matches!(
        name,
        "skin"
            | "deep"
            | "numbered"
            | "large"
            | "refused"
            | "words_on_a_screen"
            | "thumb"
            | "moves"
            | "mad_moves"
            | "markdown_moves"
            | "lines"
            | "unwrapped"
            | "raw"
            | "lengths"
            | "widths"
            | "kept"
            | "value"
            | "reads_back"
            | "devices"
    ) && !name.starts_with("ends_of_")
}
