//! A reader: names of files at the left, and the text of the selected one at the right. Up and Down select, PageUp and PageDown scroll, Esc ends.
//!
//! The names are the lines of the file `texts.txt`.
//!
//! 1. [`documents`]: files of Markdown, and the list of their names.
//! 2. [`reader`]: the list, the text, and what a key does.
mod documents;
mod reader;

use crate::panel;
use crate::reader::documents::read_all;
use crate::reader::reader::Reader;
use std::io::Read;
use termimad::{Error, MadSkin, PageSkin};

const COLUMNS: u16 = 44;

const ROWS: u16 = 10;

pub fn run<R: Read + Drop>(rt: &HostRuntime, input: R) -> Result<(), Error> {
    let skin = MadSkin::no_style();
    let page_skin = PageSkin::of(&skin);
    let documents = read_all(rt, "texts.txt", page_skin.marks())?;
    let mut reader = Reader::new(rt.alloc(), &skin, &page_skin, &documents)?;
    panel::run(rt, input, &mut reader, COLUMNS, ROWS)
}
