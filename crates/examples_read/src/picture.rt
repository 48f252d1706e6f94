//! Pictures of what the plain terminal shows, written as SVG: Markdown from standard input, and then the pager on it after some keys. All are there on a
//! dark ground and on a light one.
//!
//! 1. [`picture`]: the cells of a screen, as shapes and texts.
//! 2. [`paint`]: the colors of a pen.
//! 3. [`screens`]: the two screens.
mod paint;
mod picture;
mod screens;

use crate::picture::paint::{DARK, Ground, LIGHT};
use crate::picture::picture::Picture;
use crate::picture::screens::{page_screen, text_screen};
use std::io::{self, Read};
use termimad::{Error, PageSkin};

pub fn run<R: Read + Drop>(rt: &HostRuntime, input: R) -> Result<(), Error> {
    let text = io::read_to_string(rt.alloc(), input)?;
    print_pictures(rt, text.as_str(), &PageSkin::dark(), DARK)?;
    print_pictures(rt, text.as_str(), &PageSkin::light(), LIGHT)
}

// Writes the two pictures of a text in a skin.
fn print_pictures(
    rt: &HostRuntime,
    text: &str,
    skin: &PageSkin,
    ground: Ground,
) -> Result<(), Error> {
    let shown = text_screen(rt.alloc(), text, skin)?;
    print!(rt; "{}", Picture::new(&shown, ground))?;
    let paged = page_screen(rt.alloc(), text, skin)?;
    print!(rt; "{}", Picture::new(&paged, ground))?;
    Ok(())
}
