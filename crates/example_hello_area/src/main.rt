//! The first example: a text in an area of the screen.
#![tactic(auto)]

use std::io;
use termimad::{Area, Error, MadSkin, Out, Stream, queue_move};

fn main(rt: HostRuntime) -> Result<(), Error> {
    let mut out = Stream::new(io::writer(&rt));
    let skin = MadSkin::default();
    let area = Area::new(0, 0, 24, 3);
    let text = "# Hello\n* *one* item\n> and a quote";
    skin.write_in_area(rt.alloc(), &mut out, text, &area)?;
    queue_move(rt.alloc(), &mut out, 0, 3)?;
    out.flush()?;
    Ok(())
}
