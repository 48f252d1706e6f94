//! Styles that are set by hand, and lines with marks.
use std::alloc::Global;
use std::io;
use termimad::{Attribute, CompoundStyle, Error, MadSkin, Out, Stream, ansi, put_all, rgb};

pub fn run(rt: &HostRuntime) -> Result<(), Error> {
    let mut out = Stream::new(io::writer(rt));
    write_lines(rt.alloc(), &mut out, &warning_skin())
}

// Bold is amber, italic also underlined, and code black on green.
fn warning_skin() -> MadSkin {
    let mut skin = MadSkin::default();
    skin.bold.set_fg(rgb(255, 187, 0));
    skin.italic.add_attr(Attribute::Underlined);
    skin.inline_code = CompoundStyle::with_fgbg(ansi(0), ansi(2));
    skin
}

// Each line goes out by itself, and the device is flushed after the last one.
fn write_lines<O: Out>(alloc: Global, out: &mut O, skin: &MadSkin) -> Result<(), Error> {
    for line in [
        "**warning**: *home* is full",
        "run `du -sh *` there",
        "~~try again~~ done",
    ] {
        skin.write_inline_on(alloc, out, line)?;
        put_all(out, b"\n")?;
    }
    out.flush()?;
    Ok(())
}
