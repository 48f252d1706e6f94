//! A status line, drawn at four widths: an ellipsis takes the place of what doesn't fit.
use std::io;
use termimad::{Alignment, Composite, Error, MadSkin, Out, Stream, put_all};

const STATUS: &str = "**saved** `letters/london/to_charles_babbage.md`, line 12 of 340";

pub fn run(rt: &HostRuntime) -> Result<(), Error> {
    let alloc = rt.alloc();
    let mut out = Stream::new(io::writer(rt));
    let skin = MadSkin::no_style();
    let status = Composite::from_inline(alloc, STATUS)?;
    for width in [72, 52, 32, 12] {
        put_all(&mut out, b"[")?;
        skin.write_composite_fill(alloc, &mut out, &status, width, Alignment::Unspecified)?;
        put_all(&mut out, b"]\n")?;
    }
    out.flush()?;
    Ok(())
}
