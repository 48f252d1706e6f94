//! A text that comes word by word, as a language model writes it, on a terminal that scrolls. It is laid out as it grows: the rows that change
//! are redrawn in place, and those that are done scroll off as any output does.
use std::io;
use termimad::{Error, LiveText, MadSkin, Out, Stream};

// The terminal has a column more, and as many rows at least.
const WIDTH: usize = 39;

const HEIGHT: usize = 8;

const ANSWER: &str = "## Three rivers\n\n\
    These are **long**, and the last one *grows* with each survey:\n\
    |river|length|\n\
    |:-|-:|\n\
    |Rhine|1233 km|\n\
    |Danube|2850 km|\n\
    |Amazon|6400 km or more|\n\
    * a row of the table may widen all others\n\
    * so the table is redrawn until a line comes after it\n\
    ```\nlet rivers = 3;\n```\n\
    > What has scrolled off stays.";

pub fn run(rt: &HostRuntime) -> Result<(), Error> {
    let alloc = rt.alloc();
    let mut out = Stream::new(io::writer(rt));
    let mut live = LiveText::new(alloc, &MadSkin::default(), Some(WIDTH), HEIGHT);
    for word in ANSWER.split_inclusive(' ') {
        let (_, fed) = live.feed(alloc, &mut out, word);
        fed?;
        out.flush()?;
    }
    live.finish(alloc, &mut out)?;
    out.flush()?;
    Ok(())
}
