//! A README as people write it, from standard input: its rows at 72 columns.
use std::io::{self, BufWriter, Read};
use termimad::{Error, Out, PageSkin, Stream, write_markdown_on};

const COLUMNS: usize = 72;

pub fn run<R: Read + Drop>(rt: &HostRuntime, input: R) -> Result<(), Error> {
    let alloc = rt.alloc();
    let markdown = io::read_to_string(alloc, input)?;
    let mut out = Stream::new(BufWriter::new(alloc, io::writer(rt))?);
    let skin = PageSkin::dark();
    write_markdown_on(alloc, &mut out, &skin, markdown.as_str(), Some(COLUMNS))?;
    out.flush()?;
    Ok(())
}
