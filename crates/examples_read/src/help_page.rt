//! A Markdown file in an area at the top left of the screen. Arguments: the file, and the area's columns and rows.
ghost use Rattle.std.specs.Prelude.{IfOk};
ghost use Rattle.termimad.specs.Areas.{IsWithinLimits};

use std::io::{BufWriter, Error as IoError, ErrorKind};
use std::{fs, io};
use termimad::{Area, Error, MadSkin, Stream};

pub fn run(rt: &HostRuntime, file: &str, width: &str, height: &str) -> Result<(), Error> {
    let alloc = rt.alloc();
    let area = area_of(width, height)?;
    let text = fs::read_to_string(rt, file)?;
    let mut out = Stream::new(BufWriter::new(alloc, io::writer(rt))?);
    MadSkin::default().write_in_area(alloc, &mut out, text.as_str(), &area)
}

// The area of that size, each number at most 65535.
fn area_of(width: &str, height: &str) -> Result<Area, Error>
    ensures { IfOk result (λ area. IsWithinLimits area) }
{
    match (width.parse(), height.parse()) {
        (Ok(width), Ok(height)) => Ok(Area::new(0, 0, width, height)),
        _ => Err(usage()),
    }
}

fn usage() -> Error {
    Error::from(IoError::new(
        ErrorKind::InvalidInput,
        "usage: help_page FILE COLUMNS ROWS",
    ))
}
