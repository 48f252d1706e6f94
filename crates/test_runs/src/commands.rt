//! Calls of the command `termimad`.

use crate::runs::{ROOM, args_of, input_of, told};
use mad_screen::{CutOut, ScriptSource};
use std::alloc::{AllocError, Global};
use std::io::{self, ErrorKind};
use termimad_given::Texts;
use termimad_options::{Shade, Surroundings};

/// What the command writes where standard output is no terminal, called by words with bars between them; then its status and what it says.
pub fn run(alloc: Global, words: &str, text: &str) -> Result<String, AllocError> {
    let args = args_of(alloc, words)?;
    let around = in_forty_columns();
    let mut input = ScriptSource::new(input_of(text), false);
    let mut out = CutOut::new(alloc, ROOM, ROOM, false)?;
    let mut err = CutOut::new(alloc, ROOM, ROOM, false)?;
    let words = args.as_slice();
    let status = termimad_command::run(
        alloc, words, &around, &Shelf, &mut input, &mut out, &mut err,
    );
    if status == 5 {
        return Err(AllocError);
    }
    told(alloc, status, &out, &err)
}

// A pipe, where COLUMNS is 40.
fn in_forty_columns<'a>() -> Surroundings<'a> {
    Surroundings {
        is_terminal: false,
        is_dumb: true,
        has_few_colors: false,
        is_colorless: false,
        shade: Shade::Unknown,
        columns: None,
        rows: None,
        set_columns: Some(40),
        skin: None,
    }
}

// Texts by their names, and names that stand for faults.
struct Shelf;

impl Texts for Shelf {
    ghost use Rattle.termimad_given.specs.Given.{files};

    ghost holds = { λ _. files };

    fn read(&self, alloc: Global, name: &str) -> io::Result<Vec<u8>> {
        match name {
            "a.md" => Ok(Vec::from_slice(alloc, b"one *two*")?),
            "b.md" => Ok(Vec::from_slice(alloc, b"three")?),
            "keys.json" => Ok(Vec::from_slice(alloc, b"{\"blod\":\"red\"}")?),
            "latin.json" => Ok(Vec::from_slice(alloc, b"{\"\xe9\":1}")?),
            "folder" => Err(io::Error::new(ErrorKind::IsADirectory, "")),
            "a.md/b.md" => Err(io::Error::new(ErrorKind::NotADirectory, "")),
            "locked.md" => Err(io::Error::new(ErrorKind::PermissionDenied, "")),
            "torn.md" => Err(io::Error::new(ErrorKind::Other, "")),
            _ => Err(io::Error::new(ErrorKind::NotFound, "")),
        }
    }
}
