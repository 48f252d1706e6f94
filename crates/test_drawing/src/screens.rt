//! What a screen shows of a drawing.

use crate::devices::ample;
use crate::drawings::draw;
use mad_screen::{NotPlain, Screen};
use mad_term::{Error, push_move};
use std::alloc::{AllocError, Global};

/// A screen with the lines of the text on it, and then a drawing.
pub fn screen(alloc: Global, call: &str, text: &str) -> Result<String, AllocError> {
    let mut answer = String::new(alloc);
    let mut screen = Screen::new(alloc, 12, 5)?;
    read(&mut screen, lines(alloc, text)?.as_bytes(), &mut answer)?;
    let mut out = ample(alloc)?;
    match draw(alloc, &mut out, call, "") {
        Ok(()) => read(&mut screen, out.taken(), &mut answer)?,
        Err(Error::Memory) => return Err(AllocError),
        Err(error) => write!(answer, "refused: {error}\n")?,
    }
    write!(answer, "{screen}")?;
    let looks = screen.looks()?;
    if !looks.pens().is_empty() {
        write!(answer, "{looks}")?;
    }
    Ok(answer)
}

// The lines of a text, each at the beginning of its row.
fn lines(alloc: Global, text: &str) -> Result<String, AllocError> {
    let mut bytes = String::new(alloc);
    for (line, y) in text.split('\n').zip(0..5) {
        push_move(&mut bytes, 0, y)?;
        bytes.push_str(line)?;
    }
    Ok(bytes)
}

fn read(screen: &mut Screen, bytes: &[u8], answer: &mut String) -> Result<(), AllocError> {
    match screen.read_bytes(bytes) {
        Ok(()) => Ok(()),
        Err(NotPlain::Memory) => Err(AllocError),
        Err(error) => write!(answer, "{error}\n"),
    }
}
