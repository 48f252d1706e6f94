//! What a frame sends, and what a terminal shows of it.

use crate::screens::{bytes_of, push_pictures};
use crate::words::{number, pair};
use mad_frames::{Frame, PresentError, TestTerminal};
use mad_screen::{CutOut, Screen};
use mad_term::{Error, Out, put_all};
use std::alloc::{AllocError, Global};
use test_rows::devices::Writing;

/// A frame of a width and a height, and its terminal, which is in the middle of some bytes where a device has failed.
#[derive(Drop)]
struct Stage {
    frame: Frame,
    terminal: Screen,
    pending: Vec<u8>,
}

// A frame fails only where there is no memory.
fn draw(alloc: Global, frame: &mut Frame, text: &str) -> Result<(), AllocError> {
    let bytes = bytes_of(alloc, text)?;
    if put_all(frame, &bytes).is_err() || frame.flush().is_err() {
        return Err(AllocError);
    }
    Ok(())
}

impl Stage {
    fn new(alloc: Global, size: &str) -> Result<Stage, AllocError> {
        let (width, height) = pair(size);
        Ok(Stage {
            frame: Frame::new(alloc, width, height)?,
            terminal: Screen::new(alloc, width, height)?,
            pending: Vec::new(alloc),
        })
    }

    // One step: its name, and what it is done with.
    fn step(&mut self, alloc: Global, line: &str, answer: &mut String) -> Result<(), AllocError> {
        let (name, rest) = line.split_once(' ').unwrap_or((line, ""));
        match name {
            "draw" => draw(alloc, &mut self.frame, rest),
            "discard" => {
                self.frame.discard();
                Ok(())
            }
            "disturb" => self.show(&bytes_of(alloc, rest)?),
            "resize" => self.resize(alloc, rest),
            "broken_flush" => self.present(
                alloc,
                "present",
                CutOut::new(alloc, 1, 1000, true)?,
                answer,
            ),
            _ => {
                let room = number(Some(rest)).unwrap_or(1000);
                self.present(alloc, name, CutOut::new(alloc, 1000, room, false)?, answer)
            }
        }
    }

    // Some bytes come to the terminal. It reads them once they end outside a sequence.
    fn show(&mut self, bytes: &[u8]) -> Result<(), AllocError> {
        self.pending.extend_from_slice(bytes)?;
        if self.terminal.read_bytes(&self.pending).is_ok() {
            self.pending.clear();
        }
        Ok(())
    }

    fn resize(&mut self, alloc: Global, size: &str) -> Result<(), AllocError> {
        let (width, height) = pair(size);
        self.frame.resize(alloc, width, height)?;
        self.terminal = Screen::new(alloc, width, height)?;
        self.pending.clear();
        Ok(())
    }

    fn present(
        &mut self,
        alloc: Global,
        name: &str,
        device: CutOut,
        answer: &mut String,
    ) -> Result<(), AllocError> {
        let mut out = device;
        let done = if name == "redraw" {
            self.frame.redraw(alloc, &mut out)
        } else {
            self.frame.present(alloc, &mut out)
        };
        match done {
            Ok(()) => {}
            Err(PresentError::Memory) => return Err(AllocError),
            Err(error) => write!(answer, "{error}; ")?,
        }
        let (puts, flushes) = (out.puts(), out.flushes());
        let taken = String::from_utf8_lossy(alloc, out.taken())?;
        write!(answer, "puts {puts}, flushes {flushes}: {taken}\n")?;
        self.show(out.taken())
    }
}

/// What a frame sends over steps, one a line, and then the picture and the looks of its terminal.
pub fn framed(alloc: Global, size: &str, text: &str) -> Result<String, AllocError> {
    let mut answer = String::new(alloc);
    let mut stage = Stage::new(alloc, size)?;
    for line in text.split('\n') {
        stage.step(alloc, line, &mut answer)?;
    }
    if !stage.pending.is_empty() {
        answer.push_str("in the middle of a sequence\n")?;
    }
    push_pictures(&mut answer, &stage.terminal)?;
    Ok(answer)
}

/// What a terminal for tests of a size that takes the bytes of the first line says of a picture, the other lines.
pub fn compared(alloc: Global, size: &str, text: &str) -> Result<String, AllocError> {
    let (width, height) = pair(size);
    let (bytes, rows) = text.split_once('\n').unwrap_or((text, ""));
    let picture = format!(in alloc; "{rows}\n")?;
    let mut terminal = TestTerminal::new(alloc, width, height);
    if put_all(&mut terminal, &bytes_of(alloc, bytes)?).is_err() {
        return Err(AllocError);
    }
    match terminal.parting(alloc, &picture) {
        Ok(Some(told)) => Ok(told),
        Ok(None) => String::from_str(alloc, "as wanted"),
        Err(PresentError::Memory) => Err(AllocError),
        Err(error) => format!(in alloc; "{error}"),
    }
}

/// Whether devices that fail get what they should of one present of all that the steps draw.
pub fn tried(alloc: Global, size: &str, text: &str) -> Result<String, AllocError> {
    test_rows::devices::tried(alloc, &Presented { size, text })
}

// A present of all that steps draw.
#[derive(Drop)]
struct Presented<'a> {
    size: &'a str,
    text: &'a str,
}

impl Writing for Presented<'_> {
    fn write(&self, alloc: Global, out: &mut CutOut) -> Result<(), Error> {
        let (width, height) = pair(self.size);
        let mut frame = Frame::new(alloc, width, height)?;
        for line in self.text.split('\n') {
            if let Some(text) = line.strip_prefix("draw ") {
                draw(alloc, &mut frame, text)?;
            }
        }
        match frame.present(alloc, out) {
            Err(PresentError::IO(error)) => Err(Error::IO(error)),
            Err(PresentError::Memory) => Err(Error::Memory),
            _ => Ok(()),
        }
    }
}
