//! A panel on a terminal: keys come from an input, and after each what has changed is sent to the terminal, whose screen is written as rows of text.

use std::alloc::{AllocError, Global};
use std::io::Read;
use termimad::frames::{Frame, PresentError};
use termimad::keys::Keys;
use termimad::screen::Screen;
use termimad::{ClearType, CutOut, Error, Event, KeyEvent, Out, Source, Stream, queue_clear};

// How many bytes one fill is asked for.
const BLOCK: usize = 64;

// More bytes than a present takes.
const ROOM: usize = 4000;

/// What is drawn over a whole terminal, and what keys do there.
pub trait Panel {
    /// Does what a key asks for.
    fn apply(&mut self, key: KeyEvent) -> Result<(), Error>;

    /// Whether more keys are to come.
    fn is_open(&self) -> bool;

    /// Draws it. Nothing is flushed.
    fn draw<O: Out>(&mut self, alloc: Global, out: &mut O) -> Result<(), Error>;
}

/// Gives a panel the keys of an input, until it is closed or the input ends. It is on a terminal of so many columns and rows.
pub fn run<R: Read + Drop, P: Panel>(
    rt: &HostRuntime,
    input: R,
    panel: &mut P,
    columns: u16,
    rows: u16,
) -> Result<(), Error> {
    let mut terminal = Terminal::new(rt.alloc(), columns, rows)?;
    let mut input = Stream::new(input);
    let mut keys = Keys::new();
    let mut block = [0; BLOCK];
    for _turn in 0..u64::MAX {
        let count = input.fill(&mut block)?;
        for b in &block[..count] {
            let event = keys.byte(*b);
            if !goes_on(rt, panel, &mut terminal, event)? {
                return Ok(());
            }
        }
        let event = if count < BLOCK { keys.pause() } else { None };
        if !goes_on(rt, panel, &mut terminal, event)? || count == 0 {
            return Ok(());
        }
    }
    Ok(())
}

// Does what an event says, if there is one, and whether more keys are to come.
fn goes_on<P: Panel>(
    rt: &HostRuntime,
    panel: &mut P,
    terminal: &mut Terminal,
    event: Option<Event>,
) -> Result<bool, Error> {
    let Some(Event::Key(key)) = event else {
        return Ok(true);
    };
    panel.apply(key)?;
    if panel.is_open() {
        let sent = terminal.show(rt.alloc(), panel)?;
        println!(rt; "{sent} bytes\n{}", terminal.screen)?;
    }
    Ok(panel.is_open())
}

// A terminal, and the frame that it is to show.
#[derive(Drop)]
struct Terminal {
    screen: Screen,
    frame: Frame,
}

impl Terminal {
    // A blank one.
    fn new(alloc: Global, columns: u16, rows: u16) -> Result<Self, AllocError> {
        Ok(Terminal {
            screen: Screen::new(alloc, columns, rows)?,
            frame: Frame::new(alloc, columns, rows)?,
        })
    }

    // Draws a panel into the blank frame, and sends what has changed. Answers how many bytes that takes.
    fn show<P: Panel>(&mut self, alloc: Global, panel: &mut P) -> Result<usize, Error> {
        queue_clear(&mut self.frame, ClearType::All)?;
        panel.draw(alloc, &mut self.frame)?;
        let mut out = CutOut::new(alloc, ROOM, ROOM, false)?;
        self.frame.present(alloc, &mut out)?;
        self.screen
            .read_bytes(out.taken())
            .map_err(PresentError::from)?;
        Ok(out.taken().len())
    }
}
