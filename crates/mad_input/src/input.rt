//! What is heard of each byte.

ghost use Rattle.std.specs.Prelude.{◌≡◌};
ghost use Rattle.mad_input.specs.Hearing.{afresh, awaited_after, awaiting, heard_event, heard_typed, quiet_input, ByteHears, DroppedHears, EscapedHears, PastedHears, PauseHears, IsTypedPaused, IsTypedRead, TypedHears};

use crate::marks::{ESC, Since, begins_paste, begins_string, ends_paste, says_ready};
use mad_keys::Keys;
use mad_term::Event;

const BEL: u8 = 7;

/// What is heard of a terminal.
#[derive(Clone, Copy, Debug, PartialEq, Eq)]
pub enum Heard {
    /// What was typed or done with the mouse, or a size that was asked for.
    Typed(Event),
    /// A key of a text that is pasted.
    Pasted(Event),
    /// The terminal answers that it is ready.
    Ready,
}

/// What is being read.
#[derive(Clone, Copy, Debug, PartialEq, Eq)]
pub enum Mode {
    /// What is typed.
    Types,
    /// A text that is pasted.
    Pastes,
    /// A string, which is dropped.
    Drops,
    /// An ESC in such a string.
    Escapes,
}

/// A reader of what a terminal sends.
///
/// It never fails and takes no memory.
#[derive(Drop)]
pub struct TerminalInput {
    /// The events of bytes.
    pub keys: Keys,
    /// The bytes since the last ESC.
    pub since: Since,
    /// What is being read.
    pub mode: Mode,
    /// How many answers to a question for the size still count.
    pub awaited: usize,
}

impl TerminalInput {
    /// A reader that has read nothing. No answer counts yet.
    pub fn new() -> TerminalInput
        ensures { result ≡ quiet_input }
    {
        TerminalInput {
            keys: Keys::new(),
            since: Since::new(),
            mode: Mode::Types,
            awaited: 0,
        }
    }

    /// Has one answer more count, where the terminal is asked for its size.
    pub fn await_size(&mut self, asks: bool)
        ensures { self.new ≡ awaiting asks self.old }
    {
        if asks {
            self.awaited = self.awaited.saturating_add(1);
        }
    }

    /// Reads one byte: what is heard of it, if anything is.
    pub fn byte(&mut self, b: u8) -> Option<Heard>
        ensures { ByteHears self.old.mode self.old b result self.new }
    {
        match self.mode {
            Mode::Types => self.byte_typed(b),
            Mode::Pastes => self.byte_pasted(b),
            Mode::Drops => self.byte_dropped(b),
            Mode::Escapes => self.byte_escaped(b),
        }
    }

    /// A pause of the terminal: a lone ESC that was typed is the key Esc, and a string ends. A text that is pasted goes on.
    pub fn pause(&mut self) -> Option<Heard>
        ensures { PauseHears self.old.mode self.old result self.new }
    {
        match self.mode {
            Mode::Types => self.pause_typed(),
            Mode::Pastes => None,
            Mode::Drops | Mode::Escapes => {
                self.end_string();
                None
            }
        }
    }

    // A pause in what is typed: after a lone ESC no mark begins with it.
    fn pause_typed(&mut self) -> Option<Heard>
        ensures { IsTypedPaused self.old result self.new }
    {
        let event = self.keys.pause();
        if event.is_some() {
            self.since = Since::new();
        }
        event.map(Heard::Typed)
    }

    // A byte that is typed.
    fn byte_typed(&mut self, b: u8) -> Option<Heard>
        ensures { TypedHears self.old b result self.new }
    {
        if begins_string(self.since.bytes(), b) {
            self.keys = Keys::new();
            self.since = Since::new();
            self.mode = Mode::Drops;
            return None;
        }
        self.read_typed(b)
    }

    // A byte that is typed, and begins no string.
    fn read_typed(&mut self, b: u8) -> Option<Heard>
        ensures { IsTypedRead self.old b result self.new }
    {
        let pastes = begins_paste(self.since.bytes(), b);
        let ready = says_ready(self.since.bytes(), b);
        self.since.add(b);
        let event = self.keys.byte(b);
        let heard = heard_typed(self.awaited, ready, event);
        self.awaited = awaited_after(self.awaited, event);
        self.mode = if pastes { Mode::Pastes } else { Mode::Types };
        heard
    }

    // A byte of a text that is pasted.
    fn byte_pasted(&mut self, b: u8) -> Option<Heard>
        ensures { PastedHears self.old b result self.new }
    {
        let ends = ends_paste(self.since.bytes(), b);
        self.since.add(b);
        let event = self.keys.byte(b);
        self.mode = if ends { Mode::Types } else { Mode::Pastes };
        event.map(Heard::Pasted)
    }

    // A byte of a string: BEL ends it, and ESC may.
    fn byte_dropped(&mut self, b: u8) -> Option<Heard>
        ensures { DroppedHears self.old b result self.new }
    {
        match b {
            BEL => self.end_string(),
            ESC => self.mode = Mode::Escapes,
            _ => {}
        }
        None
    }

    // A byte after an ESC in a string: a backslash ends the string, and any other is read after the ESC as what is typed.
    fn byte_escaped(&mut self, b: u8) -> Option<Heard>
        ensures { EscapedHears self.old b result self.new }
    {
        self.end_string();
        if b == b'\\' {
            return None;
        }
        let _waits = self.keys.byte(ESC);
        self.since.add(ESC);
        self.byte_typed(b)
    }

    // The end of a string: nothing waits.
    fn end_string(&mut self)
        ensures { self.new ≡ afresh self.old }
    {
        self.keys = Keys::new();
        self.since = Since::new();
        self.mode = Mode::Types;
    }
}

// What is heard of an event that is typed: a size only where one was asked for.
fn heard_event(awaited: usize, event: Event) -> Option<Heard>
    ensures { result ≡ heard_event awaited event }
{
    match event {
        Event::Resize(_, _) if awaited == 0 => None,
        _ => Some(Heard::Typed(event)),
    }
}

// What is heard of bytes that are typed: their event, or that the terminal is ready.
fn heard_typed(awaited: usize, ready: bool, event: Option<Event>) -> Option<Heard>
    ensures { result ≡ heard_typed awaited ready event }
{
    match event {
        Some(event) => heard_event(awaited, event),
        None if ready => Some(Heard::Ready),
        None => None,
    }
}

// How many answers still count after an event.
fn awaited_after(awaited: usize, event: Option<Event>) -> usize
    ensures { result ≡ awaited_after awaited event }
{
    match event {
        Some(Event::Resize(_, _)) => awaited.saturating_sub(1),
        _ => awaited,
    }
}
