//! A device that sends only what changes.

ghost use Rattle.std.specs.Prelude.{◌≡◌, ◌+◌, ◌^◌, ◌-◌, ◌++◌, [], min, IfOk, OnErr, OnOk};
ghost use Rattle.mad_term.specs.Trace.{after, flushed, Puts, Flushes};

use crate::frame::drop_front;
use crate::history::History;
use crate::messages::{Message, has_none, message_after, message_anew, question_length};
use crate::shows::Shows;
use mad_screen::Screen;
use mad_term::{Out, put_counted};
use std::alloc::{AllocError, Global};
use std::marker::Model;
use std::{io, mem};

/// A device over a terminal that scrolls. What is put in it is what a program would put on a plain terminal, and a flush sends what leads there from
/// what the terminal shows: what changes, where that is shorter.
///
/// What the plain terminal can't read, such as the question for the size of the screen, is passed on as it is. Nothing is known of the screen then: what
/// is put next is read as on a blank screen, and the terminal is cleared for it. So it is at first, and where the size is told to be another.
///
/// What the device below hasn't taken after a fault is sent first by the next flush.
#[derive(Drop)]
pub struct Sparing<O: Out> {
    alloc: Global,
    below: O,
    columns: u16,
    rows: u16,
    // What the terminal shows, if it is known, once it has read what is unsent.
    screen: Screen,
    // Memory for the next screen.
    spare: Screen,
    known: bool,
    // What was put since the last flush.
    drawn: Vec<u8>,
    unsent: Vec<u8>,
    faults: u64,
    flushes: u64,
    // What was put before it, a list for each flush.
    told: History<Vec<u8>>,
}

impl<O: Out> Model for Sparing<O> {
    ghost use Rattle.std.specs.Prelude.{◌++◌};
    ghost use Rattle.std.specs.List.{flat_map};
    ghost use Rattle.mad_frames.specs.Sparing.{Spared, IsSparing};

    ghost Value = { Spared };

    ghost view = { λ s. record { told = flat_map (λ v. v.items) s.told.items ++ s.drawn.items; faults = s.faults; flushes = s.flushes; below = O.seen s.below; columns = s.columns; rows = s.rows; screen = s.screen; known = s.known; drawn = s.drawn.items; unsent = s.unsent.items } };

    ghost invariant = { λ s. IsSparing (record { told = flat_map (λ v. v.items) s.told.items ++ s.drawn.items; faults = s.faults; flushes = s.flushes; below = O.seen s.below; columns = s.columns; rows = s.rows; screen = s.screen; known = s.known; drawn = s.drawn.items; unsent = s.unsent.items }) };
}

impl<O: Out + Drop> Sparing<O> {
    ghost use Rattle.mad_frames.specs.Sparing.{new_spared};

    /// A device over another one, for a screen of `columns` and `rows`.
    ///
    /// # Errors
    ///
    /// Out of memory.
    pub fn new(alloc: Global, below: O, columns: u16, rows: u16) -> Result<Self, AllocError>
        ensures { IfOk result (λ sparing. sparing ≡ new_spared (O.seen below) columns rows) }
    {
        Ok(Sparing {
            alloc,
            below,
            columns,
            rows,
            screen: Screen::new(alloc, columns, rows)?,
            spare: Screen::new(alloc, 0, 0)?,
            known: false,
            drawn: Vec::new(alloc),
            unsent: Vec::new(alloc),
            faults: 0,
            flushes: 0,
            told: History::new(),
        })
    }
}

impl<O: Out> Sparing<O> {
    ghost use Rattle.mad_frames.specs.Sparing.{flushed_screen, goes_on, known_screen, next_screen, IsQueued, IsSent, IsSparing};

    /// Does nothing, and says what is true of every such device.
    pub fn stays_true(&self)
        ensures { IsSparing self.now }
    {
        let _ = &self.known;
    }

    /// The device below.
    pub fn below(&self) -> &O
        ensures { O.seen result.now ≡ self.now.below }
    {
        &self.below
    }

    // Counts a fault. The count stays at its greatest value.
    fn count_fault(&mut self)
        ensures { self.new ≡ record self.old { faults = min (self.old.faults + 1) (2 ^ 64 - 1) } }
    {
        self.faults = self.faults.saturating_add(1);
    }

    // Counts a flush. The count stays at its greatest value.
    fn count_flush(&mut self)
        ensures { self.new ≡ record self.old { flushes = min (self.old.flushes + 1) (2 ^ 64 - 1) } }
    {
        self.flushes = self.flushes.saturating_add(1);
    }

    // Whether what was put is read on from the known screen.
    fn goes_on(&self) -> bool
        ensures { result ≡ goes_on self.now }
    {
        self.known
            && question_length(&self.drawn) == 0
            && self.screen.width() == self.columns
            && self.screen.height() == self.rows
    }

    // What is to be sent of what was put.
    fn message(&mut self) -> Result<Message, AllocError>
        ensures same { self.new ≡ self.old }
        ensures screen { IfOk result (λ m. m.screen ≡ next_screen self.old) }
        ensures sent { IfOk result (λ m. IsSent self.old m.bytes.items) }
    {
        let goes_on = self.goes_on();
        let spare = mem::replace(&mut self.spare, Screen::new(self.alloc, 0, 0)?);
        if goes_on {
            return message_after(self.alloc, &self.screen, spare, &self.drawn);
        }
        let front = question_length(&self.drawn);
        message_anew(
            self.alloc,
            self.columns,
            self.rows,
            spare,
            &self.drawn,
            front,
        )
    }

    // Sends a message next, in the place of what was put.
    fn put_message(&mut self, message: Message) -> Result<(), AllocError>
        requires screen { message.screen ≡ next_screen self.old }
        requires sent { IsSent self.old message.bytes.items }
        ensures same { OnOk result (self.new ≡ record self.old { screen = self.new.screen; known = self.new.known; drawn = []; unsent = self.old.unsent ++ message.bytes.items }) }
        ensures screen { OnOk result (known_screen self.new ≡ next_screen self.old) }
        ensures err { OnErr result (self.new ≡ self.old) }
    {
        let Message { bytes, screen } = message;
        self.unsent.extend_from_slice(&bytes)?;
        self.told = self.told.and(&self.drawn);
        self.drawn.clear();
        match screen {
            Some(screen) => {
                self.spare = mem::replace(&mut self.screen, screen);
                self.known = true;
            }
            None => self.known = false,
        }
        Ok(())
    }

    // What was put is to be sent next.
    fn take_drawn(&mut self) -> Result<(), AllocError>
        ensures same { OnOk result (self.new ≡ record self.old { screen = self.new.screen; known = self.new.known; drawn = []; unsent = self.new.unsent }) }
        ensures screen { OnOk result (known_screen self.new ≡ flushed_screen self.old) }
        ensures queued { OnOk result (IsQueued self.old self.new.unsent) }
        ensures err { OnErr result (self.new ≡ self.old) }
    {
        if has_none(&self.drawn) {
            return Ok(());
        }
        let message = self.message()?;
        self.put_message(message)
    }

    // Sends what is unsent, and flushes. What the device below hasn't taken is left.
    fn send(&mut self) -> io::Result<()>
        ensures same { self.new ≡ record self.old { below = self.new.below; unsent = self.new.unsent } }
        ensures all { OnOk result (self.new.unsent ≡ []) }
        ensures sent { OnOk result (self.new.below ≡ flushed (after self.old.below self.old.unsent)) }
    {
        let (taken, put) = put_counted(&mut self.below, &self.unsent);
        drop_front(&mut self.unsent, taken);
        put?;
        self.below.flush()
    }
}

impl<O: Out> Out for Sparing<O> {
    ghost use Rattle.mad_frames.specs.Sparing.{spared_trace, IsFlushed};

    ghost seen = { spared_trace };

    #[tactic(auto, unfolding(mad_term::specs::Trace::after, mad_term::specs::Trace::failed))]
    fn put(&mut self, bytes: &[u8]) -> io::Result<usize>
        ensures puts { Puts (spared_trace self.old) bytes.now result (spared_trace self.new) }
        ensures drawn { OnOk result (self.new ≡ record self.old { told = self.old.told ++ bytes.now; drawn = self.old.drawn ++ bytes.now }) }
    {
        if self.drawn.extend_from_slice(bytes).is_err() {
            self.count_fault();
            return Err(io::Error::from(io::ErrorKind::OutOfMemory));
        }
        Ok(bytes.len())
    }

    #[tactic(auto, unfolding(mad_term::specs::Trace::flushed, mad_term::specs::Trace::failed))]
    fn flush(&mut self) -> io::Result<()>
        ensures flushes { Flushes (spared_trace self.old) result (spared_trace self.new) }
        ensures done { OnOk result (IsFlushed self.old self.new) }
    {
        if self.take_drawn().is_err() {
            self.count_fault();
            return Err(io::Error::from(io::ErrorKind::OutOfMemory));
        }
        match self.send() {
            Ok(()) => {
                self.count_flush();
                Ok(())
            }
            Err(e) => {
                self.count_fault();
                Err(e)
            }
        }
    }
}

impl<O: Out> Shows for Sparing<O> {
    ghost use Rattle.mad_frames.specs.Sparing.{spared_trace};

    fn sized(&mut self, columns: u16, rows: u16)
        ensures seen { spared_trace self.new ≡ spared_trace self.old }
        ensures told { self.new ≡ record self.old { columns = columns; rows = rows } }
    {
        self.columns = columns;
        self.rows = rows;
    }
}
