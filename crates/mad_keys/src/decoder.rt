//! The events of all bytes, one after another.

ghost use Rattle.std.specs.Prelude.{◌≡◌, ℕ, ◌≤◌, List, [], ◌∷◌, ◌++◌, take};
ghost use Rattle.mad_keys.specs.EventBytes.{IsEventOf};
ghost use Rattle.mad_keys.specs.Steps.{step_of};
ghost use Rattle.mad_keys.specs.Decoding.{kept, AfreshGives, ByteGives, PauseGives};

use crate::characters::key_with;
use crate::meaning::event_of;
use crate::steps::{ESC, Step, step_of};
use mad_term::{Event, KeyCode};
use std::marker::Model;

/// A reader of what a terminal sends: it keeps the beginning of an event's bytes, until the rest of them comes.
///
/// The answer to a question for the screen's size (`ESC [ 18 t`, or a move to its last cell and `ESC [ 6 n`) is read as
/// [`Event::Resize`].
///
/// It never fails and takes no memory. At most 18 bytes wait: no event has more, and the bytes of a longer sequence are dropped
/// as they come.
#[derive(Drop)]
pub struct Keys {
    // Those that wait, and room for the last one of an item.
    bytes: [u8; 19],
    count: usize,
}

impl Model for Keys {
    ghost Value = { List ℕ };

    ghost view = { λ k. take k.count k.bytes };

    ghost invariant = { λ k. k.count ≤ 18 };
}

impl Keys {
    /// A reader in which nothing waits.
    pub fn new() -> Keys
        ensures { result ≡ [] }
    {
        Keys {
            bytes: [0; 19],
            count: 0,
        }
    }

    /// Reads one byte: the event that it ends, if it ends one.
    pub fn byte(&mut self, b: u8) -> Option<Event>
        ensures { ByteGives self.old b result self.new }
    {
        match step_of(self.waiting(), b) {
            Step::Waits => {
                self.keep(b);
                None
            }
            Step::Ends => self.end(b),
            Step::Breaks => match self.pause() {
                Some(event) => {
                    self.keep(b);
                    Some(event)
                }
                None => {
                    self.clear();
                    self.afresh(b)
                }
            },
        }
    }

    /// A pause of the terminal: a lone ESC that waits is the key Esc. What else waits goes on waiting.
    pub fn pause(&mut self) -> Option<Event>
        ensures { PauseGives self.old result self.new }
    {
        match self.waiting() {
            [ESC] => {
                self.clear();
                Some(Event::Key(key_with(0, KeyCode::Esc)))
            }
            _ => None,
        }
    }

    // The bytes that wait.
    fn waiting(&self) -> &[u8]
        ensures { result.now ≡ self.now }
    {
        &self.bytes[..self.count]
    }

    // Nothing waits now.
    fn clear(&mut self)
        ensures { self.new ≡ [] }
    {
        self.count = 0;
    }

    // One more byte waits, unless there are 18.
    fn keep(&mut self, b: u8)
        ensures { self.new ≡ kept (self.old ++ b ∷ []) }
    {
        if self.count < 18 {
            self.bytes[self.count] = b;
            self.count += 1;
        }
    }

    // A byte that is the last of an item: the event of them all.
    fn end(&mut self, b: u8) -> Option<Event>
        ensures told { IsEventOf (self.old ++ b ∷ []) result }
        ensures none_waits { self.new ≡ [] }
    {
        self.bytes[self.count] = b;
        let event = event_of(&self.bytes[..self.count + 1]);
        self.count = 0;
        event
    }

    // A byte that is read while nothing waits.
    fn afresh(&mut self, b: u8) -> Option<Event>
        requires { self.old ≡ [] }
        ensures { AfreshGives (step_of [] b) b result self.new }
    {
        match step_of(&[], b) {
            Step::Waits => {
                self.keep(b);
                None
            }
            _ => self.end(b),
        }
    }
}
