//! How a screen reads a text: character by character, with the sequence that it is in the middle of.

ghost use Rattle.std.specs.Prelude.{◌≡◌, ◌<◌, None, Some, IfOk, MatchBool, chars};
ghost use Rattle.mad_screen.specs.Terminal.{feed, feed_all, settled, with_digit, resting};
ghost use Rattle.mad_screen.specs.Readers.{reading_of};

use crate::screen::Screen;
use std::alloc::{AllocError, Global};
use std::fmt;

/// How far a sequence has come.
#[derive(Clone, Copy, Debug, PartialEq, Eq)]
pub(crate) enum Mode {
    /// Outside a sequence.
    Outside,
    /// After ESC.
    Escape,
    /// Among the numbers.
    Numbers,
}

/// A screen in the middle of a text.
#[derive(Drop)]
pub(crate) struct Reader {
    screen: Screen,
    mode: Mode,
    // The numbers that are read.
    numbers: Vec<u32>,
    // What there is of the next number.
    digits: Option<u32>,
}

/// Why a text was not read.
#[derive(Clone, Copy, Debug, PartialEq, Eq)]
pub enum NotPlain {
    /// The plain terminal can't read it.
    Undefined,
    /// Out of memory.
    Memory,
}

impl fmt::Display for NotPlain {
    ghost use Rattle.std.specs.Prelude.{Some};
    ghost use Rattle.mad_screen.specs.Refusals.{refused_text};

    ghost output = { λ e. Some (refused_text e) };

    fn fmt<W: fmt::Write>(&self, f: &mut fmt::Formatter<W>) -> fmt::Result {
        match self {
            NotPlain::Undefined => write!(f, "not plain terminal output"),
            NotPlain::Memory => write!(f, "want of memory"),
        }
    }
}

impl std::error::Error for NotPlain {}

impl From<AllocError> for NotPlain {
    ghost use Rattle.mad_screen.specs.declared.reader.NotPlain.TheVariants.{Memory};

    ghost from_gives = { λ _ r. r ≡ Memory };

    fn from(_: AllocError) -> Self {
        NotPlain::Memory
    }
}

// The number with one more digit.
fn with_digit(now: Option<u32>, digit: u32) -> Option<u32>
    requires { digit < 10 }
    ensures { result ≡ with_digit now digit }
{
    match now {
        None => Some(digit),
        Some(0) => None,
        Some(n) => n.checked_mul(10)?.checked_add(digit),
    }
}

impl Reader {
    /// Outside a sequence, before any text.
    pub(crate) fn new(alloc: Global, screen: Screen) -> Self
        ensures { reading_of result ≡ resting screen }
    {
        Reader {
            screen,
            numbers: Vec::new(alloc),
            mode: Mode::Outside,
            digits: None,
        }
    }

    // A character among numbers. It answers whether it may come there.
    fn number(&mut self, c: char) -> Result<bool, AllocError>
        requires { self.old.mode ≡ Mode.Numbers }
        ensures { IfOk result (λ done. MatchBool done (feed (reading_of self.old) c ≡ Some (reading_of self.new)) (feed (reading_of self.old) c ≡ None)) }
    {
        if '0' <= c && c <= '9' {
            self.digits = with_digit(self.digits, c as u32 - 48);
            return Ok(self.digits.is_some());
        }
        match self.digits {
            Some(n) => self.numbers.push(n)?,
            None if self.numbers.is_empty() => {}
            None => return Ok(false),
        }
        if c == ';' && self.digits.is_some() {
            self.digits = None;
            return Ok(true);
        }
        self.mode = Mode::Outside;
        self.screen.perform(c, &self.numbers)
    }

    // The next character. It answers whether the terminal knows what to do with it.
    fn feed(&mut self, c: char) -> Result<bool, AllocError>
        ensures { IfOk result (λ done. MatchBool done (feed (reading_of self.old) c ≡ Some (reading_of self.new)) (feed (reading_of self.old) c ≡ None)) }
    {
        match self.mode {
            Mode::Outside => {
                if c == '\x1b' {
                    self.mode = Mode::Escape;
                    return Ok(true);
                }
                self.screen.put(c)
            }
            Mode::Escape => {
                if c != '[' {
                    return Ok(false);
                }
                self.numbers.clear();
                self.digits = None;
                self.mode = Mode::Numbers;
                Ok(true)
            }
            Mode::Numbers => self.number(c),
        }
    }

    /// The screen, if no sequence is cut off.
    pub(crate) fn finish(self) -> Option<Screen>
        ensures { result ≡ settled (reading_of self) }
    {
        let Reader {
            screen,
            mode,
            numbers: _,
            digits: _,
        } = self;
        match mode {
            Mode::Outside => Some(screen),
            _ => None,
        }
    }

    /// Characters, one after another. It answers whether the terminal can read them.
    pub(crate) fn feed_all(&mut self, text: &str) -> Result<bool, AllocError>
        ensures { IfOk result (λ done. MatchBool done (feed_all (chars text.now) (reading_of self.old) ≡ Some (reading_of self.new)) (feed_all (chars text.now) (reading_of self.old) ≡ None)) }
    {
        for c in text.chars() {
            if !self.feed(c)? {
                return Ok(false);
            }
        }
        Ok(true)
    }
}
