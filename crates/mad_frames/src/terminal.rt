//! A terminal for tests.

ghost use Rattle.std.specs.Prelude.{◌≡◌, ◌⊎◌, None, Some, IfErr, IfOk, IsErrOf, IsOk, length};
ghost use Rattle.mad_term.specs.Trace.{Puts, Flushes};

use crate::errors::PresentError;
use crate::gathered::Gathered;
use crate::shows::Shows;
use mad_screen::Screen;
use mad_term::Out;
use std::alloc::{AllocError, Global};
use std::io;

/// A terminal in memory. As an [`Out`] it takes what a program writes, and fails only where there is no memory.
#[derive(Drop)]
pub struct TestTerminal {
    width: u16,
    height: u16,
    out: Gathered,
}

impl TestTerminal {
    ghost use Rattle.mad_frames.specs.TestTerminals.{terminal_trace, shown_on, IsTestTerminal, HasPicture};

    /// A blank one of `width` columns and `height` rows.
    pub fn new(alloc: Global, width: u16, height: u16) -> Self
        ensures { IsTestTerminal result width height }
    {
        TestTerminal {
            width,
            height,
            out: Gathered::new(alloc),
        }
    }

    /// All the bytes that it took.
    pub fn taken(&self) -> &[u8]
        ensures { (terminal_trace self.now).bytes ≡ Some result.now }
    {
        self.out.bytes.as_slice()
    }

    /// What it shows of them. It reads them all anew.
    ///
    /// # Errors
    ///
    /// `Undefined` where the plain terminal can't read them, and `Memory` for out of memory.
    pub fn shown(&self, alloc: Global) -> Result<Screen, PresentError>
        ensures shown { IfOk result (λ screen. shown_on self.now ≡ Some screen) }
        ensures not_plain { IsErrOf result PresentError.Undefined → shown_on self.now ≡ None }
        ensures refused { IfErr result (λ e. (e ≡ PresentError.Undefined) ⊎ (e ≡ PresentError.Memory)) }
    {
        let mut screen = Screen::new(alloc, self.width, self.height)?;
        screen.read_bytes(&self.out.bytes)?;
        Ok(screen)
    }

    /// `None` where it shows the rows of `picture`, each with a newline, as a [`Screen`] is written. Else a text for people:
    /// both pictures, and the first row in which they part, counted from zero.
    ///
    /// # Errors
    ///
    /// Those of [`TestTerminal::shown`].
    pub fn parting(&self, alloc: Global, picture: &str) -> Result<Option<String>, PresentError>
        ensures same { IfOk result (λ told. told ≡ None → HasPicture self.now picture.now) }
        ensures parted { IfOk result (λ told. HasPicture self.now picture.now → told ≡ None) }
        ensures refused { IfErr result (λ e. (e ≡ PresentError.Undefined) ⊎ (e ≡ PresentError.Memory)) }
    {
        let screen = self.shown(alloc)?;
        let came = format!(in alloc; "{screen}")?;
        if came.as_str() == picture {
            return Ok(None);
        }
        Ok(Some(told(alloc, picture, &came)?))
    }
}

// Two pictures, and the first row in which they part.
fn told(alloc: Global, wanted: &str, came: &str) -> Result<String, AllocError> {
    let mut row: usize = 0;
    for (want, come) in wanted.split('\n').zip(came.split('\n')) {
        if want != come {
            break;
        }
        row = row.saturating_add(1);
    }
    format!(in alloc; "wanted\n{wanted}came\n{came}they part in row {row}\n")
}

impl Out for TestTerminal {
    ghost use Rattle.mad_frames.specs.TestTerminals.{terminal_trace, IsSameTerminal};

    ghost seen = { terminal_trace };

    fn put(&mut self, bytes: &[u8]) -> io::Result<usize>
        ensures puts { Puts (terminal_trace self.old) bytes.now result (terminal_trace self.new) }
        ensures whole { IfOk result (λ count. count ≡ length bytes.now) }
        ensures keeps { IsSameTerminal self.old self.new }
    {
        self.out.put(bytes)
    }

    fn flush(&mut self) -> io::Result<()>
        ensures flushes { Flushes (terminal_trace self.old) result (terminal_trace self.new) }
        ensures always { IsOk result }
        ensures keeps { IsSameTerminal self.old self.new }
    {
        self.out.flush()
    }
}

impl Shows for TestTerminal {
    ghost use Rattle.mad_frames.specs.TestTerminals.{terminal_trace, IsSameTerminal};

    fn sized(&mut self, _columns: u16, _rows: u16)
        ensures seen { terminal_trace self.new ≡ terminal_trace self.old }
        ensures keeps { IsSameTerminal self.old self.new }
    {}
}
