//! Frames: what is drawn into them is presented as what changes.

ghost use Rattle.std.specs.Prelude.{◌≡◌, ◌≤◌, ◌++◌, [], ◌∷◌, None, Some, true, false, IfOk, IfErr, IsErrOf, OnOk, OnErr, length, string_bytes, drop};
ghost use Rattle.mad_term.specs.declared.commands.ClearType.TheVariants.{All};
ghost use Rattle.mad_term.specs.Commands.{clear_bytes, sgr_bytes};
ghost use Rattle.mad_term.specs.Trace.{Trace, Puts, Flushes, TookWith};
ghost use Rattle.mad_frames.specs.Changes.{SameSize};
ghost use Rattle.mad_frames.specs.Frames.{new_frame, frame_trace, drawn_screen, unknown, LeadsAll, AddsNothing, IsBounded, IsMessage, KeepsInStep, Sends, Presents};

use crate::errors::PresentError;
use crate::gathered::Gathered;
use crate::writing::mended_changes;
use mad_screen::{NotPlain, Screen};
use mad_term::{ClearType, Out, push_clear, put_counted};
use std::alloc::{AllocError, Global};
use std::marker::Model;
use std::{io, mem};

/// A screen that is drawn into and presented. As an [`Out`] it keeps what is drawn, bytes that the plain terminal reads; a
/// present sends what differs from the screen that was presented last.
///
/// One draws over what was presented last. To draw a screen anew, clear the frame first (`queue_clear`): that costs no byte
/// where the same is drawn again. Commands that the plain terminal can't read, such as hiding the cursor, go to the device
/// itself.
///
/// What the device hasn't taken after a fault is sent first by the next present. So what a terminal shows is known after
/// faults too.
#[derive(Drop)]
pub struct Frame {
    base: Screen,
    // Memory for the next screen: that of the one before `base`.
    spare: Screen,
    drawn: Gathered,
    unsent: Vec<u8>,
    known: bool,
}

impl Model for Frame {
    ghost use Rattle.mad_frames.specs.Gathered.{gathered_trace};
    ghost use Rattle.mad_frames.specs.Frames.{FrameState};

    ghost Value = { FrameState };

    ghost view = { λ f. record { base = f.base; drawn = f.drawn.bytes.items; unsent = f.unsent.items; known = f.known; faults = (gathered_trace f.drawn).faults; flushes = (gathered_trace f.drawn).flushes } };
}

/// Drops the first bytes, `count` of them.
pub(crate) fn drop_front(bytes: &mut Vec<u8>, count: usize)
    requires { count ≤ length bytes.old.items }
    ensures { bytes.new.items ≡ drop count bytes.old.items }
{
    bytes.rotate_left(count);
    bytes.truncate(bytes.len() - count);
}

/// What makes any terminal blank, with the plain pen.
#[tactic(auto, using(std::proofs::lemmas::Fmt::decimal_digit))]
pub(crate) fn clearing(alloc: Global) -> Result<String, AllocError>
    ensures { IfOk result (λ s. string_bytes s ≡ sgr_bytes (0 ∷ []) ++ clear_bytes All) }
{
    let mut bytes = String::from_str(alloc, "\x1b[0m")?;
    push_clear(&mut bytes, ClearType::All)?;
    Ok(bytes)
}

impl Frame {
    /// An empty frame of `width` columns and `height` rows. Its first present clears the terminal, which has to have this size and
    /// to be outside a sequence.
    ///
    /// # Errors
    ///
    /// Out of memory.
    pub fn new(alloc: Global, width: u16, height: u16) -> Result<Self, AllocError>
        ensures { IfOk result (λ frame. frame ≡ new_frame width height) }
    {
        Ok(Frame {
            base: Screen::new(alloc, width, height)?,
            spare: Screen::new(alloc, 0, 0)?,
            drawn: Gathered::new(alloc),
            unsent: Vec::new(alloc),
            known: false,
        })
    }

    /// The screen that was presented last, with its cursor and its pen: empty before the first present.
    pub fn screen(&self) -> &Screen
        ensures { result.now ≡ self.now.base }
    {
        &self.base
    }

    /// Drops what was drawn since the last present.
    pub fn discard(&mut self)
        ensures { self.new ≡ record self.old { drawn = [] } }
    {
        self.drawn.bytes.clear();
    }

    /// Makes it an empty frame of another size, before its first present. What was drawn is dropped, and so is what the device
    /// hasn't taken.
    ///
    /// # Errors
    ///
    /// Out of memory; the frame is then as it was.
    pub fn resize(&mut self, alloc: Global, width: u16, height: u16) -> Result<(), AllocError>
        ensures ok { OnOk result (self.new ≡ record (new_frame width height) { faults = self.old.faults; flushes = self.old.flushes }) }
        ensures err { OnErr result (self.new ≡ self.old) }
    {
        self.base = Screen::new(alloc, width, height)?;
        self.drawn.bytes.clear();
        self.unsent.clear();
        self.known = false;
        Ok(())
    }

    // The screen that is to be presented, on the spare memory.
    fn drawn_screen(&mut self, alloc: Global) -> Result<Screen, NotPlain>
        ensures same { self.new ≡ self.old }
        ensures read { IfOk result (λ screen. drawn_screen self.old ≡ Some screen) }
        ensures undefined { IsErrOf result NotPlain.Undefined → drawn_screen self.old ≡ None }
    {
        let spare = mem::replace(&mut self.spare, Screen::new(alloc, 0, 0)?);
        self.base.after_bytes(spare, &self.drawn.bytes)
    }

    // The bytes to a screen from what the terminal shows, or from whatever it shows.
    fn changes_to(&self, alloc: Global, screen: &Screen) -> Result<String, AllocError>
        requires size { SameSize self.now.base screen.now }
        ensures leads { IfOk result (λ s. LeadsAll self.now screen.now (string_bytes s)) }
        ensures quiet { IfOk result (λ s. AddsNothing self.now screen.now (string_bytes s)) }
        ensures bound { IfOk result (λ s. IsBounded self.now screen.now (string_bytes s)) }
    {
        if self.known {
            return mended_changes(alloc, &self.base, screen);
        }
        let empty = Screen::new(alloc, self.base.width(), self.base.height())?;
        let drawn = mended_changes(alloc, &empty, screen)?;
        let mut bytes = clearing(alloc)?;
        bytes.push_str(drawn.as_str())?;
        Ok(bytes)
    }

    // What is to be sent to show a screen: what the device has yet to take, and the changes.
    fn bytes_to(&self, alloc: Global, screen: &Screen) -> Result<Vec<u8>, AllocError>
        requires size { SameSize self.now.base screen.now }
        ensures { IfOk result (λ bytes. IsMessage self.now screen.now bytes.items) }
    {
        let changes = self.changes_to(alloc, screen)?;
        let mut bytes = Vec::from_slice(alloc, &self.unsent)?;
        bytes.extend_from_slice(changes.as_bytes())?;
        Ok(bytes)
    }

    // Sends the bytes that lead to a screen. What isn't taken is kept.
    fn send<O: Out>(&mut self, out: &mut O, screen: Screen, bytes: Vec<u8>) -> io::Result<()>
        requires read { drawn_screen self.old ≡ Some screen }
        requires message { IsMessage self.old screen bytes.items }
        ensures { Sends self.old self.new (O.seen out.old) (O.seen out.new) result }
    {
        let mut bytes = bytes;
        let (taken, put) = put_counted(out, &bytes);
        drop_front(&mut bytes, taken);
        mem::swap(&mut self.spare, &mut self.base);
        self.base = screen;
        self.drawn.bytes.clear();
        self.unsent = bytes;
        self.known = true;
        put?;
        out.flush()
    }

    // A present, without what follows for the terminal.
    fn presented<O: Out>(&mut self, alloc: Global, out: &mut O) -> Result<(), PresentError>
        ensures { Presents self.old self.new (O.seen out.old) (O.seen out.new) result }
    {
        let screen = self.drawn_screen(alloc)?;
        let bytes = self.bytes_to(alloc, &screen)?;
        self.send(out, screen, bytes)?;
        Ok(())
    }

    /// Shows what was drawn: sends what differs from the screen that was presented last, and flushes. What the device hadn't
    /// taken before comes first, in the same put. The first present of a frame clears the terminal and sends all. Where
    /// nothing is to be sent, there is no put, but a flush.
    ///
    /// The changes are 181 bytes at most for each changed character, beside its own; where the terminal is cleared, 8 more.
    ///
    /// A half of a wide character is shown as a space in its pen, as terminals do.
    ///
    /// # Errors
    ///
    /// - `IO` for a fault of the device. The frame is presented then, and the next present sends the rest first.
    /// - `Undefined` where the plain terminal can't read what was drawn, and `Memory` for out of memory. Nothing is sent, and
    ///   the frame is as it was.
    pub fn present<O: Out>(&mut self, alloc: Global, out: &mut O) -> Result<(), PresentError>
        ensures in_step { TookWith (O.seen out.old) (O.seen out.new) (KeepsInStep self.old self.new) }
        ensures presents { Presents self.old self.new (O.seen out.old) (O.seen out.new) result }
    {
        self.presented(alloc, out)
    }

    /// Presents the frame on a terminal that may show anything: clears it and sends all.
    ///
    /// # Errors
    ///
    /// Those of [`Frame::present`]. After `Undefined` or `Memory` the next present does what this one should have.
    pub fn redraw<O: Out>(&mut self, alloc: Global, out: &mut O) -> Result<(), PresentError>
        ensures in_step { TookWith (O.seen out.old) (O.seen out.new) (KeepsInStep self.old self.new) }
        ensures presents { Presents (unknown self.old) self.new (O.seen out.old) (O.seen out.new) result }
    {
        self.known = false;
        self.presented(alloc, out)
    }
}

impl Out for Frame {
    ghost seen = { frame_trace };

    fn put(&mut self, bytes: &[u8]) -> io::Result<usize>
        ensures { Puts (frame_trace self.old) bytes.now result (frame_trace self.new) }
    {
        self.drawn.put(bytes)
    }

    fn flush(&mut self) -> io::Result<()>
        ensures { Flushes (frame_trace self.old) result (frame_trace self.new) }
    {
        self.drawn.flush()
    }
}
