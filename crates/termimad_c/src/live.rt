//! A text that grows on a terminal as C holds it: behind a pointer, as [`held`](crate::held) has one that comes in pieces.

ghost use Rattle.std.specs.Prelude.{◌≡◌, Option, None, Some};
ghost use Rattle.termimad_c.specs.HeldGrowths.{IsHeld, holds_growing};
ghost use Rattle.termimad_c.specs.declared.growing.Growing.{Growing};

use crate::growing::Growing;
use crate::loose::Loose;
use std::alloc::Global;
use std::marker::Model;
use std::mem::replace;
use std::ptr::null_mut;

/// A text that grows on a terminal as C holds it: a pointer. A text is behind it from its beginning to its end.
#[repr(C)]
#[derive(Drop)]
pub struct Live {
    at: *mut u8,
    /// The text behind the pointer, if there is one.
    pub ghost growing: { Option Growing },
}

impl Model for Live {
    ghost also_owns = { λ s. holds_growing s.at s.growing };
}

impl Live {
    // No text.
    fn none() -> Live
        ensures { result.growing ≡ None }
    {
        Live { at: null_mut() }
    }

    // A text that was in a box.
    fn of_loose(loose: Loose<Growing, Global>) -> Live
        ensures { result.growing ≡ Some loose.value }
    {
        let Loose { at, alloc } = loose;
        Live { at: at as *mut u8 }
    }

    // The text, to be boxed.
    fn into_loose(self, alloc: Global) -> Loose<Growing, Global>
        requires { IsHeld self.growing }
        ensures { self.growing ≡ Some result.value }
    {
        let Live { at } = self;
        Loose {
            at: at as *mut Growing,
            alloc,
        }
    }

    /// Puts a text behind the pointer. What was there is forgotten.
    pub(crate) fn put_in(&mut self, growing: Box<Growing>)
        ensures { self.new.growing ≡ Some growing.value }
    {
        *self = Live::of_loose(Loose::of(growing));
    }

    /// Takes the text from behind the pointer.
    pub(crate) fn take_out(&mut self, alloc: Global) -> Box<Growing>
        requires { IsHeld self.old.growing }
        ensures taken { self.old.growing ≡ Some result.value }
        ensures none { self.new.growing ≡ None }
    {
        let held = self.emptied();
        held.into_loose(alloc).into_box()
    }

    // What it was; then it has none.
    fn emptied(&mut self) -> Live
        ensures taken { result ≡ self.old }
        ensures none { self.new.growing ≡ None }
    {
        replace(self, Live::none())
    }
}
