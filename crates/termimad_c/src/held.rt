//! A text that comes in pieces as C holds it: behind a pointer.

ghost use Rattle.std.specs.Prelude.{◌≡◌, Option, None, Some};
ghost use Rattle.termimad_c.specs.HeldTexts.{IsBegun, holds};
ghost use Rattle.termimad_c.specs.declared.coming.Coming.{Coming};

use crate::coming::Coming;
use crate::loose::Loose;
use std::alloc::Global;
use std::marker::Model;
use std::mem::replace;
use std::ptr::null_mut;

/// A text that comes in pieces as C holds it: a pointer. A text is behind it from its beginning to its end.
#[repr(C)]
#[derive(Drop)]
pub struct Stream {
    at: *mut u8,
    /// The text behind the pointer, if there is one.
    pub ghost coming: { Option Coming },
}

impl Model for Stream {
    ghost also_owns = { λ s. holds s.at s.coming };
}

impl Stream {
    // No text.
    fn none() -> Stream
        ensures { result.coming ≡ None }
    {
        Stream { at: null_mut() }
    }

    // A text that was in a box.
    fn of_loose(loose: Loose<Coming, Global>) -> Stream
        ensures { result.coming ≡ Some loose.value }
    {
        let Loose { at, alloc } = loose;
        Stream { at: at as *mut u8 }
    }

    // The text, to be boxed.
    fn into_loose(self, alloc: Global) -> Loose<Coming, Global>
        requires { IsBegun self.coming }
        ensures { self.coming ≡ Some result.value }
    {
        let Stream { at } = self;
        Loose {
            at: at as *mut Coming,
            alloc,
        }
    }

    /// Puts a text behind the pointer. What was there is forgotten.
    pub(crate) fn put_in(&mut self, coming: Box<Coming>)
        ensures { self.new.coming ≡ Some coming.value }
    {
        *self = Stream::of_loose(Loose::of(coming));
    }

    /// Takes the text from behind the pointer.
    pub(crate) fn take_out(&mut self, alloc: Global) -> Box<Coming>
        requires { IsBegun self.old.coming }
        ensures taken { self.old.coming ≡ Some result.value }
        ensures none { self.new.coming ≡ None }
    {
        let held = self.emptied();
        held.into_loose(alloc).into_box()
    }

    // What it was; then it has none.
    fn emptied(&mut self) -> Stream
        ensures taken { result ≡ self.old }
        ensures none { self.new.coming ≡ None }
    {
        replace(self, Stream::none())
    }
}
