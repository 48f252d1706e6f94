//! The bytes by which pasted text and strings begin and end.

ghost use Rattle.std.specs.Prelude.{◌≡◌, ℕ, ◌≤◌, List, [], take};
ghost use Rattle.mad_input.specs.Marks.{begins_paste, begins_string, ends_paste, one_more, says_ready};

use std::marker::Model;

pub(crate) const ESC: u8 = 27;

// What comes before the last byte of each mark.
const PASTE_BEGINS: &[u8] = b"\x1b[200";

const PASTE_ENDS: &[u8] = b"\x1b[201";

const SAYS_READY: &[u8] = b"\x1b[0";

const STRING_BEGINS: &[u8] = b"\x1b";

// The longest mark has one byte more.
const ROOM: usize = 5;

/// The bytes since the last ESC, with that. Before the first ESC there are none, and none once they are too many to be a mark.
#[derive(Drop)]
pub struct Since {
    kept: [u8; ROOM],
    count: usize,
}

impl Model for Since {
    ghost Value = { List ℕ };

    ghost view = { λ s. take s.count s.kept };

    ghost invariant = { λ s. s.count ≤ 5 };
}

impl Since {
    /// None.
    pub(crate) fn new() -> Since
        ensures { result ≡ [] }
    {
        Since {
            kept: [0; ROOM],
            count: 0,
        }
    }

    // These bytes.
    pub(crate) fn bytes(&self) -> &[u8]
        ensures { result.now ≡ self.now }
    {
        &self.kept[..self.count]
    }

    // One more byte.
    pub(crate) fn add(&mut self, b: u8)
        ensures { self.new ≡ one_more self.old b }
    {
        if b == ESC {
            self.kept[0] = ESC;
            self.count = 1;
        } else if self.count == 0 || self.count == ROOM {
            self.count = 0;
        } else {
            self.kept[self.count] = b;
            self.count += 1;
        }
    }
}

/// Whether pasted text begins with a byte after these since the last ESC: `ESC [ 200 ~`.
pub(crate) fn begins_paste(before: &[u8], b: u8) -> bool
    ensures { result ≡ begins_paste before.now b }
{
    before == PASTE_BEGINS && b == b'~'
}

/// Whether it ends with such a byte: `ESC [ 201 ~`.
pub(crate) fn ends_paste(before: &[u8], b: u8) -> bool
    ensures { result ≡ ends_paste before.now b }
{
    before == PASTE_ENDS && b == b'~'
}

/// Whether the terminal answers by such a byte that it is ready: `ESC [ 0 n`.
pub(crate) fn says_ready(before: &[u8], b: u8) -> bool
    ensures { result ≡ says_ready before.now b }
{
    before == SAYS_READY && b == b'n'
}

/// Whether a string begins with such a byte: `ESC ]`.
pub(crate) fn begins_string(before: &[u8], b: u8) -> bool
    ensures { result ≡ begins_string before.now b }
{
    before == STRING_BEGINS && b == b']'
}
