//! First fit: where a token goes.

ghost use Rattle.std.specs.Prelude.{◌≡◌, ◌+◌, ◌⊎◌, false, true, Some, IfSome, IfNone};
ghost use Rattle.mad_wrap.specs.LineRoom.{left_of, left_after, fits_in, taken};

use crate::room::Room;
use mad_measure::Token;

/// Where first fit puts a token.
#[derive(Clone, Copy)]
pub enum Put {
    /// On the line, after its tokens.
    OnLine,
    /// On the next line, as its first token.
    OnNext,
    /// In the gap after the line, which is dropped.
    InGap,
}

/// First fit: a token goes on the line while it fits. A blank one that doesn't ends the line, and is dropped with the
/// blanks after it. Any other begins the next line, whether it fits there or not.
#[derive(Clone, Copy)]
pub struct FirstFit {
    pub(crate) room: Room,
    // The columns left on the line; none where its tokens don't fit.
    pub(crate) room_left: Option<usize>,
    // Whether a gap has begun after the line.
    pub(crate) ended: bool,
}

impl FirstFit {
    ghost use Rattle.mad_wrap.specs.FirstFit.{Puts, at_first};

    /// At the beginning of the first line.
    pub fn new(room: Room) -> Self
        ensures { result ≡ at_first room }
    {
        FirstFit {
            room,
            room_left: left_of(room.width, room.first),
            ended: false,
        }
    }

    /// Puts the next token.
    pub fn put(&mut self, token: Token) -> Put
        ensures { Puts self.old token.entry result self.new }
    {
        if let Some(after) = left_with(self.room_left, self.ended, token.width) {
            self.room_left = Some(after);
            return Put::OnLine;
        }
        if token.blank {
            self.ended = true;
            return Put::InGap;
        }
        self.room_left = left_of_next(self.room, token.width);
        self.ended = false;
        Put::OnNext
    }
}

// What is left of a line's columns with a token on it, if the line hasn't ended and the token fits.
fn left_with(room_left: Option<usize>, ended: bool, width: usize) -> Option<usize>
    ensures some { IfSome result (λ after. (ended ≡ false) × (fits_in room_left width ≡ true) × (taken room_left width ≡ Some after)) }
    ensures none { IfNone result ((ended ≡ true) ⊎ (fits_in room_left width ≡ false)) }
{
    if ended {
        None
    } else {
        room_left?.checked_sub(width)
    }
}

/// What is left of a later line that begins with a token, if the token fits on it.
pub(crate) fn left_of_next(room: Room, width: usize) -> Option<usize>
    ensures { result ≡ left_of room.width (room.other + width) }
{
    room.width.checked_sub(room.other)?.checked_sub(width)
}

/// What is left of a width after `used` columns, if they fit.
pub(crate) fn left_of(width: usize, used: usize) -> Option<usize>
    ensures { result ≡ left_of width used }
{
    width.checked_sub(used)
}

/// What is left after `width` more columns, if they fit in what was left.
pub(crate) fn left_after(room_left: Option<usize>, width: usize) -> Option<usize>
    ensures { result ≡ left_after room_left width }
{
    left_of(room_left?, width)
}
