//! Commands and pieces, written to a device. What is written is made whole first, and then put.

ghost use Rattle.std.specs.Prelude.{◌≡◌, IsErrOf};
ghost use Rattle.mad_term.specs.Commands.{move_to_bytes, clear_bytes};
ghost use Rattle.mad_term.specs.Draws.{Draws, DrawsDisplayed};
ghost use Rattle.mad_term.specs.declared.errors.Error.TheVariants.{Memory};
ghost use Rattle.mad_term.specs.Styles.{foreground_bytes, background_bytes, piece_bytes, styled_repeat_bytes, IsStyle};

use crate::color::Color;
use crate::commands::{ClearType, MoveTo, clear_text};
use crate::devices::{Out, put_all};
use crate::errors::Error;
use crate::repeats::StyledRepeat;
use crate::styles::{ColorCommand, ContentStyle, StyledContent};
use std::alloc::Global;
use std::fmt::Display;

/// Moves the cursor to column `x` of row `y`, both counted from 0.
///
/// # Errors
///
/// A fault of the device, or out of memory before anything went out.
pub fn queue_move<O: Out>(alloc: Global, out: &mut O, x: u16, y: u16) -> Result<(), Error>
    ensures writes { Draws (O.seen out.old) (move_to_bytes x y) result (O.seen out.new) }
    ensures early { IsErrOf result Memory → O.seen out.new ≡ O.seen out.old }
{
    put_displayed(alloc, out, 0, &MoveTo(x, y))
}

/// Erases a part of the screen.
///
/// # Errors
///
/// A fault of the device.
pub fn queue_clear<O: Out>(out: &mut O, what: ClearType) -> Result<(), Error>
    ensures writes { Draws (O.seen out.old) (clear_bytes what) result (O.seen out.new) }
    ensures without_memory { IsErrOf result Memory → ⊥ }
{
    put_text(out, clear_text(what))
}

/// Sets the foreground.
///
/// # Errors
///
/// A fault of the device, or out of memory before anything went out.
pub fn queue_fg<O: Out>(alloc: Global, out: &mut O, color: Color) -> Result<(), Error>
    ensures writes { Draws (O.seen out.old) (foreground_bytes color) result (O.seen out.new) }
    ensures early { IsErrOf result Memory → O.seen out.new ≡ O.seen out.old }
{
    put_displayed(alloc, out, 0, &ColorCommand::foreground(color))
}

/// Sets the background.
///
/// # Errors
///
/// A fault of the device, or out of memory before anything went out.
pub fn queue_bg<O: Out>(alloc: Global, out: &mut O, color: Color) -> Result<(), Error>
    ensures writes { Draws (O.seen out.old) (background_bytes color) result (O.seen out.new) }
    ensures early { IsErrOf result Memory → O.seen out.new ≡ O.seen out.old }
{
    put_displayed(alloc, out, 0, &ColorCommand::background(color))
}

/// Writes a piece: a text in a style.
///
/// # Errors
///
/// A fault of the device, or out of memory before anything went out.
pub fn queue_styled<O: Out>(
    alloc: Global,
    out: &mut O,
    style: ContentStyle,
    text: &str,
) -> Result<(), Error>
    ensures writes { Draws (O.seen out.old) (piece_bytes style text.now) result (O.seen out.new) }
    ensures early { IsErrOf result Memory → O.seen out.new ≡ O.seen out.old }

    // The numbers of its colors are bytes: what reading the piece back needs to know.
    ensures bytes { IsStyle style }
{
    // A text without style goes out as it is.
    if style.is_unstyled() {
        return put_text(out, text);
    }
    let piece = StyledContent {
        style,
        content: text,
    };
    put_displayed(alloc, out, 0, &piece)
}

/// Writes a text `count` times in a style, as one piece; nothing at all if `count` is 0.
///
/// # Errors
///
/// A fault of the device, or out of memory before anything went out.
pub fn queue_repeated<O: Out>(
    alloc: Global,
    out: &mut O,
    style: ContentStyle,
    text: &str,
    count: usize,
) -> Result<(), Error>
    ensures writes { Draws (O.seen out.old) (styled_repeat_bytes style text.now count) result (O.seen out.new) }
    ensures early { IsErrOf result Memory → O.seen out.new ≡ O.seen out.old }
    ensures bytes { IsStyle style }
{
    let repeated = StyledRepeat {
        style,
        content: text,
        count,
    };
    // Where the text's bytes are more than a `usize` counts, the reserving of room for them is refused.
    let room = text.len().saturating_mul(count);
    put_displayed(alloc, out, room, &repeated)
}

/// Puts all of a text.
///
/// # Errors
///
/// A fault of the device; a front of the text was taken before it.
pub fn put_text<O: Out>(out: &mut O, text: &str) -> Result<(), Error>
    ensures writes { Draws (O.seen out.old) text.now result (O.seen out.new) }
    ensures without_memory { IsErrOf result Memory → ⊥ }
{
    put_all(out, text.as_bytes())?;
    Ok(())
}

/// Puts all that a value displays. It is made whole first, and then put.
///
/// `room` is how many bytes are reserved first, 0 where the caller knows none. A value that is mostly spaces then grows
/// once, and a count of spaces past all memory is refused at once.
///
/// # Errors
///
/// A fault of the device; a front of the bytes was taken before it. Or out of memory, before the first byte.
pub fn put_displayed<O: Out, D: Display>(
    alloc: Global,
    out: &mut O,
    room: usize,
    value: &D,
) -> Result<(), Error>
    ensures writes { DrawsDisplayed (O.seen out.old) (D.output value.now) result (O.seen out.new) }
    ensures early { IsErrOf result Memory → O.seen out.new ≡ O.seen out.old }
{
    let mut bytes = String::new(alloc);
    bytes.reserve(room)?;
    write!(bytes, "{value}")?;
    put_text(out, &bytes)
}
