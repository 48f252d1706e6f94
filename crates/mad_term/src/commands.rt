//! The commands that move the cursor and erase: CUP, ED and EL of ECMA-48, in the forms that this
//! project's profile has of them.

ghost use Rattle.std.specs.Prelude.{◌≡◌, ◌++◌, Some, OnOk, string_bytes};
ghost use Rattle.mad_term.specs.Commands.{move_to_bytes, clear_bytes};

use std::alloc::AllocError;
use std::fmt;

/// Moves the cursor to a column and a row, both counted from 0.
#[derive(Clone, Copy, Debug, PartialEq, Eq)]
pub struct MoveTo(pub u16, pub u16);

impl fmt::Display for MoveTo {
    ghost output = { λ m. Some (move_to_bytes m.0 m.1) };

    fn fmt<W: fmt::Write>(&self, f: &mut fmt::Formatter<W>) -> fmt::Result {
        let row = u32::from(self.1) + 1;
        let column = u32::from(self.0) + 1;
        write!(f, "\x1b[{row};{column}H")
    }
}

/// What is erased. The cursor stays where it is.
#[derive(Clone, Copy, Debug, PartialEq, Eq)]
pub enum ClearType {
    /// The whole screen.
    All,
    /// From the cursor to the end of the screen.
    FromCursorDown,
    /// From the start of the screen up to and with the cursor.
    FromCursorUp,
    /// The cursor's row.
    CurrentLine,
    /// From the cursor to the end of its row.
    UntilNewLine,
}

/// Erases a part of the screen.
#[derive(Clone, Copy, Debug, PartialEq, Eq)]
pub struct Clear(pub ClearType);

impl fmt::Display for Clear {
    ghost output = { λ c. Some (clear_bytes c.0) };

    fn fmt<W: fmt::Write>(&self, f: &mut fmt::Formatter<W>) -> fmt::Result {
        f.write_str(clear_text(self.0))
    }
}

/// Appends the command that moves the cursor to column `x` of row `y`, both counted from 0.
///
/// # Errors
///
/// Out of memory. What the row then ends with is open.
pub fn push_move(row: &mut String, x: u16, y: u16) -> Result<(), AllocError>
    ensures { OnOk result (string_bytes row.new ≡ string_bytes row.old ++ move_to_bytes x y) }
{
    let command = MoveTo(x, y);
    write!(row, "{command}")
}

/// Appends the command that erases.
///
/// # Errors
///
/// Out of memory. What the row then ends with is open.
pub fn push_clear(row: &mut String, what: ClearType) -> Result<(), AllocError>
    ensures { OnOk result (string_bytes row.new ≡ string_bytes row.old ++ clear_bytes what) }
{
    row.push_str(clear_text(what))
}

/// The text of the command that erases.
#[tactic(auto, using(std::proofs::lemmas::Fmt::decimal_digit))]
pub(crate) fn clear_text(what: ClearType) -> &'static str
    ensures { result.now ≡ clear_bytes what }
{
    match what {
        ClearType::All => "\x1b[2J",
        ClearType::FromCursorDown => "\x1b[J",
        ClearType::FromCursorUp => "\x1b[1J",
        ClearType::CurrentLine => "\x1b[2K",
        ClearType::UntilNewLine => "\x1b[K",
    }
}
