//! Rows that go up or down on a terminal that scrolls.

ghost use Rattle.std.specs.Prelude.{◌≡◌, [], ◌∷◌, ◌++◌, OnOk, string_bytes};
ghost use Rattle.mad_term.specs.Commands.{command_bytes};
ghost use Rattle.mad_frames.specs.Scrolling.{row_from, rows_bytes, scroll_bytes};

use std::alloc::AllocError;

/// How the first rows of a screen go. The rows below them stay.
#[derive(Clone, Copy)]
pub(crate) enum Scroll {
    /// Up by so many rows.
    Up(u16),
    /// Down by so many rows.
    Down(u16),
}

/// The row that comes to row `y` where the first ones go, so many of them; none where a blank one comes in.
pub(crate) fn row_from(scroll: Scroll, rows: u16, y: u16) -> Option<u16>
    ensures { result ≡ row_from scroll rows y }
{
    if y >= rows {
        return Some(y);
    }
    match scroll {
        Scroll::Up(count) => {
            if count < rows - y {
                Some(y + count)
            } else {
                None
            }
        }
        Scroll::Down(count) => { if y < count { None } else { Some(y - count) } }
    }
}

// Appends the command by which rows are deleted or inserted.
fn push_rows(out: &mut String, scroll: Scroll) -> Result<(), AllocError>
    ensures { OnOk result (string_bytes out.new ≡ string_bytes out.old ++ rows_bytes scroll) }
{
    match scroll {
        Scroll::Up(count) => write!(out, "\x1b[{count}M"),
        Scroll::Down(count) => write!(out, "\x1b[{count}L"),
    }
}

// Appends the command that sets the region to the first rows, so many of them.
fn push_region(out: &mut String, rows: u16) -> Result<(), AllocError>
    ensures { OnOk result (string_bytes out.new ≡ string_bytes out.old ++ command_bytes (1 ∷ rows ∷ []) 114) }
{
    let first: u16 = 1;
    write!(out, "\x1b[{first};{rows}r")
}

/// Appends the command by which the first rows go, so many of them.
pub(crate) fn push_scroll(out: &mut String, scroll: Scroll, rows: u16) -> Result<(), AllocError>
    ensures { OnOk result (string_bytes out.new ≡ string_bytes out.old ++ scroll_bytes scroll rows) }
{
    push_region(out, rows)?;
    push_rows(out, scroll)?;
    out.push_str("\x1b[r")
}
