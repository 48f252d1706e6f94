//! What is sent of what was put.

ghost use Rattle.std.specs.Prelude.{◌≡◌, ◌≤◌, ◌++◌, ℕ, List, None, Some, IfOk, MatchOption, drop, length, take};
ghost use Rattle.mad_screen.specs.Grid.{empty_grid, has_none};
ghost use Rattle.mad_screen.specs.Terminal.{after_bytes};
ghost use Rattle.mad_frames.specs.Mending.{mended};
ghost use Rattle.mad_frames.specs.Scrolling.{Bring, BringTo};
ghost use Rattle.mad_frames.specs.Sparing.{question_length, read_anew};

use crate::frame::clearing;
use crate::scrolled::shortest_changes;
use mad_screen::{NotPlain, Screen};
use std::alloc::{AllocError, Global};

// The question for the size of a screen: where the cursor is after a far move.
const QUESTION: &[u8] = b"\x1b[999;999H\x1b[6n";

/// What is sent, and the screen that it leads to. Where there is none, what the screen shows isn't known.
#[derive(Drop)]
pub(crate) struct Message {
    /// The bytes.
    pub bytes: Vec<u8>,
    /// The screen.
    pub screen: Option<Screen>,
}

/// Whether a text is empty.
pub(crate) fn has_none(text: &[u8]) -> bool
    ensures { result ≡ has_none text.now }
{
    match text {
        [] => true,
        [_, ..] => false,
    }
}

/// How long the question is at the front of a text; 0 where there is none.
pub(crate) fn question_length(text: &[u8]) -> usize
    ensures value { result ≡ question_length text.now }
    ensures within { result ≤ length text.now }
{
    if text.starts_with(QUESTION) {
        QUESTION.len()
    } else {
        0
    }
}

// The text as it is, and no screen.
fn passed(alloc: Global, text: &[u8]) -> Result<Message, AllocError>
    ensures bytes { IfOk result (λ m. m.bytes.items ≡ text.now) }
    ensures screen { IfOk result (λ m. m.screen ≡ None) }
{
    Ok(Message {
        bytes: Vec::from_slice(alloc, text)?,
        screen: None,
    })
}

/// What leads from a screen that the terminal shows to that after a text; the text as it is, where the plain terminal can't read it.
pub(crate) fn message_after(
    alloc: Global,
    screen: &Screen,
    spare: Screen,
    text: &[u8],
) -> Result<Message, AllocError>
    ensures screen { IfOk result (λ m. m.screen ≡ after_bytes screen.now text.now) }
    ensures bytes { IfOk result (λ m. MatchOption m.screen (m.bytes.items ≡ text.now) (λ next. BringTo (mended screen.now) (mended next) m.bytes.items)) }
{
    match screen.after_bytes(spare, text) {
        Ok(next) => Ok(Message {
            bytes: shortest_changes(alloc, screen, &next, text)?,
            screen: Some(next),
        }),
        Err(NotPlain::Undefined) => passed(alloc, text),
        Err(NotPlain::Memory) => Err(AllocError),
    }
}

// A front, what makes a terminal blank, and what leads from a blank screen to the next one.
fn bytes_anew(
    alloc: Global,
    blank: &Screen,
    next: &Screen,
    text: &[u8],
    front: &[u8],
) -> Result<Vec<u8>, AllocError>
    requires blank { blank.now ≡ empty_grid blank.now.width blank.now.height }
    requires read { after_bytes blank.now text.now ≡ Some next.now }
    ensures { IfOk result (λ bytes. (changes : List ℕ) × (bytes.items ≡ front.now ++ changes) × Bring (mended next.now) changes) }
{
    let changes = shortest_changes(alloc, blank, next, text)?;
    let clear = clearing(alloc)?;
    let mut bytes = Vec::from_slice(alloc, front)?;
    bytes.extend_from_slice(clear.as_bytes())?;
    bytes.extend_from_slice(&changes)?;
    Ok(bytes)
}

/// The front of a text as it is, so many bytes, and then what leads from whatever the terminal shows to the screen after the rest, read on a blank
/// one. The text as it is, where the plain terminal can't read the rest, or there is none.
pub(crate) fn message_anew(
    alloc: Global,
    columns: u16,
    rows: u16,
    spare: Screen,
    text: &[u8],
    front: usize,
) -> Result<Message, AllocError>
    requires { front ≤ length text.now }
    ensures screen { IfOk result (λ m. m.screen ≡ read_anew columns rows (drop front text.now)) }
    ensures bytes { IfOk result (λ m. MatchOption m.screen (m.bytes.items ≡ text.now)
        (λ next. (changes : List ℕ) × (m.bytes.items ≡ take front text.now ++ changes) × Bring (mended next) changes)) }
{
    let rest = &text[front..];
    if has_none(rest) {
        return passed(alloc, text);
    }
    let blank = Screen::new(alloc, columns, rows)?;
    match blank.after_bytes(spare, rest) {
        Ok(next) => {
            let bytes = bytes_anew(alloc, &blank, &next, rest, &text[..front])?;
            Ok(Message {
                bytes,
                screen: Some(next),
            })
        }
        Err(NotPlain::Undefined) => passed(alloc, text),
        Err(NotPlain::Memory) => Err(AllocError),
    }
}
