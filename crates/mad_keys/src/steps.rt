//! What a byte does to the beginning of an event's bytes.

ghost use Rattle.std.specs.Prelude.{◌≡◌};
ghost use Rattle.mad_keys.specs.Steps.{char_length, goes_on, char_step, among_step, console_step, old_mouse_step, bracket_step, escape_step, step_of};

/// The byte by which sequences begin.
pub(crate) const ESC: u8 = 27;

/// What a byte does to a front.
#[derive(Clone, Copy)]
pub enum Step {
    /// The front is longer now.
    Waits,
    /// It is whole with this byte.
    Ends,
    /// The byte doesn't belong to it.
    Breaks,
}

// How many bytes a character has that begins so.
fn char_length(first: u8) -> usize
    ensures { result ≡ char_length first }
{
    match first {
        0..=223 => 2,
        224..=239 => 3,
        _ => 4,
    }
}

// Whether a byte goes on with a character, after its first byte and these.
fn goes_on(first: u8, after: &[u8], b: u8) -> bool
    ensures { result ≡ goes_on first after.now b }
{
    if !after.is_empty() {
        return (128..=191).contains(&b);
    }
    match first {
        224 => (160..=191).contains(&b),
        237 => (128..=159).contains(&b),
        240 => (144..=191).contains(&b),
        244 => (128..=143).contains(&b),
        _ => (128..=191).contains(&b),
    }
}

// A byte of a character.
fn char_step(front: &[u8], b: u8) -> Step
    ensures { result ≡ char_step front.now b }
{
    match front {
        [] if (194..=244).contains(&b) => Step::Waits,
        [] => Step::Ends,
        [first, after @ ..] if !goes_on(*first, after, b) => Step::Breaks,
        [first, ..] if front.len() + 1 == char_length(*first) => Step::Ends,
        _ => Step::Waits,
    }
}

// A byte among those of a sequence.
fn among_step(b: u8) -> Step
    ensures { result ≡ among_step b }
{
    match b {
        b' '..=b'?' => Step::Waits,
        b'@'..=b'~' => Step::Ends,
        _ => Step::Breaks,
    }
}

// A byte after the beginning of a key of the Linux console.
fn console_step(b: u8) -> Step
    ensures { result ≡ console_step b }
{
    match b {
        b'@'..=b'~' => Step::Ends,
        _ => Step::Breaks,
    }
}

// A byte after the beginning of the mouse's old form and these.
fn old_mouse_step(after: &[u8], b: u8) -> Step
    ensures { result ≡ old_mouse_step after.now b }
{
    if b < b' ' {
        Step::Breaks
    } else if after.len() < 2 {
        Step::Waits
    } else {
        Step::Ends
    }
}

// A byte after `ESC [` and these.
fn bracket_step(after: &[u8], b: u8) -> Step
    ensures { result ≡ bracket_step after.now b }
{
    match after {
        [] if b == b'M' || b == b'[' => Step::Waits,
        [b'[', ..] => console_step(b),
        [b'M', after @ ..] => old_mouse_step(after, b),
        _ => among_step(b),
    }
}

// A byte after ESC and these.
fn escape_step(after: &[u8], b: u8) -> Step
    ensures { result ≡ escape_step after.now b }
{
    match after {
        [] if b == ESC => Step::Breaks,
        [] if b == b'O' || b == b'[' => Step::Waits,
        [b'[', after @ ..] => bracket_step(after, b),
        [b'O', ..] => among_step(b),
        _ => char_step(after, b),
    }
}

/// What a byte does to a front.
pub fn step_of(front: &[u8], b: u8) -> Step
    ensures { result ≡ step_of front.now b }
{
    match front {
        [] if b == ESC => Step::Waits,
        [ESC, after @ ..] => escape_step(after, b),
        _ => char_step(front, b),
    }
}
