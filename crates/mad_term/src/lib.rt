//! What goes out to a terminal: devices, errors, and the bytes of commands and of texts in a style.
//!
//! In the order of the work:
//!
//! 1. [`errors`]: what a call refuses by.
//! 2. [`devices`]: what takes bytes ([`Out`]) and what gives them ([`Source`]), [`put_all`] and [`put_counted`].
//! 3. [`streams`]: the readers and writers of the standard library as devices.
//! 4. [`color`], [`attribute`], [`attributes`]: how a text may look.
//! 5. [`commands`], [`styles`], [`repeats`]: the bytes of moves, erasures and texts in a style, by Display and in a row buffer.
//! 6. [`queue`]: the same, to a device.
//! 7. [`keys`], [`mouse`], [`events`]: what a terminal tells a program.
#![tactic(auto)]

mod attribute;
mod attributes;
mod color;
mod commands;
mod devices;
mod errors;
mod events;
mod keys;
mod mouse;
mod queue;
mod repeats;
mod streams;
mod styles;

pub use attribute::Attribute;
pub use attributes::Attributes;
pub use color::Color;
pub use commands::{Clear, ClearType, MoveTo, push_clear, push_move};
pub use devices::{Out, Source, put_all, put_counted};
pub use errors::{Error, InsufficientWidthError};
pub use events::{Event, TimedEvent};
pub use keys::{KeyCode, KeyCombination, KeyEvent, KeyModifiers};
pub use mad_characters::char_columns;
pub use mouse::{MouseButton, MouseEvent, MouseEventKind};
pub use queue::{
    put_displayed, put_text, queue_bg, queue_clear, queue_fg, queue_move, queue_repeated,
    queue_styled,
};
pub use repeats::StyledRepeat;
pub use streams::Stream;
pub use styles::{
    ContentStyle, StyleOpening, StyledContent, StyledNumber, closing_text, push_background,
    push_foreground, push_styled,
};
