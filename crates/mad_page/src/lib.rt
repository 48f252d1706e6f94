//! A text's rows on a screen: which of them is on top, and what keys and the mouse do.
//!
//! 1. [`page`]: the screen, the text's rows and the one on top.
//! 2. [`commands`]: which key says what.
//! 3. [`keys`]: what keys and the mouse do.
//! 4. [`laws`]: what the per cent of a page says.
#![tactic(auto)]

mod commands;
mod keys;
pub mod laws;
mod page;

pub use commands::{Ask, Command, Motion, command_of, file_ask, is_break};
pub use page::{Files, Page};
