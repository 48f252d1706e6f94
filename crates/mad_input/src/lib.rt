//! What a terminal sends, told apart: what is typed there, what is pasted, and what it answers.
//!
//! [`Keys`](mad_keys::Keys) tells the events of bytes. This crate says which of them count. A pasted text has no keys. A size counts where it was
//! asked for, once for each question. A string that begins with `ESC ]`, as a late answer about a color, is dropped.
//!
//! 1. [`marks`]: the bytes by which pasted text and strings begin and end.
//! 2. [`input`]: what is heard of each byte.
//! 3. [`laws`]: what callers rely on.
#![tactic(auto)]

mod input;
pub mod laws;
mod marks;

pub use input::{Heard, Mode, TerminalInput};
