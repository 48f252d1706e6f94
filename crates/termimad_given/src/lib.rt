//! What the system gives a program.
//!
//! 1. [`arguments`]: its arguments.
//! 2. [`texts`]: what it asks of texts that have names; [`folder`]: files.
#![tactic(auto)]

mod arguments;
mod folder;
mod texts;

pub use arguments::{NoWords, words_behind_name};
pub use folder::Folder;
pub use texts::Texts;
