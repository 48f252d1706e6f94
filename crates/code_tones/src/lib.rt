//! The tones of a text of code: what each character of it that isn't blank is, by its language.
//!
//! In the order of the work:
//!
//! 1. `classes`: the tones of a class. `characters`: the characters of a text, and which are counted.
//! 2. `byte_tones`: a cursor over the tones of a text's bytes.
//! 3. [`tones`]: the tones of its counted characters, as runs.
#![tactic(auto)]

mod byte_tones;
mod characters;
mod classes;
pub mod tones;

pub use classes::{TONES, tone_of};
pub use tones::push_tones;
