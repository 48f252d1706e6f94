//! What the programs share of their command lines: numbers and skins that words say, and how a run fails.
//!
//! 1. [`failure`]: how a run fails, and what it says then.
//! 2. [`number`]: the number that a word is; [`skin`]: the skin that one is; [`skin_fault`]: why one is none.
#![tactic(auto)]

mod failure;
mod number;
mod skin;
mod skin_fault;

pub use failure::{Failure, refuse};
pub use number::parse_number;
pub use skin::{page_skin_of_word, skin_of};
pub use skin_fault::page_skin_fault;
