//! The word behind a fence that names the language of a file.
#![tactic(auto)]

mod words;

pub use words::{language_word, names_language};
