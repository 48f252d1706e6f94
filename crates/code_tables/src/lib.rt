//! The tables of languages: rules by which code is cut into tokens, modes, and words with their classes.
//!
//! In the order of the work:
//!
//! 1. [`rules`]: what tables are made of.
//! 2. [`kinds`]: which bytes are blank.
//! 3. [`tables`]: the tables. A mode has its rules by the byte that stands first.
#![tactic(auto)]

pub mod kinds;
pub mod rules;
pub mod tables;
