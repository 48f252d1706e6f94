//! Laws of how Markdown is read, in CommonMark's words. Each is a function that does nothing and states its law.
#![tactic(auto)]

pub mod laws;
