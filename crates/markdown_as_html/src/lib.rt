//! Markdown as html: a definition of what CommonMark's specification prints for a text, over the blocks and inlines that the reader is
//! proved to read. There is no code here. Crates of examples have their html as theorems.
#![tactic(auto)]

pub mod laws;
