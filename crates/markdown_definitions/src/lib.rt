//! The definitions of links in a text of Markdown: their labels, and where each leads.
#![tactic(auto)]

pub mod definitions;
