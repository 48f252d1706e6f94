//! The marks of the characters that belong to links, in lines of runs.
#![tactic(auto)]

pub mod link_marks;
