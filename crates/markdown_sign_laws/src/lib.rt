//! What signs Markdown's blocks have, what its lines are and where blocks end, in words about bytes. Each law is a function that does nothing and states it.
#![tactic(auto)]

pub mod laws;
