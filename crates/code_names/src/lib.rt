//! Languages by the names that they have behind fences.
#![tactic(auto)]

mod names;

pub use names::language_of;
