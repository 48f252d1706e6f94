//! Addresses among the inlines of a text, as functions of the rest of it:
//!
//! 1. [`addresses`]: addresses in angle brackets.
//! 2. [`bare`]: addresses without brackets.
#![tactic(auto)]

pub mod addresses;
pub mod bare;
