//! Where links lead: the texts of destinations and titles, without their escapes and entities.
//!
//! [`destinations`]: of links and of definitions.
#![tactic(auto)]

pub mod destinations;
