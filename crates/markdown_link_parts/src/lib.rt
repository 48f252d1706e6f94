//! What stands in parentheses behind a link, and what a definition says: destinations and titles, and the names of files.
//!
//! 1. [`parts`]: destinations and titles, as they are written.
//! 2. [`texts`]: their texts, without escapes and entities, and the name of the file to which a destination leads.
#![tactic(auto)]

pub mod parts;
pub mod texts;
