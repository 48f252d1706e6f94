//! The text of html: what is shown of it, without its tags. In the order of the work:
//!
//! 1. [`markup`]: tags, comments and the like, and what each does to the text.
//! 2. [`leaves`]: a block as leaves, of which some are headings.
//! 3. [`pieces`]: the pieces of a leaf, as those of a line.
#![tactic(auto)]

pub mod leaves;
pub mod markup;
pub mod pieces;
