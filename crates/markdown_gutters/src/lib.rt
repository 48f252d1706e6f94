//! What stands in front of the leaves of Markdown, asked of their text and of the open containers. In the order of the work:
//!
//! 1. [`signs`]: what a paragraph may begin with that isn't text, the box of a task or the line of an alert.
//! 2. [`lists`]: numbers of items, counted in their lists, and gutters of containers.
//! 3. [`forms`]: how a leaf stands behind these.
#![tactic(auto)]

pub mod forms;
pub mod lists;
pub mod signs;
