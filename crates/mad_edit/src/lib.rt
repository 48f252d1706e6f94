//! A text editor without a screen: one text, a cursor, and the other end of a selection.
//!
//! In the order of the work:
//!
//! 1. [`content`]: the editor, and what it holds.
//! 2. [`moves`], [`words`]: moves of the cursor, by characters, lines and words. [`selections`]: what is selected.
//! 3. [`edits`]: what is put in and removed.
//! 4. [`laws`]: a worked selection, and worked cuts.
#![tactic(auto)]

mod content;
mod edits;
pub mod laws;
mod moves;
mod selections;
mod words;

pub use content::InputFieldContent;
pub use mad_edit_lines::{Chars, Line, Pos, Range};
