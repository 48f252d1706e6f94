//! Rows written with marks: tones and links.
//!
//! In the order of the work:
//!
//! 1. `cursors`: the marks of characters, one after the other.
//! 2. `paints`: the style of a mark. `links`: its link.
//! 3. `texts`: a text, cut where the mark changes, each part in the style that its mark makes of another.
//! 4. `compounds`: compounds with marks. `composites`: a composite in its row. `lines`: a row of a table, and any line.
//! 5. `displayed`: a composite in its row as a displayed value, without links.
//! 6. `seen`: what is drawn again of a composite, each character in the style that its row shows it in. `written`: these, put after a string.
//! 7. [`laws`]: marks change nothing but styles.
#![tactic(auto)]

mod composites;
mod compounds;
mod cursors;
mod displayed;
pub mod laws;
mod lines;
mod links;
mod paints;
mod seen;
mod texts;
mod written;

pub use cursors::MarkCursor;
pub use displayed::MarkedComposite;
pub use lines::{MarkedSkin, append_marked_line};
pub use links::mark_link;
pub use paints::{Paint, openings_of};
pub use seen::{SeenChar, reversed, seen_text};
pub use texts::append_marked_text;
pub use written::append_seen;
