//! Text that isn't Markdown: what a program wrote for a terminal, as lines of characters in styles.
//!
//! [`commands`] says where a command ends, [`pens`] what it sets, [`places`] what overstrikes say, [`lines`] what a line shows.
#![tactic(auto)]

pub mod commands;
mod fronts;
pub mod laws;
pub mod lines;
pub mod pens;
pub mod places;
pub mod rows;
pub mod runs;
pub mod shown;
pub mod styled;
pub mod styles;
pub mod texts;

pub use lines::plain_line;
pub use pens::{Pen, plain_pen};
pub use rows::{cut_row, row_ends, take_part};
pub use runs::StyleRun;
pub use shown::PlainLine;
pub use styled::StyledChars;
pub use styles::content_style;
pub use texts::{lossy_text, text_lines};
