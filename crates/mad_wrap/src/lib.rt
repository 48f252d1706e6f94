//! Breaking a text that is too wide into the fewest lines.
//!
//! In the order of the work:
//!
//! 1. [`room`]: the columns that lines have for their text.
//! 2. [`wrapped_line`]: a line as it is made.
//! 3. [`measuring`]: whether a text fits on the first line.
//! 4. `clean_cut`, `first_fit`: the two ways of breaking a text; `placing`: the lines of the second; `placing_words`: its lines with
//!    words whole.
//! 5. [`wrapping`]: the lines, the fewest that fit; and the fewest in which words are whole.
//! 6. [`starting`]: starts of lines that show that no fitting break has fewer.
//! 7. [`checking`]: whether starts show that, without memory.
//! 8. [`spans`]: tokens in a row that first fit puts alike. `wide_tokens`: tokens, quick where most characters are wide.
//! 9. [`laws`], [`examples`]: what follows from the definitions alone, and wrong answers that they refuse.
#![tactic(auto)]

pub mod checking;
mod clean_cut;
pub mod examples;
pub mod first_fit;
pub mod laws;
pub mod measuring;
mod placing;
mod placing_words;
pub mod room;
pub mod spans;
pub mod starting;
mod wide_tokens;
pub mod wrapped_line;
pub mod wrapping;

pub use checking::check_starts;
pub use first_fit::{FirstFit, Put};
pub use measuring::fit_columns;
pub use room::Room;
pub use spans::{Span, next_span};
pub use starting::wrap_starts;
pub use wrapped_line::WrappedLine;
pub use wrapping::{is_cut_clean, wrap_compounds};
