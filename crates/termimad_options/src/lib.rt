//! The options of the command `termimad`, and what a call does.
//!
//! 1. [`rules`]: which options there are.
//! 2. [`calls`]: what the words of a call ask for.
//! 3. [`places`]: where a text is shown first, which words say too.
//! 4. [`names`]: how a text is read by its file's name.
//! 5. [`plans`]: what a call does where it is made.
//! 6. [`telling`]: what is known of where it is made; [`plan_lines`]: the plan as a line that a shell reads.
//! 7. [`laws`]: what callers rely on.
#![tactic(auto)]

mod calls;
pub mod laws;
mod names;
mod places;
mod plan_lines;
mod plans;
mod rules;
mod telling;

pub use calls::{Call, Grammar, Links, call_of, columns_written};
pub use names::{grammar_of_file, is_understood};
pub use places::{Parted, has_controls, part_places};
pub use plan_lines::plan_line;
pub use plans::{Plan, Screen, Shade, Surroundings, Way, plan_of};
pub use rules::options;
pub use telling::{Told, surroundings_of};
