//! What the program `termimad-view` does, over any devices. The program itself only connects the standard streams to [`run_or_answer`].
//!
//! In the order of the work:
//!
//! 1. [`skin`], [`call`]: what the arguments ask for; [`notice`]: what is said of their skin.
//! 2. [`input`]: reading a source to its end.
//! 3. [`writing`]: what a call writes of its text; [`stream_failure`]: how a run fails whose text comes.
//! 4. [`program`]: a run; [`answering`]: help and the version.
#![tactic(auto)]

mod answering;
mod call;
mod input;
mod notice;
mod program;
mod skin;
mod stream_failure;
mod writing;

pub use answering::run_or_answer;
pub use call::Command;
pub use input::read_all;
pub use program::run;
pub use writing::write_call;
