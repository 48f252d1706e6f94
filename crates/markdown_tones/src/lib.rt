//! The tones of a block of code, by its lines.
//!
//! In the order of the work:
//!
//! 1. `code`: the tones of lines of code. `fences`: the marks of code behind a fence, by the language that it names.
#![tactic(auto)]

mod code;
mod fences;

pub use code::push_code_tones;
pub use fences::fence_marks;
