//! The library for C: each call takes bytes and numbers, and answers into a buffer of the caller's. `include/termimad.h` declares them.
//!
//! In the order of the work:
//!
//! 1. [`answer`]: what a call answers, and what it leaves in the buffer.
//! 2. [`inputs`]: what a caller hands: texts, skins, numbers.
//! 3. [`making`]: what each call makes of its inputs.
//! 4. [`outlines`]: links and headings, as lines, and where a link goes within the text.
//! 5. [`coming`]: a text that comes in pieces. [`loose`], [`held`]: such a text behind a pointer, which C keeps from call to call.
//! 6. [`growing`]: a text that grows on a terminal. [`live`]: such a text behind a pointer.
//! 7. [`exports`]: the calls as C sees them.
#![tactic(auto)]

mod answer;
mod coming;
mod exports;
mod growing;
mod held;
mod inputs;
mod live;
mod loose;
mod making;
mod outlines;

pub use answer::{Answer, Parts, Place, Progress, Refusal};
pub use coming::Coming;
pub use growing::Growing;
pub use held::Stream;
pub use live::Live;
