//! What the pager does, over any devices: keys are read, and after each block of them the screen is drawn anew.
//!
//! 1. [`blocks`]: what a block of keys does.
//! 2. [`program`]: a run; [`showing`]: the pager on its device; [`leaving`]: how it ends.
//! 3. [`coming`]: a text that comes; [`wishes`]: what a block wants of it; [`stretches`], [`growing`]: a run over it.
//! 4. [`plain`]: a skin without a style.
#![tactic(auto)]

mod blocks;
mod coming;
mod growing;
mod leaving;
mod plain;
mod program;
mod showing;
mod stretches;
mod wishes;

pub use coming::Coming;
pub use growing::{Frame, run_growing};
pub use leaving::Leaving;
pub use mad_pager::{End, Files};
pub use plain::plain_skin;
pub use program::{Grammar, Sheet, run};
