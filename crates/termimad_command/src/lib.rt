//! What the command `termimad` does, over any devices.
//!
//! 1. [`refusals`]: why a call isn't done, or not all of it, and what is said of that.
//! 2. [`words`]: the words of a call; [`asking`]: what they ask for.
//! 3. [`skins`]: the skin of a call; [`notices`]: what is said before its texts are shown.
//! 4. [`reading`]: the bytes of a text; [`writing`]: what is written of it.
//! 5. [`showing`]: the texts of a call, one after the other.
//! 6. [`running`]: a call.
#![tactic(auto)]

mod asking;
mod notices;
mod reading;
mod refusals;
mod running;
mod showing;
mod skins;
mod words;
mod writing;

pub use refusals::{Obstacle, Refusal, refuse};
pub use running::run;
