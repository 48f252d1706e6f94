//! What a call of a row of the whole library is asked in, and why it has no answer.
//!
//! A call is `NAME NUMBERS SKIN`. An area's numbers are its left, top, width and height. The skin is the rest of the line: `default`,
//! `dark`, `light`, `ascii` or JSON text, or no style where there is no rest. JSON text changes the default skin.
//!
//! 1. [`asked`]: what a call asks for.
//! 2. [`refusal`]: why a call has no answer.
//! 3. [`skins`]: skins as words.
#![tactic(auto)]

pub mod asked;
pub mod refusal;
pub mod skins;

pub use asked::{Asked, area_from, numbers_of};
pub use refusal::Refusal;
pub use skins::{read, skin_of};
