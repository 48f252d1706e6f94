//! Skins as JSON values.
//!
//! In the order of the work:
//!
//! 1. [`errors`]: why a value is no skin; [`fields`]: the names of a skin's parts;
//! 2. [`floats`]: values that hold a float, which no part of a skin does;
//! 3. [`texts`], [`lists`], [`scroll_bars`], [`modes`]: what the values of single parts say;
//! 4. [`reading`]: the skin that an object says; [`writing`]: the object that says a skin.
#![tactic(auto)]

pub mod errors;
mod fields;
mod floats;
mod lists;
mod modes;
mod reading;
mod scroll_bars;
pub mod texts;
mod writing;

pub use errors::SkinError;
pub use reading::skin_from_value;
pub use scroll_bars::ScrollBarStyleDef;
pub use writing::skin_to_value;
