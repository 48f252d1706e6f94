//! The skins of pages as JSON values: the object `page` beside the keys of the smaller grammar's skin.
//!
//! In the order of the work:
//!
//! 1. [`named`]: parts of a skin, each with its key;
//! 2. [`parts`]: the parts of a page's skin under their keys, and a skin with such parts;
//! 3. [`lookups`]: what members of an object say;
//! 4. [`reading`]: the skin that an object says; [`writing`]: the object that says a skin.
#![tactic(auto)]

pub mod lookups;
pub mod named;
pub mod parts;
pub mod reading;
pub mod writing;

pub use reading::{page_from_value, page_skin_from_value};
pub use writing::{page_skin_to_value, page_to_value};
