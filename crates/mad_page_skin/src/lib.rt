//! How Markdown as people write it looks: the skin of a page, and the ones that are made.
//!
//! In the order of the work:
//!
//! 1. [`part_styles`]: the styles of code's tones. [`text_room`]: the columns that a pager gives the text.
//! 2. [`page_skin`]: the skin of a page, and what rows show of it.
//! 3. [`inks`]: styles by the numbers of their colors.
//! 4. [`plain`], [`dark`], [`light`], [`sixteen`]: the skins that are made.
#![tactic(auto)]

pub mod dark;
mod inks;
pub mod light;
pub mod page_skin;
pub mod part_styles;
pub mod plain;
pub mod sixteen;
pub mod text_room;

pub use mad_rows::TitleStyles;
pub use page_skin::PageSkin;
pub use part_styles::CodeStyles;
pub use text_room::TextRoom;
