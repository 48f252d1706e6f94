//! Texts in a skin: laid out in lines of limited width, displayed, written and drawn.
//!
//! In the order of the work:
//!
//! 1. [`skin`]: the styles of a text's parts. `made_skins`, `skin_setters`: skins for a background, and changes of
//!    several parts.
//! 2. [`fmt_text`], [`fmt_inline`]: reading a text and laying it out; reading one line.
//! 3. [`drawing`]: the rows of a text in an area of the screen.
//! 4. `writing`, `filled_writing`, `text_writing`, `parts_writing`: the writing calls of a skin; [`displayable_line`]: a line as a displayed value.
//! 5. [`laws`]: texts that keep the premises, and an example whose premises are proved.
//!
//! Composites, lines, tables and blocks of code, and how they are laid out, are in `mad_format` and `mad_blocks`; what is written of a line
//! is in `mad_rows`. This crate hands their names on.
#![tactic(auto)]

pub mod displayable_line;
pub mod drawing;
mod filled_writing;
pub mod fmt_inline;
pub mod fmt_text;
pub mod laws;
mod made_skins;
mod parts_writing;
pub mod skin;
mod skin_setters;
mod text_writing;
mod writing;

pub use displayable_line::DisplayableLine;
pub use drawing::{draw_text, draw_text_beside, draw_text_in};
pub use fmt_inline::{FmtInline, inline};
pub use fmt_text::{FmtText, term_text, text};
pub use mad_blocks::{
    CodeBlock, Table, code_blocks, find_blocks, fix_all_tables, justify_blocks, lay_row,
    table_layout, table_rows,
};
pub use mad_format::{
    FmtComposite, FmtLine, FmtTableRow, FmtTableRule, LineSkin, RelativePosition, WrapBound, bound,
    check_wrap_bound, composite, composite_kind_widths, hard_wrap_composite, hard_wrap_lines,
    indents, line, room, room_of, table, wrap, wrap_bound,
};
pub use mad_rows::RowSkin;
pub use parts_writing::{append_parts, write_rest_on};
pub use skin::MadSkin;
pub use text_writing::print_text;
pub use writing::print_inline;
