//! Links that a terminal can follow (OSC 8): what terminals make of them, the bytes that write them, and rows with links in areas.
//!
//! In the order of the work:
//!
//! 1. [`addresses`]: an address as it is written, if it isn't refused.
//! 2. [`commands`]: what opens and closes a link.
//! 3. [`rows`]: a row's pieces with their links.
//! 4. [`areas`]: drawing rows with links in an area of the screen.
//! 5. [`laws`]: what is shown is the same, also on a terminal that scrolls, and links are where they belong.
#![tactic(auto)]

mod addresses;
mod areas;
mod commands;
pub mod laws;
mod rows;

pub use addresses::LinkAddress;
pub use areas::{LinkedRows, PieceRows, draw_linked_rows};
pub use commands::{CloseLink, OpenLink, push_close, push_open};
pub use rows::{
    LinkPiece, know_addresses, push_change, push_end, push_linked, push_piece, written_link,
};
