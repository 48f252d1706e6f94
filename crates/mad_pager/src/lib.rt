//! A pager's session: a text on a screen, what is sought in it, what an event does, and what the screen shows.
//!
//! In the order of the work:
//!
//! 1. [`session`]: the session, and what an event does.
//! 2. [`sizes`]: the size of the screen, and the text laid out for it.
//! 3. [`typing`], [`finding`]: what is sought, and the rows that have it.
//! 4. [`places`]: where all is on the screen; [`status`]: its last row.
//! 5. [`picture`]: bytes that are drawn in memory; [`own_rows`]: what comes over the text; [`drawing`]: the whole screen.
//! 6. [`help`]: the page of help; [`following`]: links that have numbers; [`pager`]: a text, and a page over it while one is open.
//! 7. [`laws`]: what marking hits changes, and what Up brings.
#![tactic(auto)]

mod drawing;
mod finding;
mod following;
mod help;
pub mod laws;
mod over;
mod own_rows;
mod pager;
mod picture;
mod places;
mod session;
mod sizes;
mod status;
mod typing;

pub use mad_outline::Source;
pub use mad_page::Files;
pub use pager::Pager;
pub use session::{End, Overlay, Session, Turn};
pub use sizes::ScreenSize;
