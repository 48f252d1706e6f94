//! Markdown as people write it that comes in pieces, on a terminal that scrolls: what grows is redrawn in place, and what is complete scrolls off.
//!
//! In the order of the work:
//!
//! 1. [`shown_lines`]: what is shown of a line that has begun.
//! 2. [`page_rows`]: the rows of what was read.
//! 3. [`live_markdown`]: a text in pieces on a terminal that scrolls.
//! 4. [`pieces`]: a text that is given in pieces; [`sources`]: one that a source gives.
//! 5. [`laws`]: what one may rely on of it.
#![tactic(auto)]

pub mod laws;
mod live_markdown;
mod page_rows;
mod pieces;
mod shown_lines;
mod sources;

pub use live_markdown::LiveMarkdown;
pub use pieces::show_markdown_pieces_on;
pub use shown_lines::shown_line;
pub use sources::show_markdown_source_on;
