//! Markdown as people write it that comes in pieces, laid out as it comes. The reader, the gatherer of leaves and the mapper go on from line to
//! line, so nothing is read by itself.
//!
//! In the order of the work:
//!
//! 1. [`open_leaf`]: the leaf that is open between two lines, which owns its lines.
//! 2. [`provisional`]: definitions that count in a leaf before they come.
//! 3. [`showing`]: what the parts so far are shown as, and what the next ones depend on.
//! 4. [`ahead`]: what a text tells if it goes on so.
//! 5. [`section_stream`]: a text in pieces, as sections.
//! 6. [`stream`]: a text in pieces, whose rows go out leaf by leaf.
//! 7. [`pieces`]: a text that is given in pieces; [`sources`]: one that a source gives.
//! 8. [`laws`]: what is shown of pieces is what is shown of the whole.
#![tactic(auto)]

mod ahead;
pub mod laws;
mod open_leaf;
mod pieces;
mod provisional;
mod section_stream;
pub mod showing;
mod sources;
mod stream;

pub use pieces::write_markdown_pieces_on;
pub use section_stream::SectionStream;
pub use showing::Showing;
pub use sources::write_markdown_source_on;
pub use stream::{MarkdownStream, coming, still_fresh};
