//! What happens in a leaf's text.

use markdown_inlines::inlines::LinkTarget;
use markdown_spans::attributes::Html;

/// What begins and ends in a leaf's text.
#[derive(Debug, Clone, Copy)]
pub enum InlineTag {
    Emphasis,
    Strong,
    Strikeout,
    /// A link, and where it leads.
    Link(LinkTarget),
    /// An image, and where its picture is. What it holds is its alternative text.
    Image(LinkTarget),
}

/// What happens in a leaf's text.
#[derive(Debug, Clone, Copy)]
pub enum Inline<'t> {
    /// This begins.
    Start(InlineTag),
    /// This ends, which began last of what is open.
    End(InlineTag),
    /// Words, an address, or a bracket that makes no link.
    Text(&'t str),
    /// What an escape or an entity stands for: one character, or two, as some names do.
    Character(char, Option<char>),
    /// So many marks of emphasis that match no others, and are text.
    Marks(char, usize),
    /// A code span, without its backquotes and the space at both ends that isn't its own. The end of a line in it stands for a space.
    Code(&'t str),
    /// Raw html, and what it shows.
    Html(Html, &'t str),
    /// The end of a line.
    SoftBreak,
    /// The end of a line that breaks it.
    HardBreak,
}

/// What happens in a leaf's text, and where.
#[derive(Debug, Clone, Copy)]
pub struct InlineEvent<'t> {
    pub inline: Inline<'t>,
    /// How many bytes of the text are before those that say it.
    pub place: usize,
    /// How many bytes of the text say it, marks and brackets among them.
    pub len: usize,
}
