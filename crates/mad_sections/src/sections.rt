//! A page as its sections.

use crate::gutters::Gutter;
use mad_mark_runs::MarkRun;
use mad_md::Text;

/// The lines of one leaf of a text, behind the gutters of the quotes and items that it is in.
#[derive(Debug, PartialEq, Drop)]
pub struct Section<'s> {
    /// The gutters, the outermost first.
    pub gutters: &'s [Gutter],
    /// How many of the last gutters begin here: these have their first face in front of its first row.
    pub fresh: usize,
    /// Of a table that may be shown as a list the gutters of the items: its own, and a bullet.
    pub list: Option<&'s [Gutter]>,
    /// The marks of its counted characters, the first of which has the number 0; none where it has no marks.
    pub marks: &'s [MarkRun],
    /// Its lines.
    pub text: Text<'s>,
}

/// A page, as its sections from the first to the last.
#[derive(Debug, PartialEq, Drop)]
pub struct Page<'s> {
    /// The sections, in order.
    pub sections: Vec<Section<'s>>,
}
