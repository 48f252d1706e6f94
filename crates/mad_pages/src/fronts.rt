//! What stands in front of the lines of a page.

ghost use Rattle.std.specs.Prelude.{◌≡◌, ◌++◌, true, OnOk, map};
ghost use Rattle.mad_pages.specs.Fronts.{front_at, front_content, front_of};
ghost use Rattle.mad_pages.specs.PageRows.{behind};

use crate::page_rows::{PageRow, heads_behind, is_head, marks_from, number_behind};
use mad_format::FmtLine;
use mad_mark_runs::MarkRun;
use mad_sections::Gutter;
use std::alloc::AllocError;

/// What stands in front of a row's line.
#[derive(Clone, Copy)]
pub struct Front<'s> {
    /// The gutters that are shown, the outermost first.
    pub gutters: &'s [Gutter],
    /// How many of the last gutters have their first face; the others have their other face.
    pub fresh: usize,
    /// The marks of its section, from the character before the line on.
    pub marks: &'s [MarkRun],
    /// How many counted characters of its section stand before the line.
    pub number: usize,
    /// Whether the line is of the head of a table.
    pub head: bool,
}

/// The front of this number. Past the last one nothing stands in front.
pub fn front_at<'s>(fronts: &[Front<'s>], row: usize) -> Front<'s>
    ensures { front_content result ≡ front_at fronts.now row }
{
    match fronts.get(row) {
        Some(front) => *front,
        None => Front {
            gutters: &[],
            fresh: 0,
            marks: &[],
            number: 0,
            head: false,
        },
    }
}

/// What stands in front of a row's line.
pub fn front_of<'s>(row: &PageRow<'s>) -> Front<'s>
    ensures { result ≡ record { gutters = row.now.gutters; fresh = row.now.fresh; marks = row.now.marks; number = row.now.number; head = row.now.head } }
{
    Front {
        gutters: row.gutters,
        fresh: row.fresh,
        marks: row.marks,
        number: row.number,
        head: row.head,
    }
}

/// Puts what stands in front of the rows of a section behind the fronts that are there. The last `fresh` gutters have their first face in the
/// first row, whose line begins with the first of the marks.
///
/// # Errors
///
/// Out of memory is the only error.
pub(crate) fn push_fronts<'s>(
    fronts: &mut Vec<Front<'s>>,
    gutters: &'s [Gutter],
    fresh: usize,
    marks: &'s [MarkRun],
    lines: &[FmtLine],
) -> Result<(), AllocError>
    ensures { OnOk result (map front_content fronts.new.items ≡ map front_content fronts.old.items ++ map front_of (behind gutters.entry.now fresh marks.entry.now 0 true lines.now)) }
{
    let mut here = fresh;
    let mut left = marks;
    let mut number = 0;
    let mut heads = true;
    for line in lines {
        fronts.push(Front {
            gutters,
            fresh: here,
            marks: left,
            number,
            head: is_head(heads, line),
        })?;
        number = number_behind(left, number, line)?;
        left = marks_from(left, number);
        here = 0;
        heads = heads_behind(heads, line);
    }
    Ok(())
}
