//! Which characters of a line are at a column, and which are selected.

ghost use Rattle.std.specs.Prelude.{◌≡◌, ◌+◌, nat_lt, if◌then◌else◌};
ghost use Rattle.mad_field_rows.specs.Positions.{capped, index_at};

use mad_edit_lines::{Pos, index_at_column};

/// How many characters of a line are before the first one that starts at a column or after it.
pub fn index_at(line: &[char], column: usize) -> usize
    ensures { result ≡ index_at line.now column }
{
    index_at_column(line, column)
}

/// The first character of line `y` that is selected, or the count of its characters, where the selection begins at `min`.
pub fn first_selected(min: Pos, y: usize, len: usize) -> usize
    ensures { result ≡ (if nat_lt min.y y then 0 else if nat_lt y min.y then len else min.x) }
{
    if min.y < y {
        0
    } else if y < min.y {
        len
    } else {
        min.x
    }
}

/// The first character of line `y` after the selected ones, where the last selected one is at `max`.
pub fn end_selected(max: Pos, y: usize, len: usize) -> usize
    ensures { result ≡ (if nat_lt y max.y then len else if nat_lt max.y y then 0 else capped (max.x + 1)) }
{
    if y < max.y {
        len
    } else if max.y < y {
        0
    } else {
        max.x.saturating_add(1)
    }
}
