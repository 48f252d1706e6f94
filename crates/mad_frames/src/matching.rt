//! Which rows of a screen have gone up or down.

ghost use Rattle.std.specs.Prelude.{◌≡◌, ◌<◌, ◌≤◌, ◌-◌, IfOk, IfSome, length};
ghost use Rattle.mad_frames.specs.Scrolling.{count_of};

use crate::scrolling::Scroll;
use mad_screen::{Cell, Screen};
use std::alloc::{AllocError, Global};

// By how many rows they may have gone at most.
const MOST: usize = 64;

// A number that tells most rows from one another: by their characters, but for the last column, where a bar may be.
fn mark_of(row: &[Cell]) -> u64 {
    let mut mark: u64 = 0;
    let Some((_, text)) = row.split_last() else {
        return mark;
    };
    for cell in text {
        for c in &cell.chars {
            mark = mark
                .wrapping_mul(0x0100_0000_01b3)
                .wrapping_add(u64::from(u32::from(*c)));
        }
    }
    mark
}

// The marks of the first rows, so many of them.
fn marks_of(alloc: Global, screen: &Screen, rows: u16) -> Result<Vec<u64>, AllocError>
    requires { rows ≤ screen.now.height }
    ensures { IfOk result (λ marks. length marks.items ≡ rows) }
{
    let mut marks = Vec::with_capacity(alloc, usize::from(rows))?;
    for y in 0..rows {
        marks.push(mark_of(screen.row(y)))?;
    }
    Ok(marks)
}

// How many marks are the same, side by side.
fn count_same(old: &[u64], new: &[u64]) -> usize {
    let mut count: usize = 0;
    for (a, b) in old.iter().zip(new) {
        if a == b {
            count = count.saturating_add(1);
        }
    }
    count
}

/// How most of the first rows, so many of them, have gone; none where no fewer are where they were.
pub(crate) fn best_scroll(
    alloc: Global,
    old: &Screen,
    new: &Screen,
    rows: u16,
) -> Result<Option<Scroll>, AllocError>
    requires old_rows { rows ≤ old.now.height }
    requires new_rows { rows ≤ new.now.height }
    ensures some { IfOk result (λ o. IfSome o (λ s. 0 < count_of s)) }
    ensures fewer { IfOk result (λ o. IfSome o (λ s. count_of s < rows)) }
{
    let old = marks_of(alloc, old, rows)?;
    let new = marks_of(alloc, new, rows)?;
    let most = usize::from(rows).min(MOST);
    let mut best = None;
    let mut same = count_same(&old, &new);
    for count in 1..most {
        let rest = usize::from(rows) - count;
        let up = count_same(&old[count..], &new[..rest]);
        if up > same {
            same = up;
            best = Some(Scroll::Up(count as u16));
        }
        let down = count_same(&old[..rest], &new[count..]);
        if down > same {
            same = down;
            best = Some(Scroll::Down(count as u16));
        }
    }
    Ok(best)
}
