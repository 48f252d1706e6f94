//! Which row stays on top where the width changes.

ghost use Rattle.std.specs.Prelude.{◌≡◌, slice_index};
ghost use Rattle.mad_search.specs.KeptRows.{part_of, row_in_parts};

/// The row of a new layout that shows what a row of the old one showed, by the rows in which their parts begin. It is as far below the start of
/// its part, and no further than that part's last row.
pub fn row_in_parts(old: &[usize], new: &[usize], row: usize) -> usize
    ensures { result ≡ row_in_parts old.now new.now row }
{
    let part = section_at(old, row);
    let start = start_at(new, part);
    let end = start_at(new, part.saturating_add(1));
    start
        .saturating_add(row.saturating_sub(start_at(old, part)))
        .min(end.saturating_sub(1).max(start))
}

/// The row in which a section begins; 0, where there is no such section.
pub fn start_at(starts: &[usize], section: usize) -> usize
    ensures { result ≡ slice_index starts.now section }
{
    starts.get(section).copied().unwrap_or(0)
}

/// The number of the section that has a row, where sections begin in these rows; past the last one that of the last.
pub fn section_at(starts: &[usize], row: usize) -> usize
    ensures { result ≡ part_of starts.now row }
{
    let begun = starts.iter().filter(|start| **start <= row).count();
    begun.min(starts.len().saturating_sub(1)).saturating_sub(1)
}
