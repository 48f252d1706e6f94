//! Which rows begin a header.

ghost use Rattle.std.specs.Prelude.{◌≡◌, slice_get};
ghost use Rattle.mad_search.specs.Headers.{is_header, next_header, previous_header};

use mad_format::FmtLine;
use mad_style::CompositeKind;

/// Of these rows, in which parts of a text begin, the first below a row that has a header.
pub fn next_header(lines: &[FmtLine], starts: &[usize], row: usize) -> Option<usize>
    ensures { result ≡ next_header lines.now starts.now row }
{
    for start in starts {
        if row < *start && is_header_at(lines, *start) {
            return Some(*start);
        }
    }
    None
}

/// Of these rows, in which parts of a text begin, the last above a row that has a header.
pub fn previous_header(lines: &[FmtLine], starts: &[usize], row: usize) -> Option<usize>
    ensures { result ≡ previous_header lines.now starts.now row }
{
    let mut left = starts.len();
    'starts: while left > 0 {
        left -= 1;
        let start = starts[left];
        if start < row && is_header_at(lines, start) {
            return Some(start);
        }
    }
    None
}

// Whether the row of an index is one of a header. Past the last row none is.
fn is_header_at(lines: &[FmtLine], row: usize) -> bool
    ensures { result ≡ is_header (slice_get lines.now row) }
{
    match lines.get(row) {
        Some(FmtLine::Normal(composite)) => matches!(composite.kind, CompositeKind::Header(_)),
        _ => false,
    }
}
