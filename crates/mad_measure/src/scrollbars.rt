//! Where the thumb of a scroll bar is.

ghost use Rattle.std.specs.Prelude.{◌≡◌, ◌+◌, ◌≤◌, ◌<◌, ◌↔◌, IfSome, IsNone};
ghost use Rattle.mad_measure.specs.Thumbs.{row_number, scrollbar_at, thumb_rows};

/// The first and the last row of a scroll bar's thumb. None where there is no bar, since the content is no higher than what is available.
///
/// `scroll` lines of the content are hidden above. The track begins in row `top`, and has `available_height` rows. Products and sums
/// are exact; a row whose number passes `usize::MAX` is answered as that.
pub fn compute_scrollbar(
    scroll: usize,
    content_height: usize,
    available_height: usize,
    top: usize,
) -> Option<(usize, usize)>
    ensures bar { result ≡ scrollbar_at scroll content_height available_height top }
    ensures none { IsNone result ↔ content_height ≤ available_height }

    // In a track of two rows or more, where the scroll leaves lines for all of them, the thumb begins in the track.
    ensures within { 2 ≤ available_height → scroll + available_height ≤ content_height → IfSome result (λ thumb. thumb.0 < top + available_height) }
{
    if content_height <= available_height {
        return None;
    }
    let (first, last) = thumb_rows(scroll, content_height, available_height);
    let top = top as u128;
    Some((
        row_number(top.saturating_add(first)),
        row_number(top.saturating_add(last)),
    ))
}

// The thumb's first and last row, counted from the track's first.
fn thumb_rows(scroll: usize, lines: usize, rows: usize) -> (u128, u128)
    requires { rows < lines }
    ensures { result ≡ thumb_rows scroll lines rows }
{
    let (hidden, lines, rows) = (scroll as u128, lines as u128, rows as u128);
    let first = (hidden * rows / lines).max(hidden.min(1));
    let last = first + rows * rows / lines;
    if hidden + rows < lines && 3 < rows {
        (first, first.max(last.min(rows - 2)))
    } else {
        (first, last)
    }
}

// The row of this number, the greatest one for all after it.
fn row_number(row: u128) -> usize
    ensures { result ≡ row_number row }
{
    row.min(usize::MAX as u128) as usize
}
