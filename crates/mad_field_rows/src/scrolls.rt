//! Where a field is scrolled to, by numbers.

ghost use Rattle.std.specs.Prelude.{◌≡◌, ◌<◌, ◌≤◌, ◌^◌};
ghost use Rattle.mad_field_rows.specs.Scrolls.{line_in_view, lines_hidden, text_width, char_in_view, column_in_view, columns_hidden};

use mad_measure::Area;

// The first line to show so that line `y` of `count` is in view.
fn line_in_view(rows: usize, count: usize, y: usize, first: usize) -> usize
    requires { y < count }
    ensures { result ≡ line_in_view rows count y first }
{
    if y < first {
        return if rows > 4 { y.saturating_sub(1) } else { y };
    }
    if y - first < rows {
        return first;
    }
    let last = y - rows + 1;
    if y + 1 < count && rows >= 2 {
        last + 1
    } else {
        last
    }
}

/// How many lines are hidden above the first one that is shown: of `count` lines in so many rows, with the cursor in line `y`, where
/// `old` ones were.
pub fn lines_hidden(focused: bool, rows: usize, count: usize, y: usize, old: usize) -> usize
    requires { y < count }
    ensures { result ≡ lines_hidden focused rows count y old }
{
    if count <= rows {
        return 0;
    }
    let first = old.min(count - rows);
    if focused {
        line_in_view(rows, count, y, first)
    } else {
        first
    }
}

/// The columns of a field's text of `count` lines.
pub fn text_width(area: &Area, count: usize) -> usize
    ensures { result ≡ text_width area.now count }
{
    let width = usize::from(area.width);
    if usize::from(area.height) < count {
        width.saturating_sub(1)
    } else {
        width
    }
}

// The columns hidden on the left of a place of less than four columns, so that the character before character `x` is in view.
fn char_in_view(width: usize, x: usize, old: usize) -> usize
    requires { x < 2 ^ 63 }
    ensures { result ≡ char_in_view width x old }
{
    if x < 2 {
        0
    } else if x <= old {
        x - 1
    } else if x - old > width {
        x - width + 1
    } else {
        old
    }
}

// The columns hidden on the left of a wider place, so that two columns on each side of `column` are in view.
fn column_in_view(width: usize, column: usize, old: usize) -> usize
    requires { 4 ≤ width }
    ensures { result ≡ column_in_view width column old }
{
    if column < 2 {
        0
    } else if column - 2 < old {
        column - 2
    } else if column - old > width - 2 {
        column - (width - 2)
    } else {
        old
    }
}

/// How many columns are hidden on the left of a line of `whole` columns, where `old` ones were. The cursor is before character `x`, in
/// `column`.
pub fn columns_hidden(
    focused: bool,
    width: usize,
    whole: usize,
    x: usize,
    column: usize,
    old: usize,
) -> usize
    requires { x < 2 ^ 63 }
    ensures { result ≡ columns_hidden focused width whole x column old }
{
    if whole < width {
        return 0;
    }
    let hidden = if !focused {
        old
    } else if width < 4 {
        char_in_view(width, x, old)
    } else {
        column_in_view(width, column, old)
    };
    hidden.min((whole - width).saturating_add(1))
}
