//! What scrolls and rows keep, as functions that only state it.

ghost use Rattle.std.specs.Prelude.{◌≡◌, ◌+◌, ◌-◌, ◌<◌, ◌≤◌, ◌++◌, ℕ, List, Bool, true};
ghost use Rattle.mad_field_rows.specs.declared.line_rows.RowChar.{RowChar};
ghost use Rattle.mad_field_rows.specs.RowChars.{filled_row, row_columns, spaces_after};
ghost use Rattle.mad_field_rows.specs.Scrolls.{lines_hidden, columns_hidden};

/// In a focused field the cursor's line is in view after each scroll to it, and no row is empty that could show a line.
pub fn line_stays_in_view()
    ensures above { (rows count y old : ℕ) → 0 < rows → y < count → lines_hidden true rows count y old ≤ y }
    ensures below { (rows count y old : ℕ) → 0 < rows → y < count → y < lines_hidden true rows count y old + rows }
    ensures full { (rows count y old : ℕ) → 0 < rows → y < count → lines_hidden true rows count y old ≤ count - rows }
{}

/// In a place of four columns or more so is the cursor's column.
pub fn column_stays_in_view()
    ensures left { (width whole x column old : ℕ) → 4 ≤ width → column ≤ whole → columns_hidden true width whole x column old ≤ column }
    ensures right { (width whole x column old : ℕ) → 4 ≤ width → column ≤ whole → column < columns_hidden true width whole x column old + width }
{}

/// Characters that leave a column free are all shown, and spaces after them.
pub fn short_line_is_shown_whole()
    ensures { (cs : List RowChar) (at_end : Bool) (room : ℕ) → row_columns cs < room
        → filled_row cs at_end room ≡ cs ++ spaces_after at_end (room - row_columns cs) }
{}
